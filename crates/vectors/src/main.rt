// The line program on lines that tests/model/vectors.py makes from seed 1: small and large widths, lines that are not read, and a last line without a byte 10.
// The gate runs a program on one input, so this input has a program of its own.
#![tactic(auto)]

use std::process::ExitCode;

fn main(rt: HostRuntime) -> ExitCode {
    lines::run(&rt)
}
