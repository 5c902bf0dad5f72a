// The tray program on words of one bit, with windows of 1,024 samples. tests/model/vectors.py makes input and output. The gate runs a program
// on one input, so this input has a program of its own.
#![tactic(auto)]

use std::process::ExitCode;

fn main(rt: HostRuntime) -> ExitCode {
    tray_lines::run(&rt)
}
