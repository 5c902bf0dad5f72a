// The tray program on words of 5 bits, with windows of 512 samples, cutoffs of 2, refused samples and lines that are not read.
// tests/model/vectors.py makes input and output. The gate runs a program on one input, so this input has a program of its own.
#![tactic(auto)]

use std::process::ExitCode;

fn main(rt: HostRuntime) -> ExitCode {
    tray_lines::run(&rt)
}
