// The program of powerup_main, which the gate runs here on the first edition's blocks of tests/model/vectors.py. The gate runs a program on one
// input, so this input has a program of its own.
#![tactic(auto)]

use std::process::ExitCode;

fn main(rt: HostRuntime) -> ExitCode {
    powerup_lines::run(&rt)
}
