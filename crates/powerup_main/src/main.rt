// The power-up tests as a program, started by ./powerup. The gate runs it on the second edition's blocks of tests/model/vectors.py.
#![tactic(auto)]

use std::process::ExitCode;

fn main(rt: HostRuntime) -> ExitCode {
    powerup_lines::run(&rt)
}
