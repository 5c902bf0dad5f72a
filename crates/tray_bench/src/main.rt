// The tray program, which the script `tray` runs. Crate tray_lines has all of it.
#![tactic(auto)]

use std::process::ExitCode;

fn main(rt: HostRuntime) -> ExitCode {
    tray_lines::run(&rt)
}
