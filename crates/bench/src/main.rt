// The line program of document 01: operations as lines on standard input, a reply line for each on standard output.
#![tactic(auto)]

use std::process::ExitCode;

fn main(rt: HostRuntime) -> ExitCode {
    lines::run(&rt)
}
