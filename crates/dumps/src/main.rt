// Plays published memory dumps on boxes; what must come out was computed by another program.
#![tactic(auto)]

use std::process::ExitCode;

// The gate runs a program on its one stored input, and two inputs are to be run: so the program trial has this main too.
fn main(rt: HostRuntime) -> anyhow::Result<ExitCode> {
    player::run(&rt)
}
