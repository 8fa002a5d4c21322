// Plays any list of calls on a new box, one call a line on standard input.
#![tactic(auto)]

use std::process::ExitCode;

// The gate runs a program on its one stored input, and two inputs are to be run: so the program dumps has this main too.
fn main(rt: HostRuntime) -> anyhow::Result<ExitCode> {
    player::run(&rt)
}
