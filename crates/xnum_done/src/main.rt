//! The program once more, on a graph without nodes: it solves it.
#![tactic(auto)]

use std::process::ExitCode;
use xn_app::start;

fn main(rt: HostRuntime) -> ExitCode {
    start(&rt)
}
