//! The program `xnum`, but that what is said on standard error goes to standard output, where its stored run
//! compares it.
#![tactic(auto)]

use std::process::ExitCode;
use xn_app::start_on;
use xn_io::StdSink;

fn main(rt: HostRuntime) -> ExitCode {
    start_on(&rt, &mut StdSink::new(&rt), &mut StdSink::new(&rt))
}
