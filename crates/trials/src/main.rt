//! Works a long script of random commands on standard input; what it prints is held to the stored lines.
#![tactic(auto)]

use session::run::work;
use std::process::ExitCode;

fn main(rt: HostRuntime) -> anyhow::Result<ExitCode> {
    Ok(work(&rt, "trials", rt.stdin())?)
}
