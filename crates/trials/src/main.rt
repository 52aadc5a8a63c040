// Runs what is not proved by computing: outside files, their hulls by both calculations, outside cases of the other calls, a worked example, and conditions at their limits. What it must print stands in stdout.
#![tactic(auto)]

mod barges;
mod calls;
mod conditions;
mod curves;
mod data;
mod files;
mod hulls;
mod inclinings;
mod profiles;
mod surfaces;
mod tallies;
mod text;
mod trying;

use std::io;
use std::rt::Files;

fn run(rt: &(impl Files + Print)) -> io::Result<()> {
    files::try_all(rt)?;
    hulls::try_all(rt)?;
    calls::try_all(rt)?;
    curves::print_all(rt)?;
    conditions::print_all(rt)
}

fn main(rt: HostRuntime) -> io::Result<()> {
    run(&rt)
}
