//! An example of a program that stands on these crates: a cluster that is made in code and played, and a lease table
//! between two threads.
#![tactic(auto)]

mod cluster;
mod turns;

use std::io;

fn main(rt: HostRuntime) -> io::Result<()> {
    cluster::tell(&rt)?;
    turns::tell(&rt)
}
