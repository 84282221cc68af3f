//! A group key message on its whole way: the group server drafts it, and it is spoiled on the way;
//! it is drafted once more, and a first station reads it; a second one gets the same key in another
//! order of payloads, reads and loads it; and both draft what they read again for the archive.
#![tactic(auto)]

mod fault;
mod first;
mod key;
mod order;
mod part;
mod second;
mod server;
mod stations;
mod tell;

use fault::Fault;
use first::first;
use second::second;
use stations::trusted;

fn run(rt: &HostRuntime) -> Result<(), Fault> {
    let list = trusted(rt)?;
    let message = first(rt, &list)?;
    second(rt, &message, &list)
}

fn main(rt: HostRuntime) -> anyhow::Result<()> {
    run(&rt)?;
    Ok(())
}
