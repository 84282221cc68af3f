// Drafts a message by a script of calls on standard input.
#![tactic(auto)]

mod bytes;
mod fault;
mod profiles;
mod runs;

use runs::run;
use std::io;

fn main(rt: HostRuntime) -> anyhow::Result<()> {
    let text = io::read_to_string(rt.alloc(), rt.stdin())?;
    run(&rt, &text)
}
