// Lists the payloads of the message on standard input, or tells why it is refused.
#![tactic(auto)]

use std::io;
use std::io::Read;
use walk::walk;
use wire::{LONGEST, MOST_PAYLOADS, Refusal, Row};

// One byte more than the longest message, so that a longer one is refused for its length.
const ENOUGH: u64 = LONGEST as u64 + 1;

fn input(rt: &HostRuntime) -> io::Result<Vec<u8>> {
    let mut bytes = Vec::new(rt.alloc());
    rt.stdin().take(ENOUGH).read_to_end(&mut bytes)?;
    Ok(bytes)
}

fn list(rt: &HostRuntime, rows: &[Row]) -> io::Result<()> {
    println!(rt; "code slot start length")?;
    for row in rows {
        println!(rt; "{row}")?;
    }
    Ok(())
}

fn refuse(rt: &HostRuntime, refusal: Refusal) -> io::Result<()> {
    let told = refusal.report();
    println!(rt; "number place detail")?;
    println!(rt; "{told}")?;
    eprintln!(rt; "refused: {refusal}")
}

fn main(rt: HostRuntime) -> io::Result<()> {
    let message = input(&rt)?;
    let mut rows = [Row::BLANK; MOST_PAYLOADS];
    match walk(&message, &mut rows) {
        Ok(walked) => list(&rt, &rows[..walked.count]),
        Err(refusal) => refuse(&rt, refusal),
    }
}
