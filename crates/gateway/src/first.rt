// The group server drafts a message twice, and the first station reads what comes in: at first
// nothing, then the message as it was spoiled on its way, and at last as it was delivered.
use crate::fault::Fault;
use crate::part::front;
use crate::server::{calls, calls_once_more, signature};
use crate::stations::{FIRST_SHEET, ROOM, Trust};
use crate::tell;
use exchange::{Exchanged, Station, exchange};
use plain::{Call, Reply};
use profile::{Fixed, Sheet};
use std::io;
use wire::{MOST_PAYLOADS, Row};

/// A message that was delivered, and its payloads as the station read them.
#[derive(Drop)]
pub struct Message {
    pub bytes: Vec<u8>,
    pub rows: [Row; MOST_PAYLOADS],
}

// What comes in at the station, and how that is told.
#[derive(Clone, Copy)]
struct Incoming<'a> {
    told: &'a str,
    bytes: &'a [u8],
}

// What the server's draft delivers to be handed on, and the rows of what came in.
#[derive(Drop)]
struct Outcome {
    delivered: Vec<u8>,
    rows: [Row; MOST_PAYLOADS],
}

fn tell_draft(
    rt: &HostRuntime,
    calls: &[Call<'_, Fixed>],
    replies: &[Reply],
    held: &[u8],
) -> io::Result<()> {
    for (call, reply) in calls.iter().zip(replies) {
        tell::answered(rt, call, "gmk", *reply)?;
    }
    tell::bytes(rt, "The draft holds", held)
}

fn tell_station(
    rt: &HostRuntime,
    incoming: Incoming<'_>,
    done: &Exchanged,
    rows: &[Row],
    archive: &[u8],
) -> io::Result<()> {
    let Incoming { told, bytes } = incoming;
    println!(rt; "{told}")?;
    println!(rt; "The first station reads what came in under its sheet.")?;
    tell::reading(rt, done.read, rows)?;
    tell::archived(rt, done.again, bytes, archive)
}

// One exchange: the server makes its calls, and the station reads what came in under its sheet and
// the trust list, and drafts it again for its archive.
fn exchanged(
    rt: &HostRuntime,
    calls: &[Call<'_, Fixed>],
    incoming: Incoming<'_>,
    list: &Trust,
) -> Result<Outcome, Fault> {
    let sheet = Sheet::parse(FIRST_SHEET.as_bytes())?;
    let station = Station {
        profile: &sheet,
        verifier: list,
    };
    let mut replies = vec![in rt.alloc(); Reply::Done; calls.len()].map_err(io::Error::from)?;
    let mut buffer = [0xff; ROOM];
    let mut rows = [Row::BLANK; MOST_PAYLOADS];
    let mut archive = [0xff; ROOM];
    let done = exchange(
        &mut buffer,
        calls,
        &mut replies,
        incoming.bytes,
        &station,
        &mut rows,
        &mut archive,
    );
    let held = front(&buffer, done.made.length);
    tell_draft(rt, calls, &replies, held)?;
    tell_station(rt, incoming, &done, &rows, &archive)?;
    let delivered = held.to_vec(rt.alloc()).map_err(io::Error::from)?;
    Ok(Outcome { delivered, rows })
}

// A message with one bit of its last byte turned.
fn spoiled(rt: &HostRuntime, message: &[u8]) -> io::Result<Vec<u8>> {
    let mut bytes = message.to_vec(rt.alloc())?;
    if let Some(last) = bytes.last_mut() {
        *last ^= 1;
    }
    Ok(bytes)
}

/// Three exchanges: what the draft of one delivers comes in at the next. Answers the message as the
/// station accepts it.
pub fn first(rt: &HostRuntime, list: &Trust) -> Result<Message, Fault> {
    let profile = Fixed::Gmk;
    let signature = signature(rt, &profile)?;
    println!(rt; "The group server drafts a group key message.")?;
    let nothing = Incoming {
        told: "Nothing has come in at the first station yet.",
        bytes: &[],
    };
    let Outcome { delivered, .. } = exchanged(
        rt,
        &calls(rt, &profile, &signature)?,
        nothing,
        list,
    )?;
    println!(rt; "The group server drafts it once more.")?;
    let spoiled = spoiled(rt, &delivered)?;
    let wrong = Incoming {
        told: "The first message comes in with one bit of its last byte turned on the way.",
        bytes: &spoiled,
    };
    let Outcome { delivered, .. } = exchanged(
        rt,
        &calls_once_more(rt, &profile, &signature)?,
        wrong,
        list,
    )?;
    println!(rt; "The group server drafts nothing more.")?;
    let right = Incoming {
        told: "The second message comes in as it was delivered.",
        bytes: &delivered,
    };
    let Outcome { rows, .. } = exchanged(rt, &[], right, list)?;
    Ok(Message {
        bytes: delivered,
        rows,
    })
}
