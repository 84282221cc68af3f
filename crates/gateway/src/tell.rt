// What is printed of each step. Calls are spelled as the program draft reads them.
use crate::part::front;
use hex::encode;
use plain::{Call, Head, Reply};
use std::alloc::AllocError;
use std::fmt::Display;
use std::io;
use wire::{Refusal, Report, Row, Walked};

// Bytes in lower-case digits, `-` for none. The program draft has the same: programs share no
// crate.
fn spelled(rt: &HostRuntime, bytes: &[u8]) -> Result<String, AllocError> {
    if bytes.is_empty() {
        return String::from_str(rt.alloc(), "-");
    }
    encode(rt.alloc(), bytes)
}

// Add and replace.
fn payload_call(
    rt: &HostRuntime,
    name: &str,
    position: usize,
    code: u8,
    body: &[u8],
) -> io::Result<()> {
    let body = spelled(rt, body)?;
    println!(rt; "{name} {position} {code} {body}")
}

fn call<P>(rt: &HostRuntime, call: &Call<'_, P>, profile: &str) -> io::Result<()> {
    match *call {
        Call::Head(
            Head {
                byte3,
                csb,
                cs,
                map_type,
                map_info,
            },
        ) => {
            let info = spelled(rt, map_info)?;
            println!(rt; "head {byte3} 0x{csb:08x} {cs} {map_type} {info}")
        }
        Call::Add {
            position,
            code,
            body,
        } => payload_call(rt, "add", position, code, body),
        Call::Replace {
            position,
            code,
            body,
        } => payload_call(rt, "replace", position, code, body),
        Call::Remove { position } => println!(rt; "remove {position}"),
        Call::Close {
            sign_type,
            length,
            ..
        } => println!(rt; "close {profile} {sign_type} {length}"),
        Call::Sign(signature) => {
            let signature = spelled(rt, signature)?;
            println!(rt; "sign {signature}")
        }
        Call::Withdraw => println!(rt; "withdraw"),
        Call::Release => println!(rt; "release"),
    }
}

/// Number, place and detail, and the words.
pub fn refused<R: Copy + Display + Into<Report>>(rt: &HostRuntime, refusal: R) -> io::Result<()> {
    let told: Report = refusal.into();
    println!(rt; "    refused {told} {refusal}")
}

fn answer(rt: &HostRuntime, reply: Reply) -> io::Result<()> {
    match reply {
        Reply::Done => println!(rt; "    ok"),
        Reply::Delivered(length) | Reply::Released(length) => println!(rt; "    ok {length}"),
        Reply::Refused(refusal) => refused(rt, refusal),
        Reply::Misplaced => println!(rt; "    misplaced"),
    }
}

/// A call, and its answer on the next line. A close is under the profile that is named.
pub fn answered<P>(
    rt: &HostRuntime,
    made: &Call<'_, P>,
    profile: &str,
    reply: Reply,
) -> io::Result<()> {
    call(rt, made, profile)?;
    answer(rt, reply)
}

/// How many bytes something has, and these.
pub fn bytes(rt: &HostRuntime, what: &str, bytes: &[u8]) -> io::Result<()> {
    let length = bytes.len();
    let spelled = spelled(rt, bytes)?;
    println!(rt; "{what} {length} bytes.")?;
    println!(rt; "    {spelled}")
}

/// What read answers: three numbers and the rows, or the refusal.
pub fn reading(rt: &HostRuntime, read: Result<Walked, Refusal>, rows: &[Row]) -> io::Result<()> {
    let walked = match read {
        Ok(walked) => walked,
        Err(refusal) => return refused(rt, refusal),
    };
    println!(rt; "    ok {walked}")?;
    println!(rt; "    code slot start length")?;
    for row in rows.iter().take(walked.count) {
        println!(rt; "    {row}")?;
    }
    Ok(())
}

/// What redraft answers: the length of the message, and whether its bytes are those that were read.
pub fn archived(
    rt: &HostRuntime,
    again: Result<usize, Refusal>,
    message: &[u8],
    archive: &[u8],
) -> io::Result<()> {
    println!(rt; "The archive drafts it again.")?;
    let length = match again {
        Ok(length) => length,
        Err(refusal) => return refused(rt, refusal),
    };
    println!(rt; "    ok {length}")?;
    let drafted = front(archive, length);
    bytes(rt, "The archive holds", drafted)?;
    let those = if drafted == message { "the" } else { "not the" };
    println!(rt; "    {those} bytes that were read")
}
