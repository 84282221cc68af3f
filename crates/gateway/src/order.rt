// The group server drafts the same key in another order of payloads, for the second station.
use crate::fault::Fault;
use crate::first::Message;
use crate::key::{HEAD, SERVER};
use crate::stations::{KEY, SIGN_LENGTH, SIGN_TYPE};
use crate::tell;
use drafter::{Open, begin};
use plain::{Call, Head, Reply};
use profile::Sheet;
use std::io;
use walk::{Part, lookup};
use wire::{Refusal, Row};

const PROFILE: &str = "sheet:second";

// All of a payload after its next-payload byte.
fn body<'a>(message: &'a [u8], row: &Row) -> Result<&'a [u8], Refusal> {
    let Part { bytes, place } = lookup(message, row)?;
    match bytes {
        [_next, body @ ..] => Ok(body),
        [] => Err(Refusal::PayloadCut(place)),
    }
}

fn told(rt: &HostRuntime, call: &Call<'_, Sheet>, reply: Reply) -> io::Result<()> {
    tell::answered(rt, call, PROFILE, reply)
}

fn head(rt: &HostRuntime, open: &mut Open<'_>) -> io::Result<()> {
    let Head {
        byte3,
        csb,
        cs,
        map_type,
        map_info,
    } = HEAD;
    let reply = open.head(byte3, csb, cs, map_type, map_info).into();
    told(rt, &Call::Head(HEAD), reply)
}

fn add(
    rt: &HostRuntime,
    open: &mut Open<'_>,
    position: usize,
    code: u8,
    body: &[u8],
) -> io::Result<()> {
    let reply = open.add(position, code, body).into();
    let call = Call::Add {
        position,
        code,
        body,
    };
    told(rt, &call, reply)
}

// The header, and the payloads of a message, SAKKE first.
fn add_all(rt: &HostRuntime, open: &mut Open<'_>, message: &Message) -> Result<(), Fault> {
    let mut rows = message.rows;
    rows[..8].rotate_right(1);
    head(rt, open)?;
    for (position, row) in rows[..9].iter().enumerate() {
        add(rt, open, position, row.code, body(&message.bytes, row)?)?;
    }
    Ok(())
}

fn tell_delivery(
    rt: &HostRuntime,
    sheet: &Sheet,
    signature: &[u8],
    signed: Reply,
    length: usize,
) -> io::Result<()> {
    let close = Call::Close {
        profile: sheet,
        sign_type: SIGN_TYPE,
        length: SIGN_LENGTH,
    };
    told(rt, &close, Reply::Done)?;
    told(rt, &Call::Sign(signature), signed)?;
    told(rt, &Call::Release, Reply::Released(length))
}

/// Drafts the message, and answers its length. A draft that is out can't be let go, so that what is
/// told of it is told once it has ended.
pub fn reordered(
    rt: &HostRuntime,
    message: &Message,
    sheet: &Sheet,
    buffer: &mut [u8],
) -> Result<usize, Fault> {
    let mut open = begin(buffer);
    add_all(rt, &mut open, message)?;
    let mut out = open.close(sheet, SIGN_TYPE, SIGN_LENGTH);
    let signature = KEY.sign(&SERVER, out.span());
    let signed = out.sign(&signature).into();
    let (length, _buffer) = out.release();
    tell_delivery(rt, sheet, &signature, signed, length)?;
    Ok(length)
}
