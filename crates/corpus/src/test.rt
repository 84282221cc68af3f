// Tests that ask one thing of a decoder, and the outcome that stands with each.
use crate::answer::{Answer, refused};
use crate::decoder::Decoder;
use crate::group::{Group, Kind};
use crate::malformed::Malformed;
use crate::member::{byte, byte_strings, bytes, number, numbers_into, size, text, word};
use second::Fault;
use serde_json::Value;
use std::alloc::Global;

fn tag<D: Decoder>(decoder: &D, alloc: Global, test: &Value) -> Result<Answer, Malformed> {
    let key = u64::from_str_radix(text(test, "key")?, 16).map_err(|_| Malformed::Name("key"))?;
    let signer = bytes(alloc, test, "signer")?;
    let span = bytes(alloc, test, "span")?;
    Ok(decoder.tag(alloc, key, &signer, &span)?)
}

fn part<D: Decoder>(decoder: &D, alloc: Global, test: &Value) -> Result<Answer, Malformed> {
    let message = bytes(alloc, test, "message")?;
    let start = word(test, "start")?;
    let length = word(test, "length")?;
    Ok(decoder.part(alloc, &message, start, length)?)
}

fn enter<D: Decoder>(decoder: &D, alloc: Global, test: &Value) -> Result<Answer, Malformed> {
    let entered = byte_strings(alloc, test, "entered")?;
    let signer = bytes(alloc, test, "signer")?;
    Ok(decoder.enter(alloc, &entered, &signer)?)
}

fn message<D: Decoder>(
    decoder: &D,
    alloc: Global,
    group: &Group<'_>,
    test: &Value,
) -> Result<Answer, Malformed> {
    let message = bytes(alloc, test, "message")?;
    let answer = match &group.station {
        None => decoder.walk(alloc, &message, group.rows)?,
        Some(station) => decoder.read(alloc, &message, group.rows, station)?,
    };
    Ok(answer)
}

/// What the decoder answers to a test of this group, which is none of drafts.
pub fn ask<D: Decoder>(
    decoder: &D,
    alloc: Global,
    group: &Group<'_>,
    test: &Value,
) -> Result<Answer, Malformed> {
    match group.kind {
        Kind::Walk | Kind::Read => message(decoder, alloc, group, test),
        Kind::Lookup => part(decoder, alloc, test),
        Kind::Time => Ok(decoder.time(alloc, &bytes(alloc, test, "payload")?)?),
        Kind::Sheet => Ok(decoder.sheet(alloc, text(test, "sheet")?.as_bytes())?),
        Kind::KeyTag => tag(decoder, alloc, test),
        Kind::TrustList => enter(decoder, alloc, test),
        Kind::Draft => Err(Malformed::Name("type")),
    }
}

fn taken(alloc: Global, kind: Kind, test: &Value) -> Result<Answer, Malformed> {
    let mut numbers = Vec::new(alloc);
    match kind {
        Kind::Walk | Kind::Read => {
            numbers.push(number(test, "header")?)?;
            numbers.push(number(test, "span")?)?;
            numbers_into(&mut numbers, test, "rows")?;
        }
        Kind::Sheet => numbers_into(&mut numbers, test, "slots")?,
        Kind::Lookup => return Ok(Answer::bytes(alloc, &bytes(alloc, test, "part")?)?),
        Kind::Time => return Ok(Answer::bytes(alloc, &bytes(alloc, test, "seconds")?)?),
        Kind::KeyTag => return Ok(Answer::bytes(alloc, &bytes(alloc, test, "tag")?)?),
        Kind::TrustList | Kind::Draft => {}
    }
    Ok(Answer::Taken(numbers))
}

pub(crate) fn fault(test: &Value) -> Result<Fault, Malformed> {
    Ok(Fault {
        number: byte(test, "number")?,
        place: size(test, "place")?,
        detail: byte(test, "detail")?,
    })
}

/// The outcome that stands with a test of this kind.
pub fn expected(alloc: Global, kind: Kind, test: &Value) -> Result<Answer, Malformed> {
    match text(test, "result")? {
        "taken" => taken(alloc, kind, test),
        "refused" => Ok(refused(fault(test)?)),
        _ => Err(Malformed::Name("result")),
    }
}
