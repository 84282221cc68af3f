// Encoding: the bytes of records.
use crate::kind::SIGN;
use crate::message::{Message, Payload};
use std::alloc::{AllocError, Global};

/// The bytes of the records. Of an S type above 15 and of a signature's length above 4,095 only the
/// low bits are written.
pub fn encode(alloc: Global, message: &Message) -> Result<Vec<u8>, AllocError> {
    let mut out = encode_open(alloc, message, SIGN)?;
    let length = message.signature.len() % 4096;
    let head = u16::from(message.sign_type % 16) * 4096 + length as u16;
    out.extend_from_slice(head.to_be_bytes().as_slice())?;
    out.extend_from_slice(message.signature.as_slice())?;
    Ok(out)
}

/// The bytes of header and payloads, the last next-payload byte being `last`.
pub fn encode_open(alloc: Global, message: &Message, last: u8) -> Result<Vec<u8>, AllocError> {
    let mut out = Vec::new(alloc);
    let payloads = message.payloads.as_slice();
    out.extend_from_slice(&[1, 26, first_code(payloads, last), message.byte3])?;
    out.extend_from_slice(message.csb.to_be_bytes().as_slice())?;
    out.extend_from_slice(&[message.cs, message.map_type])?;
    out.extend_from_slice(message.map_info.as_slice())?;
    put_payloads(&mut out, payloads, last)?;
    Ok(out)
}

/// The code that names the first of `payloads`, or `last` where there is none.
fn first_code(payloads: &[Payload], last: u8) -> u8 {
    payloads.first().map_or(last, |payload| payload.code)
}

fn put_payloads(out: &mut Vec<u8>, payloads: &[Payload], last: u8) -> Result<(), AllocError> {
    match payloads {
        [] => Ok(()),
        [payload, others @ ..] => {
            out.push(first_code(others, last))?;
            out.extend_from_slice(payload.body.as_slice())?;
            put_payloads(out, others, last)
        }
    }
}
