// Parts of a message: the bytes of a row, and the time of a T payload.
use crate::fault::Fault;

/// The bytes of a row: refusal 26.
pub fn part(bytes: &[u8], start: usize, length: usize) -> Result<&[u8], Fault> {
    bytes
        .get(start..)
        .and_then(|rest| rest.get(..length))
        .ok_or(Fault::of(26))
}

/// The time of a T payload as it stands in the message, ten bytes: refusals 11 to 13.
pub fn time(payload: &[u8]) -> Result<u64, Fault> {
    match payload {
        [_, 0, b0, b1, b2, b3, b4, b5, b6, b7] => {
            Ok(u64::from_be_bytes([*b0, *b1, *b2, *b3, *b4, *b5, *b6, *b7]))
        }
        [_, 0, _, _, _, _, _, _, _, _, ..] => Err(Fault::of(13)),
        [_, _, _, _, _, _, _, _, _, _, ..] => Err(Fault::of(12)),
        _ => Err(Fault::of(11)),
    }
}
