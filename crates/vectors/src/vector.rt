// A message, run through both decoders.
use crate::library::{Library, is_signed_by};
use crate::tally::Tally;
use corpus::{Answer, Decoder, Second, Station};
use second::decode;
use std::alloc::{AllocError, Global};

// How many rows are lent where nothing else is said: two more than a message fills.
pub const ROWS: usize = 26;

// What a message that both take has beside its rows: whether the second decoder's records have these very
// bytes for their encoding, and its signer is the one that the library shows to a verifier.
fn has_same_records(alloc: Global, message: &[u8]) -> Result<bool, AllocError> {
    let Ok(decoded) = decode(alloc, message, ROWS) else {
        return Ok(true);
    };
    let encoded = second::encode(alloc, &decoded.message)?;
    Ok(encoded.as_slice() == message && is_signed_by(message, &decoded.signer, decoded.span))
}

// Whether the two walk it alike.
fn is_walked_alike(alloc: Global, message: &[u8]) -> Result<bool, AllocError> {
    let ours = Library.walk(alloc, message, ROWS)?;
    let theirs = Second.walk(alloc, message, ROWS)?;
    Ok(ours == theirs && has_same_records(alloc, message)?)
}

fn answer<D: Decoder>(
    decoder: &D,
    alloc: Global,
    message: &[u8],
    station: Option<&Station>,
) -> Result<Answer, AllocError> {
    match station {
        None => decoder.walk(alloc, message, ROWS),
        Some(station) => decoder.read(alloc, message, ROWS, station),
    }
}

// Reads a message at a station, or walks it where there is none. What is not refused on the walk, by 1 to
// 13, is compared by its walk too.
pub fn run(
    alloc: Global,
    tally: &mut Tally,
    message: &[u8],
    station: Option<&Station>,
) -> Result<(), AllocError> {
    let ours = answer(&Library, alloc, message, station)?;
    let theirs = answer(&Second, alloc, message, station)?;
    let alike = matches!(theirs.number(), 1..=13) || is_walked_alike(alloc, message)?;
    tally.compare(alloc, &ours, &theirs, alike, message)
}
