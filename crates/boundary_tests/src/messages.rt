// A message to read, and what a call hands out.
use std::alloc::{AllocError, Global};
use verifier::KeyTag;

pub(crate) const KEY: u64 = 0x0123456789abcdef;

// T, RAND and such may be absent under it: one IDR of role 1, then SIGN.
pub(crate) const SHEET: &[u8] = b"slot least most rank\n3 1 1 0\n11 1 1 0\n";

// What stands in the numbers before a call.
pub(crate) const BEFORE: Report = Report {
    count: 1001,
    header: 1002,
    span: 1003,
    place: 1004,
    detail: 1005,
};

#[derive(Clone, Copy, PartialEq, Eq, Debug)]
pub(crate) struct Report {
    pub(crate) count: u32,
    pub(crate) header: u32,
    pub(crate) span: u32,
    pub(crate) place: u32,
    pub(crate) detail: u32,
}

// A refusal in the numbers, the others as before.
pub(crate) fn refused(place: u32, detail: u32) -> Report {
    Report {
        place,
        detail,
        ..BEFORE
    }
}

// A group key's header, an IDR of role 1 with the data `a`, and SIGN by the key.
pub(crate) fn signed(heap: Global) -> Result<Vec<u8>, AllocError> {
    let mut bytes = Vec::from_slice(
        heap,
        &[1, 26, 14, 1, 0, 0, 0, 1, 0, 1, 4, 1, 1, 0, 1, b'a', 0x20, 8],
    )?;
    let signature = KeyTag { key: KEY }.sign(b"a", &bytes);
    bytes.extend_from_slice(&signature)?;
    Ok(bytes)
}
