// Messages, put together byte by byte.
use std::alloc::{AllocError, Global};

// A header of ten bytes, with no session.
pub(crate) fn header(heap: Global, next: u8) -> Result<Vec<u8>, AllocError> {
    Vec::from_slice(heap, &[1, 26, next, 1, 0x20, 0, 0, 1, 0, 1])
}

// A message of one payload and SIGN, of which a part may be left out at the end.
pub(crate) fn one(heap: Global, code: u8, body: &[u8]) -> Result<Vec<u8>, AllocError> {
    let mut bytes = header(heap, code)?;
    bytes.push(4)?;
    bytes.extend_from_slice(body)?;
    Ok(bytes)
}

pub(crate) fn signed(heap: Global, code: u8, body: &[u8]) -> Result<Vec<u8>, AllocError> {
    let mut bytes = one(heap, code, body)?;
    bytes.extend_from_slice(&[0x20, 1, 0xaa])?;
    Ok(bytes)
}

// SIGN after so many empty RANDs.
pub(crate) fn many(heap: Global, rands: usize) -> Result<Vec<u8>, AllocError> {
    let mut bytes = header(heap, if rands == 0 { 4 } else { 11 })?;
    for left in (0..rands).rev() {
        bytes.push(if left == 0 { 4 } else { 11 })?;
        bytes.push(0)?;
    }
    bytes.extend_from_slice(&[0x20, 1, 0xaa])?;
    Ok(bytes)
}

// A message whose map has so many sessions.
pub(crate) fn with_sessions(
    heap: Global,
    count: u8,
    sessions: &[u8],
) -> Result<Vec<u8>, AllocError> {
    let mut bytes = Vec::from_slice(heap, &[1, 26, 4, 1, 0x20, 0, 0, 1, count, 2])?;
    bytes.extend_from_slice(sessions)?;
    bytes.extend_from_slice(&[0x20, 1, 0xaa])?;
    Ok(bytes)
}
