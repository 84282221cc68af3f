// Parts of buffers.

/// The first bytes, as many as there are.
pub fn front(bytes: &[u8], length: usize) -> &[u8] {
    &bytes[..length.min(bytes.len())]
}
