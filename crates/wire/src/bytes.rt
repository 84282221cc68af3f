// Bytes by their places.
ghost use Rattle.std.specs.Prelude.{◌≡◌, take, drop, slice_index};

/// The byte at a place, or 0 past the end.
pub fn byte_at(bytes: &[u8], at: usize) -> u8
    ensures { result ≡ slice_index bytes.now at }
{
    bytes.get(at).copied().unwrap_or(0)
}

/// The bytes from a place on; none past the end.
pub fn bytes_from(bytes: &[u8], at: usize) -> &[u8]
    ensures { result.now ≡ drop at bytes.now }
{
    bytes.get(at..).unwrap_or(&[])
}

/// So many bytes from a place on, or as many as there are.
pub fn bytes_at(bytes: &[u8], at: usize, length: usize) -> &[u8]
    ensures { result.now ≡ take length (drop at bytes.now) }
{
    let rest = bytes_from(bytes, at);
    if rest.len() <= length {
        return rest;
    }
    &rest[..length]
}
