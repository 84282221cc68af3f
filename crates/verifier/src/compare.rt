// Whether bytes and identities are the same.
ghost use Rattle.std.specs.Prelude.{◌≡◌};
ghost use Rattle.std.specs.Str.{bytes_eq};
ghost use Rattle.verifier.specs.Identities.{same_identity};

/// Whether two byte strings are the same.
///
/// There is no early end, which `a == b` has, so that how long it takes says nothing of where two
/// signatures of one length differ.
pub fn same_bytes(a: &[u8], b: &[u8]) -> bool
    ensures { result ≡ bytes_eq a.now b.now }
{
    if a.len() != b.len() {
        return false;
    }
    // By one index for both: a fold over a zip leaves its result to be shown.
    let mut equal = true;
    for (i, byte) in a.iter().enumerate() {
        equal &= *byte == b[i];
    }
    equal
}

/// Whether two identities are the same. All identities are compared by this.
pub fn same_identity(a: &[u8], b: &[u8]) -> bool
    ensures { result ≡ same_identity a.now b.now }
{
    same_bytes(a, b)
}
