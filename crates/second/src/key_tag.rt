// The key tag, a stand-in for a real signature.
use crate::fault::Fault;
use crate::message::Decoded;

/// The tag of a signer and a span under a key.
pub fn tag(key: u64, signer: &[u8], span: &[u8]) -> u64 {
    mixed(mixed(key, signer), span)
}

fn mixed(start: u64, bytes: &[u8]) -> u64 {
    bytes.iter().fold(
        start,
        |sum, byte| sum.rotate_left(7).wrapping_add(u64::from(*byte)),
    )
}

/// Whether the signature is the tag's eight bytes: refusal 18. `bytes` are those that were decoded.
pub fn check_tag(decoded: &Decoded, bytes: &[u8], key: u64) -> Result<(), Fault> {
    let refused = Fault::at(18, decoded.span);
    let span = bytes.get(..decoded.span).ok_or(refused)?;
    let expected = tag(key, decoded.signer.as_slice(), span).to_be_bytes();
    if decoded.message.signature.as_slice() == expected.as_slice() {
        Ok(())
    } else {
        Err(refused)
    }
}
