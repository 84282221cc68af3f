// A verifier by a tag over the signer and the span.
ghost use Rattle.std.specs.Prelude.{◌≡◌, ◌++◌};
ghost use Rattle.wire.specs.Octets.{in_bytes};
ghost use Rattle.verifier.specs.Tags.{tag_step, tag, tag_passes};

use crate::compare::same_bytes;
use crate::interface::Verifier;

/// Passes the signature that is the eight bytes of a tag over signer and span, begun at a key. It
/// protects nothing: whoever has the key can sign.
#[derive(Clone, Copy)]
pub struct KeyTag {
    pub key: u64,
}

// The tag so far, one byte on.
fn tag_step(t: u64, b: u8) -> u64
    ensures { result ≡ tag_step t b }
{
    t.rotate_left(7).wrapping_add(b as u64)
}

fn tag_steps(start: u64, bytes: &[u8]) -> u64
    ensures { result ≡ tag start bytes.now }
{
    bytes.iter().fold(start, |t, b| tag_step(t, *b))
}

// In two folds, since one over a chain of both takes more than twice as long.
fn tag_over(key: u64, signer: &[u8], span: &[u8]) -> u64
    ensures { result ≡ tag key (signer.now ++ span.now) }
{
    tag_steps(tag_steps(key, signer), span)
}

impl KeyTag {
    /// The signature that this key gives: the tag's eight bytes, the highest first.
    pub fn sign(&self, signer: &[u8], span: &[u8]) -> [u8; 8]
        ensures { result ≡ in_bytes 8 (tag self.now.key (signer.now ++ span.now)) }
    {
        tag_over(self.key, signer, span).to_be_bytes()
    }
}

impl Verifier for KeyTag {
    ghost passing = { tag_passes };

    fn passes(&self, signer: &[u8], span: &[u8], signature: &[u8]) -> bool {
        same_bytes(&self.sign(signer, span), signature)
    }
}
