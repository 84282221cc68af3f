// A verifier that passes one stored signer, span and signature.
ghost use Rattle.verifier.specs.Pinned.{pinned_passes};

use crate::compare::{same_bytes, same_identity};
use crate::interface::Verifier;

/// Passes one stored signer, span and signature, and nothing else.
#[derive(Clone, Copy)]
pub struct Pinned<'a> {
    pub signer: &'a [u8],
    pub span: &'a [u8],
    pub signature: &'a [u8],
}

impl<'a> Verifier for Pinned<'a> {
    ghost passing = { pinned_passes };

    fn passes(&self, signer: &[u8], span: &[u8], signature: &[u8]) -> bool {
        same_identity(self.signer, signer)
            && same_bytes(self.span, span)
            && same_bytes(self.signature, signature)
    }
}
