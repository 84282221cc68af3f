// A verifier that passes what the one below passes, of signers on a list.
ghost use Rattle.std.specs.Prelude.{◌≡◌, []};
ghost use Rattle.verifier.specs.Signers.{Enters};
ghost use Rattle.verifier.specs.TrustLists.{trust_passes};

use crate::interface::Verifier;
use crate::refusal::TrustRefusal;
use crate::signers::Signers;
use std::marker::Model;

/// A verifier that passes what the one below it passes, in the name of signers on a list of at most
/// eight.
///
/// Contracts see it as the verifier below and the list of signers, in the order of their entry.
#[derive(Drop)]
pub struct TrustList<V> {
    inner: V,
    signers: Signers,
}

impl<V> Model for TrustList<V> {
    ghost use Rattle.verifier.specs.TrustLists.{Trust};

    ghost Value = { Trust V };

    ghost view = { λ t. record { below = t.inner; signers = t.signers } };
}

impl<V> TrustList<V> {
    /// An empty list over a verifier.
    pub fn new(inner: V) -> TrustList<V>
        ensures { result ≡ record { below = inner; signers = [] } }
    {
        TrustList {
            inner,
            signers: Signers::none(),
        }
    }

    /// Enters a signer, by the bytes of its ID data. One already there is accepted without change.
    ///
    /// Refuses one that does not have 1 to 128 bytes (27), and a ninth (28); the list stays as it
    /// was then.
    pub fn enter(&mut self, signer: &[u8]) -> Result<(), TrustRefusal>
        ensures list { Enters signer.now self.old.signers self.new.signers result }
        ensures below { self.new.below ≡ self.old.below }
    {
        self.signers.enter(signer)
    }
}

impl<V: Verifier> Verifier for TrustList<V> {
    ghost passing = { λ t s. trust_passes (V.Verifier.passing t.below) t.signers s };

    fn passes(&self, signer: &[u8], span: &[u8], signature: &[u8]) -> bool {
        self.signers.contains(signer) && self.inner.passes(signer, span, signature)
    }
}
