// The signers on a trust list.
ghost use Rattle.std.specs.Prelude.{◌≡◌, []};
ghost use Rattle.verifier.specs.Signers.{is_on_list, Enters};

use crate::compare::same_identity;
use crate::few::Few;
use crate::refusal::TrustRefusal;
use std::marker::Model;

const LONGEST_SIGNER: usize = 128;

// Contracts see the list of signers.
#[derive(Drop)]
pub(crate) struct Signers {
    entries: Few<Few<u8, LONGEST_SIGNER>, 8>,
}

impl Model for Signers {
    ghost use Rattle.std.specs.Prelude.{ℕ, List, map};
    ghost use Rattle.verifier.specs.Items.{items_of};

    ghost Value = { List (List ℕ) };

    ghost view = { λ s. map items_of (items_of s.entries) };
}

impl Signers {
    pub(crate) fn none() -> Signers
        ensures { result ≡ [] }
    {
        Signers {
            entries: Few::none(Few::none(0)),
        }
    }

    // Whether a signer is on the list.
    pub(crate) fn contains(&self, signer: &[u8]) -> bool
        ensures { result ≡ is_on_list self.now signer.now }
    {
        let entries = self.entries.as_slice();
        entries
            .iter()
            .any(|entry| same_identity(entry.as_slice(), signer))
    }

    // One that is already there is accepted, full or not.
    pub(crate) fn enter(&mut self, signer: &[u8]) -> Result<(), TrustRefusal>
        ensures { Enters signer.now self.old self.new result }
    {
        if signer.is_empty() || signer.len() > LONGEST_SIGNER {
            return Err(TrustRefusal::SignerLength);
        }
        if self.contains(signer) {
            return Ok(());
        }
        if self.entries.is_full() {
            return Err(TrustRefusal::ListFull);
        }
        self.entries.push(Few::of(signer, 0));
        Ok(())
    }
}
