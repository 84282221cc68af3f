// The trust list: which signers are believed.
use crate::fault::{Failed, Fault};
use std::alloc::Global;

/// How many signers a list holds.
const PLACES: usize = 8;

/// The longest signer that can be entered.
const MOST_SIGNER: usize = 128;

/// The signers that were entered.
#[derive(Drop)]
pub struct TrustList {
    alloc: Global,
    signers: Vec<Vec<u8>>,
}

impl TrustList {
    /// A list with no signer.
    pub fn new(alloc: Global) -> TrustList {
        TrustList {
            alloc,
            signers: Vec::new(alloc),
        }
    }

    /// Whether a signer of these bytes was entered.
    pub fn lists(&self, signer: &[u8]) -> bool {
        self.signers
            .iter()
            .any(|entered| entered.as_slice() == signer)
    }

    /// Enters a signer: refusals 27 and 28.
    pub fn enter(&mut self, signer: &[u8]) -> Result<(), Failed> {
        if signer.is_empty() || signer.len() > MOST_SIGNER {
            return Err(Failed::Refused(Fault::of(27)));
        }
        if self.lists(signer) {
            return Ok(());
        }
        if self.signers.len() >= PLACES {
            return Err(Failed::Refused(Fault::of(28)));
        }
        self.signers.push(Vec::from_slice(self.alloc, signer)?)?;
        Ok(())
    }
}
