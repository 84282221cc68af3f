// Why a call across the boundary comes to nothing.
ghost use Rattle.std.specs.Prelude.{◌≡◌};
ghost use Rattle.boundary.specs.Outcomes.{fault_told};

use profile::SheetRefusal;
use verifier::TrustRefusal;
use wire::{Refusal, Report};

/// Why a call across the boundary comes to nothing: a refusal of the library, or a fault in what
/// crosses, with a number of 100 or more.
#[derive(Clone, Copy, PartialEq, Eq, Debug)]
pub enum Fault {
    /// A message or a draft is refused.
    Refused(Refusal),
    /// A text is no sheet.
    SheetRefused(SheetRefusal),
    /// A signer is not entered into the trust list.
    SignerRefused(TrustRefusal),
    /// 100: no fixed profile has the number.
    NoProfile,
    /// 101: an entry of a trust list runs past its end, by the byte where the entry starts.
    TrustCut(usize),
}

impl Fault {
    /// The fault's number, place and detail. A refusal has its own.
    pub fn report(self) -> Report
        ensures { result ≡ fault_told self }
    {
        match self {
            Fault::Refused(refusal) => refusal.report(),
            Fault::SheetRefused(refusal) => refusal.report(),
            Fault::SignerRefused(refusal) => refusal.report(),
            Fault::NoProfile => Report::new(100, 0, 0),
            Fault::TrustCut(place) => Report::new(101, place, 0),
        }
    }
}

impl From<Refusal> for Fault {
    ghost use Rattle.boundary.specs.declared.fault.Fault.TheVariants.{Refused};

    ghost from_gives = { λ refusal fault. fault ≡ Refused refusal };

    fn from(refusal: Refusal) -> Fault {
        Fault::Refused(refusal)
    }
}

impl From<SheetRefusal> for Fault {
    ghost use Rattle.boundary.specs.declared.fault.Fault.TheVariants.{SheetRefused};

    ghost from_gives = { λ refusal fault. fault ≡ SheetRefused refusal };

    fn from(refusal: SheetRefusal) -> Fault {
        Fault::SheetRefused(refusal)
    }
}
