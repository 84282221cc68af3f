// Why a signer is not entered into a trust list.
ghost use Rattle.std.specs.Prelude.{◌≡◌, Some};
ghost use Rattle.verifier.specs.TrustRefusals.{trust_report_of, trust_words};

use std::fmt;
use wire::Report;

/// Why a signer is not entered into a trust list. None has a place or a detail.
#[derive(Clone, Copy, PartialEq, Eq, Debug)]
pub enum TrustRefusal {
    /// 27: the signer does not have 1 to 128 bytes.
    SignerLength,
    /// 28: the signer is not on the list, and eight others are.
    ListFull,
}

impl TrustRefusal {
    /// The refusal's number, place and detail.
    pub fn report(self) -> Report
        ensures is { result ≡ trust_report_of self }
        // Two refusals with the same number, place and detail are one.
        ensures apart { (other : TrustRefusal) → trust_report_of other ≡ result → other ≡ self }
    {
        match self {
            TrustRefusal::SignerLength => Report::new(27, 0, 0),
            TrustRefusal::ListFull => Report::new(28, 0, 0),
        }
    }
}

impl From<TrustRefusal> for Report {
    ghost from_gives = { λ refusal t. t ≡ trust_report_of refusal };

    fn from(refusal: TrustRefusal) -> Report {
        refusal.report()
    }
}

/// In words, for the people who read what programs print.
impl fmt::Display for TrustRefusal {
    ghost output = { λ refusal. Some (trust_words refusal) };

    fn fmt<W: fmt::Write>(&self, f: &mut fmt::Formatter<W>) -> fmt::Result {
        match self {
            TrustRefusal::SignerLength => f.write_str("a signer has 1 to 128 bytes"),
            TrustRefusal::ListFull => f.write_str("the trust list is full"),
        }
    }
}

impl std::error::Error for TrustRefusal {}
