// What a message is read under, as it crosses: the number of a fixed profile or the text of a
// sheet, a key, and a trust list in bytes.
ghost use Rattle.std.specs.Prelude.{◌≡◌};
ghost use Rattle.profile.specs.Sheets.{entries_tables};
ghost use Rattle.boundary.specs.Outcomes.{mapped};
ghost use Rattle.boundary.specs.Trusted.{Entered};
ghost use Rattle.boundary.specs.Settings.{fixed_in, sheet_in};

use crate::fault::Fault;
use profile::{Fixed, Sheet};
use verifier::{KeyTag, TrustList};

// A fixed profile by its number.
pub(crate) fn fixed(number: u32) -> Result<Fixed, Fault>
    ensures { result ≡ fixed_in number }
{
    match number {
        1 => Ok(Fixed::Csk),
        2 => Ok(Fixed::Pck),
        3 => Ok(Fixed::Gmk),
        _ => Err(Fault::NoProfile),
    }
}

pub(crate) fn sheet(text: &[u8]) -> Result<Sheet, Fault>
    ensures { mapped entries_tables result ≡ sheet_in text.now }
{
    Ok(Sheet::parse(text)?)
}

// Enters the signers of a trust list, which stand one after the other: each a length byte, and
// that many bytes; up to one that is refused or cut. The list is the caller's own: handed back, its
// thousand bytes would be moved.
pub(crate) fn enter_all(list: &mut TrustList<KeyTag>, bytes: &[u8]) -> Result<(), Fault>
    ensures entered { Entered bytes.now list.old.signers result list.new.signers }
    ensures below { list.new.below ≡ list.old.below }
{
    let mut rest = bytes;
    while let [size, behind @ ..] = rest {
        let size = *size as usize;
        if behind.len() < size {
            return Err(Fault::TrustCut(bytes.len() - rest.len()));
        }
        let (signer, others) = behind.split_at(size);
        if let Err(refusal) = list.enter(signer) {
            return Err(Fault::SignerRefused(refusal));
        }
        rest = others;
    }
    Ok(())
}
