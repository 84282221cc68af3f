// The kinds of payload, and the code that names each.
ghost use Rattle.std.specs.Prelude.{◌≡◌};
ghost use Rattle.wire.specs.Kinds.{code_of, kind_of};
ghost use Rattle.wire.specs.Numbered.{Names};

use crate::number::UnknownNumber;

/// A kind of payload, by its code (RFC 3830, 6.1; RFC 6043 for IDR; RFC 6509 for SAKKE).
#[derive(Clone, Copy, PartialEq, Eq, Debug)]
pub enum Kind {
    T = 5,
    Rand = 11,
    Idr = 14,
    Sp = 10,
    Sakke = 26,
    Ext = 21,
    Sign = 4,
}

impl Kind {
    /// The kind that a code names; none for an unknown code, 0 among them.
    pub fn of(code: u8) -> Option<Kind>
        ensures { result ≡ kind_of code }
    {
        match code {
            4 => Some(Kind::Sign),
            5 => Some(Kind::T),
            10 => Some(Kind::Sp),
            11 => Some(Kind::Rand),
            14 => Some(Kind::Idr),
            21 => Some(Kind::Ext),
            26 => Some(Kind::Sakke),
            _ => None,
        }
    }

    /// The code that names it.
    pub const fn code(self) -> u8
        ensures { result ≡ code_of self }
    {
        self as u8
    }
}

impl TryFrom<u8> for Kind {
    type Error = UnknownNumber;

    ghost try_from_gives = { Names code_of };

    fn try_from(code: u8) -> Result<Kind, UnknownNumber> {
        Kind::of(code).ok_or(UnknownNumber { number: code })
    }
}
