// The three fixed profiles: client-server key, private call key, group key.
ghost use Rattle.std.specs.Prelude.{Some};
ghost use Rattle.profile.specs.Fixed.{fixed_tables};
ghost use Rattle.profile.specs.Names.{Named, unknown_text};

use crate::interface::{Bounds, Profile};
use crate::table::entry_or;
use crate::values::fixed_values;
use std::fmt;
use std::str::FromStr;

/// A fixed profile: that of client-server keys, of private call keys, or of group keys
/// (3GPP TS 33.180, annex E).
#[derive(Clone, Copy, PartialEq, Eq, Debug)]
pub enum Fixed {
    Csk,
    Pck,
    Gmk,
}

/// A name that no fixed profile has.
#[derive(Clone, Copy, PartialEq, Eq, Debug)]
pub struct UnknownProfile;

impl fmt::Display for UnknownProfile {
    ghost output = { λ _. Some unknown_text };

    fn fmt<W: fmt::Write>(&self, f: &mut fmt::Formatter<W>) -> fmt::Result {
        f.write_str("no fixed profile has this name")
    }
}

impl std::error::Error for UnknownProfile {}

// By the name that a station gives.
impl FromStr for Fixed {
    type Err = UnknownProfile;

    ghost from_str_gives = { Named };

    fn from_str(name: &str) -> Result<Fixed, UnknownProfile> {
        match name {
            "csk" => Ok(Fixed::Csk),
            "pck" => Ok(Fixed::Pck),
            "gmk" => Ok(Fixed::Gmk),
            _ => Err(UnknownProfile),
        }
    }
}

// A slot that is not there never stands.
pub(crate) const NEVER: Bounds = Bounds { least: 0, most: 0 };

const OPTIONAL: Bounds = Bounds { least: 0, most: 1 };

const ONCE: Bounds = Bounds { least: 1, most: 1 };

// Slots 0 to 12 (there is no slot 0): T, RAND, IDR of the four roles, SP, SAKKE, EXT of types 6 and
// 7, SIGN, other. A table for each profile, as in the standard's own, though those of CSK and PCK
// are alike.
const CSK: [Bounds; 13] = [
    NEVER, ONCE, ONCE, ONCE, ONCE, ONCE, ONCE, OPTIONAL, ONCE, OPTIONAL, OPTIONAL, ONCE, NEVER,
];

const PCK: [Bounds; 13] = [
    NEVER, ONCE, ONCE, ONCE, ONCE, ONCE, ONCE, OPTIONAL, ONCE, OPTIONAL, OPTIONAL, ONCE, NEVER,
];

const GMK: [Bounds; 13] = [
    NEVER, ONCE, ONCE, ONCE, ONCE, ONCE, ONCE, OPTIONAL, ONCE, OPTIONAL, ONCE, ONCE, NEVER,
];

// The rank of every slot, so that payloads may stand in any order.
const ANY_ORDER: u8 = 0;

impl Profile for Fixed {
    ghost tables = { fixed_tables };

    fn takes(&self, field: u8, value: u8) -> bool {
        fixed_values(*self, field).hold(value)
    }

    fn bounds(&self, slot: u8) -> Bounds {
        let slots = match self {
            Fixed::Csk => &CSK,
            Fixed::Pck => &PCK,
            Fixed::Gmk => &GMK,
        };
        entry_or(slots, slot, NEVER)
    }

    fn rank(&self, _slot: u8) -> u8 {
        ANY_ORDER
    }
}
