// The values that are taken in each field: a row for each profile and field.
ghost use Rattle.std.specs.Prelude.{◌≡◌};
ghost use Rattle.profile.specs.Values.{fixed_values, sheet_values, values_in, holds};

use crate::fixed::Fixed;
use crate::table::entry_or;

// The values from `low` to `high`.
#[derive(Clone, Copy)]
pub(crate) struct Values {
    low: u8,
    high: u8,
}

impl Values {
    pub(crate) fn hold(self, value: u8) -> bool
        ensures { result ≡ holds self value }
    {
        (self.low..=self.high).contains(&value)
    }
}

// A field that is not there takes nothing.
const NONE: Values = Values { low: 1, high: 0 };

const ONLY_0: Values = Values { low: 0, high: 0 };

const ONLY_1: Values = Values { low: 1, high: 1 };

const ONLY_2: Values = Values { low: 2, high: 2 };

const UP_TO_1: Values = Values { low: 0, high: 1 };

const UP_TO_4: Values = Values { low: 0, high: 4 };

const UP_TO_15: Values = Values { low: 0, high: 15 };

const FROM_16: Values = Values { low: 16, high: 255 };

// Fields 0 to 10 (there is no field 0): V, PRF func, purpose, #CS, RAND len, ID type, Prot type of
// SP, SAKKE params, ID scheme, S type. A table for each profile, as in the standard's own, and one
// for sheets.
const CSK: [Values; 11] = [
    NONE, ONLY_0, ONLY_1, ONLY_2, UP_TO_1, FROM_16, ONLY_1, ONLY_0, ONLY_1, ONLY_2, ONLY_2,
];

const PCK: [Values; 11] = [
    NONE, ONLY_0, ONLY_1, ONLY_1, UP_TO_1, FROM_16, ONLY_1, ONLY_0, ONLY_1, ONLY_2, ONLY_2,
];

const GMK: [Values; 11] = [
    NONE, ONLY_0, ONLY_1, ONLY_0, UP_TO_4, FROM_16, ONLY_1, ONLY_0, ONLY_1, ONLY_2, ONLY_2,
];

const SHEET: [Values; 11] = [
    NONE, ONLY_0, ONLY_1, UP_TO_15, UP_TO_4, FROM_16, ONLY_1, ONLY_0, ONLY_1, ONLY_2, ONLY_2,
];

pub(crate) fn fixed_values(profile: Fixed, field: u8) -> Values
    ensures { result ≡ values_in (fixed_values profile) field }
{
    let fields = match profile {
        Fixed::Csk => &CSK,
        Fixed::Pck => &PCK,
        Fixed::Gmk => &GMK,
    };
    entry_or(fields, field, NONE)
}

pub(crate) fn sheet_values(field: u8) -> Values
    ensures { result ≡ values_in sheet_values field }
{
    entry_or(&SHEET, field, NONE)
}
