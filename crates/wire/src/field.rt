// The fields that a profile is asked about, by their numbers, written out as those of slots are.
ghost use Rattle.std.specs.Prelude.{◌≡◌, ◌≤◌, Some};
ghost use Rattle.wire.specs.Limits.{last_field};
ghost use Rattle.wire.specs.Numbered.{Names, field_number};
ghost use Rattle.wire.specs.Texts.{field_words};

use crate::number::UnknownNumber;
use std::fmt;

/// A field of a message that a profile is asked about, by its number.
#[derive(Clone, Copy, PartialEq, Eq, Debug)]
pub enum Field {
    Version = 1,
    Prf = 2,
    Purpose = 3,
    Sessions = 4,
    RandLength = 5,
    IdType = 6,
    Protocol = 7,
    SakkeParams = 8,
    IdScheme = 9,
    SignType = 10,
}

impl Field {
    /// All fields, in the order of their numbers.
    pub const ALL: [Field; 10] = [
        Field::Version,
        Field::Prf,
        Field::Purpose,
        Field::Sessions,
        Field::RandLength,
        Field::IdType,
        Field::Protocol,
        Field::SakkeParams,
        Field::IdScheme,
        Field::SignType,
    ];

    /// The field with the highest number.
    pub const LAST: Field = Field::SignType;

    /// Its number, from 1 on.
    pub const fn number(self) -> u8
        ensures is { result ≡ field_number self }
        ensures among { (1 ≤ result) × (result ≤ last_field) }
    {
        self as u8
    }
}

impl TryFrom<u8> for Field {
    type Error = UnknownNumber;

    ghost try_from_gives = { Names field_number };

    fn try_from(number: u8) -> Result<Field, UnknownNumber> {
        match number {
            1 => Ok(Field::Version),
            2 => Ok(Field::Prf),
            3 => Ok(Field::Purpose),
            4 => Ok(Field::Sessions),
            5 => Ok(Field::RandLength),
            6 => Ok(Field::IdType),
            7 => Ok(Field::Protocol),
            8 => Ok(Field::SakkeParams),
            9 => Ok(Field::IdScheme),
            10 => Ok(Field::SignType),
            _ => Err(UnknownNumber { number }),
        }
    }
}

impl fmt::Display for Field {
    ghost output = { λ field. Some (field_words field) };

    fn fmt<W: fmt::Write>(&self, f: &mut fmt::Formatter<W>) -> fmt::Result {
        f.write_str(match self {
            Field::Version => "V",
            Field::Prf => "PRF func",
            Field::Purpose => "the purpose",
            Field::Sessions => "#CS",
            Field::RandLength => "RAND len",
            Field::IdType => "ID type",
            Field::Protocol => "Prot type",
            Field::SakkeParams => "SAKKE params",
            Field::IdScheme => "ID scheme",
            Field::SignType => "S type",
        })
    }
}
