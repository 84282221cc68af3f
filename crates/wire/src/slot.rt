// The slots of payloads, by their numbers. Number and conversion are written out for kinds, slots
// and fields alike: no derive makes them.
ghost use Rattle.std.specs.Prelude.{◌≡◌, ◌≤◌, Some};
ghost use Rattle.wire.specs.Limits.{last_slot};
ghost use Rattle.wire.specs.Numbered.{Names, slot_number};
ghost use Rattle.wire.specs.Texts.{slot_words};

use crate::number::UnknownNumber;
use std::fmt;

/// By the kind, the role of an IDR and the type of an EXT. Any other role or type is in the last.
#[derive(Clone, Copy, PartialEq, Eq, Debug)]
pub enum Slot {
    T = 1,
    Rand = 2,
    Idri = 3,
    Idrr = 4,
    Idrkmsi = 5,
    Idrkmsr = 6,
    Sp = 7,
    Sakke = 8,
    ExtSakke = 9,
    ExtParams = 10,
    Sign = 11,
    Other = 12,
}

impl Slot {
    /// All slots, in the order of their numbers.
    pub const ALL: [Slot; 12] = [
        Slot::T,
        Slot::Rand,
        Slot::Idri,
        Slot::Idrr,
        Slot::Idrkmsi,
        Slot::Idrkmsr,
        Slot::Sp,
        Slot::Sakke,
        Slot::ExtSakke,
        Slot::ExtParams,
        Slot::Sign,
        Slot::Other,
    ];

    /// The slot with the highest number.
    pub const LAST: Slot = Slot::Other;

    /// The slot of the payload that names the signer.
    pub const SIGNER: Slot = Slot::Idri;

    /// Its number, from 1 on.
    pub const fn number(self) -> u8
        ensures is { result ≡ slot_number self }
        ensures among { (1 ≤ result) × (result ≤ last_slot) }
    {
        self as u8
    }
}

impl TryFrom<u8> for Slot {
    type Error = UnknownNumber;

    ghost try_from_gives = { Names slot_number };

    fn try_from(number: u8) -> Result<Slot, UnknownNumber> {
        match number {
            1 => Ok(Slot::T),
            2 => Ok(Slot::Rand),
            3 => Ok(Slot::Idri),
            4 => Ok(Slot::Idrr),
            5 => Ok(Slot::Idrkmsi),
            6 => Ok(Slot::Idrkmsr),
            7 => Ok(Slot::Sp),
            8 => Ok(Slot::Sakke),
            9 => Ok(Slot::ExtSakke),
            10 => Ok(Slot::ExtParams),
            11 => Ok(Slot::Sign),
            12 => Ok(Slot::Other),
            _ => Err(UnknownNumber { number }),
        }
    }
}

impl fmt::Display for Slot {
    ghost output = { λ slot. Some (slot_words slot) };

    fn fmt<W: fmt::Write>(&self, f: &mut fmt::Formatter<W>) -> fmt::Result {
        f.write_str(match self {
            Slot::T => "T",
            Slot::Rand => "RAND",
            Slot::Idri => "IDR of role 1",
            Slot::Idrr => "IDR of role 2",
            Slot::Idrkmsi => "IDR of role 6",
            Slot::Idrkmsr => "IDR of role 7",
            Slot::Sp => "SP",
            Slot::Sakke => "SAKKE",
            Slot::ExtSakke => "EXT of type 6",
            Slot::ExtParams => "EXT of type 7",
            Slot::Sign => "SIGN",
            Slot::Other => "another IDR or EXT",
        })
    }
}
