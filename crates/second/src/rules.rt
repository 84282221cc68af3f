// Profiles: which values the fields take, and how often and in which rank each slot may stand.
use crate::sheet::Sheet;
use crate::slots;

/// A field that a profile judges, with its number.
#[derive(Clone, Copy, Debug, PartialEq, Eq)]
pub enum Field {
    Verify = 1,
    PrfFunc = 2,
    Purpose = 3,
    SessionCount = 4,
    RandLength = 5,
    IdType = 6,
    ProtType = 7,
    SakkeParams = 8,
    IdScheme = 9,
    SignType = 10,
}

/// A profile.
#[derive(Clone, Copy, Debug)]
pub enum Rules {
    Csk,
    Pck,
    Gmk,
    Sheet(Sheet),
}

/// How often a slot may stand, and its rank.
#[derive(Clone, Copy, Debug, PartialEq, Eq)]
pub struct Limits {
    pub least: u8,
    pub most: u8,
    pub rank: u8,
}

impl Limits {
    /// A slot that may not stand.
    pub const NEVER: Limits = Limits {
        least: 0,
        most: 0,
        rank: 0,
    };
}

impl Rules {
    /// Whether the field takes the value.
    pub fn takes(&self, field: Field, value: u8) -> bool {
        match field {
            Field::Verify | Field::ProtType => value == 0,
            Field::PrfFunc | Field::IdType | Field::SakkeParams => value == 1,
            Field::IdScheme | Field::SignType => value == 2,
            Field::RandLength => value >= 16,
            Field::Purpose => self.takes_purpose(value),
            Field::SessionCount => value <= self.most_sessions(),
        }
    }

    fn takes_purpose(&self, purpose: u8) -> bool {
        match self {
            Rules::Csk => purpose == 2,
            Rules::Pck => purpose == 1,
            Rules::Gmk => purpose == 0,
            Rules::Sheet(_) => purpose <= 15,
        }
    }

    fn most_sessions(&self) -> u8 {
        match self {
            Rules::Csk | Rules::Pck => 1,
            Rules::Gmk | Rules::Sheet(_) => 4,
        }
    }

    /// The limits of a slot.
    pub fn limits(&self, slot: u8) -> Limits {
        match self {
            Rules::Csk | Rules::Pck => fixed_limits(slot, 0),
            Rules::Gmk => fixed_limits(slot, 1),
            Rules::Sheet(sheet) => sheet.limits(slot),
        }
    }
}

/// The limits under a fixed profile, which differ only in how often EXT of type 7 stands at least.
fn fixed_limits(slot: u8, least_key_data: u8) -> Limits {
    let (least, most) = match slot {
        1..=6 | slots::SAKKE | slots::SIGN => (1, 1),
        7 | slots::INNER_SAKKE => (0, 1),
        10 => (least_key_data, 1),
        _ => (0, 0),
    };
    Limits {
        least,
        most,
        rank: 0,
    }
}
