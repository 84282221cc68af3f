// Refusals: a variant for each, with the values that vary in it. Fields and slots are told by
// number, since a profile is asked for every number from 0 to 255.
ghost use Rattle.std.specs.Prelude.{◌≡◌, Some};
ghost use Rattle.wire.specs.declared.refusal.Refusal.{Refusal};
ghost use Rattle.wire.specs.Refusals.{report, report_of};
ghost use Rattle.wire.specs.Texts.{report_text};

use crate::limits::LONGEST;
use std::fmt;

/// Why a message, a draft or a part of either is refused.
///
/// Sheets and trust lists have enums of their own, in `profile` and `verifier`; each is told as
/// [`Report`], and no two refusals of the three have one number. A byte is counted from the
/// message's start, or from that of what is offered to a draft.
#[derive(Clone, Copy, PartialEq, Eq, Debug)]
pub enum Refusal {
    /// 1: fewer than 24 rows were lent.
    FewRows,
    /// 2: the message is longer than 8192 bytes, which is its place.
    TooLong,
    /// 3: the message is shorter than 10 bytes, by its length.
    TooShort(usize),
    /// 4: the version is not 1.
    Version,
    /// 5: the data type, at byte 1, is not 26.
    DataType,
    /// 6: #CS, at this byte, does not go with the map type.
    SessionMap(usize),
    /// 7: a session runs past the end, by its start.
    SessionCut(usize),
    /// 8: a session's Prot type is not 0, or its data has no lawful length, by its start.
    SessionRule(usize),
    /// 9: a code names no known payload, by the byte that has it.
    UnknownCode(usize),
    /// 10: there is a 25th payload, by its start.
    ExtraPayload(usize),
    /// 11: a payload runs past the end, by its start.
    PayloadCut(usize),
    /// 12: a payload breaks the rule inside it, by its start.
    PayloadRule(usize),
    /// 13: bytes are left after the last payload, by the first of them.
    BytesLeft(usize),
    /// 14: the profile does not take a field's value; the field is its detail.
    FieldNotTaken { byte: usize, field: u8 },
    /// 15: a payload's rank is below that of the one before; its slot is its detail.
    RankFalls { start: usize, slot: u8 },
    /// 16: a payload's slot stands more often than the profile allows; the slot is its detail.
    AboveMost { start: usize, slot: u8 },
    /// 17: a slot stands less often than the profile asks, by the message's length; the slot is
    /// its detail.
    BelowLeast { length: usize, slot: u8 },
    /// 18: the verifier does not pass the signature, by the byte where it starts.
    NotPassed(usize),
    /// 19: the draft has no header yet.
    NoHeader,
    /// 20: the draft has no such position.
    NoPosition,
    /// 21: map info is left after its sessions.
    MapInfoLeft,
    /// 22: a 24th payload would leave no room for SIGN.
    DraftFull,
    /// 23: the draft would run past the bytes that count.
    NoRoom,
    /// 24: S type is above 15, or the signature's length is not 1 to 4095.
    SignForm,
    /// 25: the signature does not have the length that close was given.
    SignatureLength,
    /// 26: a row does not lie inside the message.
    RowOutside,
}

/// A refusal as programs and C are told it.
///
/// Its number says which it is, its place is a byte or 0, and its detail a field's or a slot's
/// number or 0.
#[derive(Clone, Copy, PartialEq, Eq, Debug)]
pub struct Report {
    pub number: u8,
    pub place: usize,
    pub detail: u8,
}

impl Report {
    /// A refusal with this number, place and detail.
    pub const fn new(number: u8, place: usize, detail: u8) -> Report
        ensures { result ≡ report number place detail }
    {
        Report {
            number,
            place,
            detail,
        }
    }
}

impl Refusal {
    /// The refusal's number, place and detail.
    pub fn report(self) -> Report
        ensures is { result ≡ report_of self }
        // Two refusals with the same number, place and detail are one.
        ensures apart { (other : Refusal) → report_of other ≡ result → other ≡ self }
    {
        match self {
            Refusal::FewRows => Report::new(1, 0, 0),
            Refusal::TooLong => Report::new(2, LONGEST, 0),
            Refusal::TooShort(length) => Report::new(3, length, 0),
            Refusal::Version => Report::new(4, 0, 0),
            Refusal::DataType => Report::new(5, 1, 0),
            Refusal::SessionMap(place) => Report::new(6, place, 0),
            Refusal::SessionCut(place) => Report::new(7, place, 0),
            Refusal::SessionRule(place) => Report::new(8, place, 0),
            Refusal::UnknownCode(place) => Report::new(9, place, 0),
            Refusal::ExtraPayload(place) => Report::new(10, place, 0),
            Refusal::PayloadCut(place) => Report::new(11, place, 0),
            Refusal::PayloadRule(place) => Report::new(12, place, 0),
            Refusal::BytesLeft(place) => Report::new(13, place, 0),
            Refusal::FieldNotTaken { byte, field } => Report::new(14, byte, field),
            Refusal::RankFalls { start, slot } => Report::new(15, start, slot),
            Refusal::AboveMost { start, slot } => Report::new(16, start, slot),
            Refusal::BelowLeast { length, slot } => Report::new(17, length, slot),
            Refusal::NotPassed(place) => Report::new(18, place, 0),
            Refusal::NoHeader => Report::new(19, 0, 0),
            Refusal::NoPosition => Report::new(20, 0, 0),
            Refusal::MapInfoLeft => Report::new(21, 0, 0),
            Refusal::DraftFull => Report::new(22, 0, 0),
            Refusal::NoRoom => Report::new(23, 0, 0),
            Refusal::SignForm => Report::new(24, 0, 0),
            Refusal::SignatureLength => Report::new(25, 0, 0),
            Refusal::RowOutside => Report::new(26, 0, 0),
        }
    }
}

impl From<Refusal> for Report {
    ghost from_gives = { λ refusal t. t ≡ report_of refusal };

    fn from(refusal: Refusal) -> Report {
        refusal.report()
    }
}

// As programs print it.
impl fmt::Display for Report {
    ghost output = { λ report_of. Some (report_text report_of) };

    fn fmt<W: fmt::Write>(&self, f: &mut fmt::Formatter<W>) -> fmt::Result {
        write!(f, "{} {} {}", self.number, self.place, self.detail)
    }
}
