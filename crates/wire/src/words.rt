// Refusals in words, for the people who read what programs print.
ghost use Rattle.std.specs.Prelude.{◌≡◌, Some};
ghost use Rattle.wire.specs.Texts.{refusal_words, slot_named, field_named, slot_text, field_text, place_text, detail_text, refusal_text};

use crate::field::Field;
use crate::refusal::Refusal;
use crate::slot::Slot;
use std::fmt;

fn words(refusal: &Refusal) -> &'static str
    ensures { result.now ≡ refusal_words refusal.now }
{
    match refusal {
        Refusal::FewRows => "fewer than 24 rows were lent",
        Refusal::TooLong => "the message is longer than 8192 bytes",
        Refusal::TooShort(_) => "the message is shorter than 10 bytes",
        Refusal::Version => "the version is not 1",
        Refusal::DataType => "the data type is not 26, a SAKKE message",
        Refusal::SessionMap(_) => "#CS does not go with the map type",
        Refusal::SessionCut(_) => "a session runs past the end",
        Refusal::SessionRule(_) =>
            "a session's Prot type is not 0, or the length of its data does not go with its S flag",
        Refusal::UnknownCode(_) => "a code names no known payload",
        Refusal::ExtraPayload(_) => "there is a 25th payload",
        Refusal::PayloadCut(_) => "a payload runs past the end",
        Refusal::PayloadRule(_) => "a payload breaks the rule inside it",
        Refusal::BytesLeft(_) => "bytes are left behind the last payload",
        Refusal::FieldNotTaken { .. } => "the profile does not take this value",
        Refusal::RankFalls { .. } => "a payload has a lower rank than the one before it",
        Refusal::AboveMost { .. } => "a payload stands more often than the profile allows",
        Refusal::BelowLeast { .. } => "a payload stands less often than the profile asks",
        Refusal::NotPassed(_) => "the verifier does not pass the signature",
        Refusal::NoHeader => "the draft has no header yet",
        Refusal::NoPosition => "the draft has no such position",
        Refusal::MapInfoLeft => "map info is left over behind its sessions",
        Refusal::DraftFull => "a 24th payload would leave no room for SIGN",
        Refusal::NoRoom => "the draft would run past the bytes that count",
        Refusal::SignForm => "S type is above 15, or the signature's length is not 1 to 4095",
        Refusal::SignatureLength => "the signature has another length than close was given",
        Refusal::RowOutside => "the row does not lie inside the message",
    }
}

// A number that no slot has is told as that of any other payload.
#[tactic(auto, using(crate::proofs::Named::slot_found))]
fn slot_or_other(number: u8) -> Slot
    ensures { result ≡ slot_named number }
{
    Slot::try_from(number).unwrap_or(Slot::Other)
}

// What a payload in a slot is.
#[derive(Clone, Copy)]
struct InSlot(u8);

impl fmt::Display for InSlot {
    ghost output = { λ slot. Some (slot_text slot.0) };

    fn fmt<W: fmt::Write>(&self, f: &mut fmt::Formatter<W>) -> fmt::Result {
        write!(f, ": {}", slot_or_other(self.0))
    }
}

// The field that a number stands for, if there is one.
#[tactic(auto, using(crate::proofs::Named::field_found))]
fn known_field(number: u8) -> Option<Field>
    ensures { result ≡ field_named number }
{
    Field::try_from(number).ok()
}

// Which field it is.
#[derive(Clone, Copy)]
struct InField(u8);

impl fmt::Display for InField {
    ghost output = { λ field. Some (field_text field.0) };

    fn fmt<W: fmt::Write>(&self, f: &mut fmt::Formatter<W>) -> fmt::Result {
        match known_field(self.0) {
            Some(field) => write!(f, ": {field}"),
            None => f.write_str(": an unknown field"),
        }
    }
}

// A place that is 0 is not told: it is the first byte, or none.
#[derive(Clone, Copy)]
struct AtByte(usize);

impl fmt::Display for AtByte {
    ghost output = { λ place. Some (place_text place.0) };

    fn fmt<W: fmt::Write>(&self, f: &mut fmt::Formatter<W>) -> fmt::Result {
        if self.0 == 0 {
            return Ok(());
        }
        write!(f, ", byte {}", self.0)
    }
}

// What is told after the sentence.
#[derive(Clone, Copy)]
struct Detail(Refusal);

impl fmt::Display for Detail {
    ghost output = { λ detail. Some (detail_text detail.0) };

    fn fmt<W: fmt::Write>(&self, f: &mut fmt::Formatter<W>) -> fmt::Result {
        match self.0 {
            Refusal::FieldNotTaken { byte, field } => {
                write!(f, "{}{}", InField(field), AtByte(byte))
            }
            Refusal::RankFalls { start, slot } | Refusal::AboveMost { start, slot } => {
                write!(f, "{}{}", InSlot(slot), AtByte(start))
            }
            Refusal::BelowLeast { slot, .. } => write!(f, "{}", InSlot(slot)),
            Refusal::TooLong | Refusal::TooShort(_) => Ok(()),
            refusal => write!(f, "{}", AtByte(refusal.report().place)),
        }
    }
}

impl std::error::Error for Refusal {}

impl fmt::Display for Refusal {
    ghost output = { λ refusal. Some (refusal_text refusal) };

    fn fmt<W: fmt::Write>(&self, f: &mut fmt::Formatter<W>) -> fmt::Result {
        write!(f, "{}{}", words(self), Detail(*self))
    }
}
