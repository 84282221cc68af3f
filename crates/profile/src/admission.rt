// What a profile says of a message and its rows.
ghost use Rattle.std.specs.Prelude.{◌≡◌, ◌<◌, [], ◌∷◌, length, slice_index, IfOk};
ghost use Rattle.wire.specs.Numbered.{field_number};
ghost use Rattle.profile.specs.Fields.{field};
ghost use Rattle.profile.specs.Admits.{slot_numbers};
ghost use Rattle.profile.specs.Counts.{IsCountTable};
ghost use Rattle.profile.specs.Admitting.{fields_answer, header_fields_in, sakke_in, fields_in, slots_in, payload_answer, payloads_answer, least_answer, least_answers, admit_answer, AdmitsExactly};

use crate::counts::Counts;
use crate::interface::Profile;
use wire::{Field, Kind, Refusal, Row, Slot, byte_at};

// A message and the rows that mark off its payloads, under a profile.
#[derive(Drop)]
struct Admission<'a, P> {
    profile: &'a P,
    message: &'a [u8],
    rows: &'a [Row],
}

impl<P: Profile> Admission<'_, P> {
    fn check_field(&self, asked: Field, place: usize, value: u8) -> Result<(), Refusal>
        ensures { result ≡ fields_answer (P.tables self.now.profile.now)
            (field (field_number asked) place value ∷ []) }
    {
        let field = asked.number();
        if self.profile.takes(field, value) {
            Ok(())
        } else {
            Err(Refusal::FieldNotTaken { byte: place, field })
        }
    }

    // A field that is a whole byte.
    fn check_byte(&self, asked: Field, place: usize) -> Result<(), Refusal>
        ensures { result ≡ fields_answer (P.tables self.now.profile.now)
            (field (field_number asked) place (slice_index self.now.message.now place) ∷ []) }
    {
        self.check_field(asked, place, byte_at(self.message, place))
    }

    // V, PRF func, purpose and #CS.
    fn header(&self) -> Result<(), Refusal>
        ensures { result ≡ fields_answer (P.tables self.now.profile.now)
            (header_fields_in self.now.message.now) }
    {
        let flags = byte_at(self.message, 3);
        self.check_field(Field::Version, 3, flags / 128)?;
        self.check_field(Field::Prf, 3, flags % 128)?;
        self.check_field(Field::Purpose, 4, byte_at(self.message, 4) / 16)?;
        self.check_byte(Field::Sessions, 8)
    }

    // The fields of one payload.
    fn payload(&self, row: &Row) -> Result<(), Refusal>
        ensures { result ≡ fields_answer (P.tables self.now.profile.now)
            (fields_in self.now.message.now row.now) }
    {
        let start = row.start as usize;
        match Kind::of(row.code) {
            Some(Kind::Rand) => self.check_byte(Field::RandLength, start + 1),
            Some(Kind::Idr) => self.check_byte(Field::IdType, start + 2),
            Some(Kind::Sp) => self.check_byte(Field::Protocol, start + 2),
            Some(Kind::Sakke) => self.sakke(start + 1),
            Some(Kind::Ext) if row.slot == Slot::ExtSakke.number() => self.sakke(start + 5),
            Some(Kind::Sign) => self.check_field(
                Field::SignType,
                start,
                byte_at(self.message, start) / 16,
            ),
            _ => Ok(()),
        }
    }

    // SAKKE params, and ID scheme after it.
    fn sakke(&self, params: usize) -> Result<(), Refusal>
        requires { params < usize.MAX }
        ensures { result ≡ fields_answer (P.tables self.now.profile.now)
            (sakke_in self.now.message.now params) }
    {
        self.check_byte(Field::SakkeParams, params)?;
        self.check_byte(Field::IdScheme, params + 1)
    }

    // Fields, rank and most count of one payload after earlier ones, which are counted; answers
    // its rank.
    fn check_payload(
        &self,
        last: u8,
        earlier: &[Row],
        counts: &Counts,
        row: &Row,
    ) -> Result<u8, Refusal>
        requires { IsCountTable (slots_in earlier.now) counts.now.by_slot }
        ensures { result ≡ payload_answer (P.tables self.now.profile.now) self.now.message.now last
            earlier.now row.now }
    {
        self.payload(row)?;
        let start = row.start as usize;
        let slot = row.slot;
        let rank = self.profile.rank(slot);
        if rank < last {
            return Err(Refusal::RankFalls { start, slot });
        }
        if counts.reach(slot, self.profile.bounds(slot).most) {
            return Err(Refusal::AboveMost { start, slot });
        }
        Ok(rank)
    }

    // Each payload in turn. They are counted on the way.
    fn payloads(&self, counts: &mut Counts) -> Result<(), Refusal>
        requires { IsCountTable [] counts.old.by_slot }
        ensures answer { result
            ≡ payloads_answer (P.tables self.now.profile.now) self.now.message.now 0 []
            self.now.rows.now }
        ensures counted { IfOk result
            (λ _. IsCountTable (slots_in self.now.rows.now) counts.new.by_slot) }
    {
        let mut last = 0;
        for (i, row) in self.rows.iter().enumerate() {
            last = self.check_payload(last, &self.rows[..i], counts, row)?;
            counts.enter(row.slot);
        }
        Ok(())
    }

    // The least count of a slot.
    fn check_least(&self, slot: u8, counts: &Counts) -> Result<(), Refusal>
        requires { IsCountTable (slots_in self.now.rows.now) counts.now.by_slot }
        ensures { result ≡ least_answer (P.tables self.now.profile.now)
            (length self.now.message.now) self.now.rows.now slot }
    {
        if !counts.reach(slot, self.profile.bounds(slot).least) {
            return Err(Refusal::BelowLeast {
                length: self.message.len(),
                slot,
            });
        }
        Ok(())
    }

    fn least(&self, counts: &Counts) -> Result<(), Refusal>
        requires { IsCountTable (slots_in self.now.rows.now) counts.now.by_slot }
        ensures { result ≡ least_answers (P.tables self.now.profile.now)
            (length self.now.message.now) self.now.rows.now slot_numbers }
    {
        for slot in Slot::T.number()..=Slot::LAST.number() {
            self.check_least(slot, counts)?;
        }
        Ok(())
    }
}

/// Whether a profile admits a message, by its bytes and the rows that mark off its payloads.
pub fn admit<P: Profile>(profile: &P, message: &[u8], rows: &[Row]) -> Result<(), Refusal>
    ensures answer { result ≡ admit_answer (P.tables profile.now) message.now rows.now }
    // As it is told, and in the words of messages.
    ensures exactly { AdmitsExactly (P.tables profile.now) message.now rows.now result }
{
    let admission = Admission {
        profile,
        message,
        rows,
    };
    admission.header()?;
    let mut counts = Counts::none();
    admission.payloads(&mut counts)?;
    admission.least(&counts)
}
