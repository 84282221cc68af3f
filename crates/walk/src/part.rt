// Rows of a message, and the bytes of a payload as a part of the caller's own message.
ghost use Rattle.std.specs.Prelude.{◌≡◌};
ghost use Rattle.std.specs.Option.{option_map};
ghost use Rattle.wire.specs.Rows.{first_in_slot};
ghost use Rattle.walk.specs.Parts.{LooksUp};

use wire::{Refusal, Row, Slot};

/// Some bytes of a message, and where they begin.
#[derive(Clone, Copy)]
pub struct Part<'a> {
    pub bytes: &'a [u8],
    pub place: usize,
}

/// The part of the message that a row marks off, or 26 where the row does not lie inside.
pub fn lookup<'a>(message: &'a [u8], row: &Row) -> Result<Part<'a>, Refusal>
    ensures { LooksUp message.now row.now result }
{
    let range = row.range();
    let place = range.start;
    let bytes = message.get(range).ok_or(Refusal::RowOutside)?;
    Ok(Part { bytes, place })
}

/// The first row of a payload in a slot.
pub fn first_in_slot<'a>(rows: &'a [Row], slot: Slot) -> Option<&'a Row>
    ensures { option_map (λ r. r.now) result ≡ first_in_slot slot rows.now }
{
    rows.iter().find(|row| row.slot == slot.number())
}
