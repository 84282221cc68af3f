// Walks a message across the boundary.
ghost use Rattle.std.specs.Prelude.{◌≡◌, replicate};
ghost use Rattle.wire.specs.Rows.{blank_row};
ghost use Rattle.walk.specs.Walks.{Walks};
ghost use Rattle.boundary.specs.Hands.{numbers};
ghost use Rattle.boundary.specs.Says.{Tabled, Says};

use crate::fault::Fault;
use crate::rows::{TABLE_BYTES, hand_out};
use walk::walk;
use wire::{MOST_PAYLOADS, Refusal, Row, Walked};

// Walks into a table, for a caller who lends so many bytes for rows.
fn walk_table(
    message: &[u8],
    room: usize,
    table: &mut [Row; MOST_PAYLOADS],
) -> Result<Walked, Fault>
    requires { table.old ≡ replicate 24 blank_row }
    ensures { Tabled (Walks message.now) room result table.new }
{
    if room < TABLE_BYTES {
        return Err(Fault::Refused(Refusal::FewRows));
    }
    Ok(walk(message, table)?)
}

/// Tells the payloads of a message in the first 144 bytes of `rows`, six for each, and three
/// numbers; or why it is refused, in two others. Returns 0, or the number of the refusal.
pub fn walk_bytes(
    message: &[u8],
    rows: &mut [u8],
    count: &mut u32,
    header: &mut u32,
    span: &mut u32,
    place: &mut u32,
    detail: &mut u32,
) -> u32
    ensures { Says (Walks message.now) rows.old rows.new
        (numbers count.old header.old span.old place.old detail.old)
        (numbers count.new header.new span.new place.new detail.new) result }
{
    let mut table = [Row::BLANK; MOST_PAYLOADS];
    let outcome = walk_table(message, rows.len(), &mut table);
    hand_out(outcome, &table, rows, count, header, span, place, detail)
}
