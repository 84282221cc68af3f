// Walks a message and tells its payloads, hands out their bytes, and reads a time stamp.
#![tactic(auto)]

mod chain;
mod clock;
mod header;
mod part;
mod prefix;
mod table;

ghost use Rattle.walk.specs.Walks.{Walks};

pub use clock::time;
pub use part::{Part, first_in_slot, lookup};
pub use prefix::{WalkedPrefix, walk_prefix};
pub use table::walk_table;
use wire::{MOST_PAYLOADS, Refusal, Row, Walked};

/// Tells the payloads of a message in the first 24 rows, blank after the last, and three numbers.
/// Where it refuses, the rows are as they were.
pub fn walk(message: &[u8], rows: &mut [Row]) -> Result<Walked, Refusal>
    ensures { Walks message.now rows.old result rows.new }
{
    if rows.len() < MOST_PAYLOADS {
        return Err(Refusal::FewRows);
    }
    let mut table = [Row::BLANK; MOST_PAYLOADS];
    let walked = walk_table(message, &mut table)?;
    rows[..MOST_PAYLOADS].copy_from_slice(&table);
    Ok(walked)
}
