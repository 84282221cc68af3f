// A whole message: one that bytes begin with, and nothing after it.
ghost use Rattle.walk.specs.Tables.{WalksTable};

use crate::prefix::prefix;
use wire::{LONGEST, MOST_PAYLOADS, Refusal, Row, Walked};

/// Tells the payloads of a message, as walk does, for a caller who has a table of its own.
///
/// Its rows after the last payload stay. Where the message is refused, what the table holds says
/// nothing.
pub fn walk_table(message: &[u8], table: &mut [Row; MOST_PAYLOADS]) -> Result<Walked, Refusal>
    ensures { WalksTable message.now table.old result table.new }
{
    if message.len() > LONGEST {
        return Err(Refusal::TooLong);
    }
    let found = prefix(message, table)?;
    if found.end < message.len() {
        return Err(Refusal::BytesLeft(found.end));
    }
    Ok(found.walked)
}
