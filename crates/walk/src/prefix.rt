// The message that bytes begin with: its header, and its payloads up to SIGN.
ghost use Rattle.std.specs.Prelude.{◌≡◌, ◌≤◌, length};
ghost use Rattle.wire.specs.Answers.{map_ok};
ghost use Rattle.wire.specs.Limits.{longest_message};
ghost use Rattle.wire.specs.Walking.{prefix_answer};
ghost use Rattle.walk.specs.Prefixes.{window, walked_prefix_of, TableHoldsMessage, WalksPrefix};

use crate::chain::chain;
use crate::header::header;
use wire::{LONGEST, MOST_PAYLOADS, Refusal, Row, Walked};

/// What is told of the message that bytes begin with, and how many of them it has.
#[derive(Clone, Copy, PartialEq, Eq, Debug)]
pub struct WalkedPrefix {
    pub walked: Walked,
    pub end: usize,
}

// In no more bytes than a message may have. What the table holds after a refusal says nothing.
pub(crate) fn prefix(
    window: &[u8],
    table: &mut [Row; MOST_PAYLOADS],
) -> Result<WalkedPrefix, Refusal>
    requires { length window.now ≤ longest_message }
    ensures answer { result ≡ map_ok walked_prefix_of (prefix_answer window.now) }
    ensures rows { TableHoldsMessage (prefix_answer window.now) table.old table.new }
{
    let header = header(window)?;
    let links = chain(window, header, table)?;
    Ok(WalkedPrefix {
        walked: Walked {
            count: links.count,
            header,
            span: links.sign + 2,
        },
        end: links.end,
    })
}

// The bytes that count.
fn window(bytes: &[u8]) -> &[u8]
    ensures is { result.now ≡ window bytes.now }
    ensures short { length result.now ≤ longest_message }
{
    if bytes.len() < LONGEST {
        return bytes;
    }
    &bytes[..LONGEST]
}

/// Tells the payloads of the message that bytes begin with, and where its SIGN ends. Any bytes may
/// follow; those past the longest message do not count.
///
/// The rows go into the table, whose rows after the last payload stay. Where there is no message,
/// what the table holds says nothing.
pub fn walk_prefix(bytes: &[u8], table: &mut [Row; MOST_PAYLOADS]) -> Result<WalkedPrefix, Refusal>
    ensures { WalksPrefix bytes.now table.old result table.new }
{
    prefix(window(bytes), table)
}
