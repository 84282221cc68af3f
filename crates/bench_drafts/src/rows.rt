// A call as C hands it: numbers in a row, and its bytes a part of those that are handed beside.
ghost use Rattle.std.specs.Prelude.{◌≡◌};
ghost use Rattle.profile.specs.Fixed.{fixed_tables};
ghost use Rattle.plain.specs.Steps.{call_step};
ghost use Rattle.bench_drafts.specs.Rows.{part_of, step_in};

use plain::{Call, Head};
use profile::Fixed;

/// A call. Its kind says which: 1 head, 2 add, 3 replace, 4 remove, 5 close, 6 sign, 7 withdraw,
/// and any other release. A kind that has no use for a number passes it by.
#[repr(C)]
#[derive(Clone, Copy)]
pub struct CallRow {
    /// Which call it is.
    pub kind: u8,
    /// Of a head.
    pub byte3: u8,
    /// Of a head.
    pub cs: u8,
    /// Of a head.
    pub map_type: u8,
    /// Of an add and a replace.
    pub code: u8,
    /// Of a close.
    pub sign_type: u8,
    /// Of a head.
    pub csb: u32,
    /// Of an add, a replace and a remove.
    pub position: usize,
    /// Where its bytes start in those that are handed beside.
    pub start: usize,
    /// How many they are; of a close, how long the signature will be.
    pub length: usize,
}

// A part of the bytes; none where it is not inside them.
fn part(bytes: &[u8], start: usize, length: usize) -> &[u8]
    ensures { result.now ≡ part_of bytes.now start length }
{
    if bytes.len() < start || bytes.len() - start < length {
        return &[];
    }
    &bytes[start..][..length]
}

pub(crate) fn call_of<'a>(row: &CallRow, bytes: &'a [u8], profile: &'a Fixed) -> Call<'a, Fixed>
    ensures { call_step fixed_tables result ≡ step_in bytes.now (fixed_tables profile.now) row.now }
{
    let own = part(bytes, row.start, row.length);
    match row.kind {
        1 => Call::Head(Head {
            byte3: row.byte3,
            csb: row.csb,
            cs: row.cs,
            map_type: row.map_type,
            map_info: own,
        }),
        2 => Call::Add {
            position: row.position,
            code: row.code,
            body: own,
        },
        3 => Call::Replace {
            position: row.position,
            code: row.code,
            body: own,
        },
        4 => Call::Remove {
            position: row.position,
        },
        5 => Call::Close {
            profile,
            sign_type: row.sign_type,
            length: row.length,
        },
        6 => Call::Sign(own),
        7 => Call::Withdraw,
        _ => Call::Release,
    }
}
