// The sessions of a header's map.
ghost use Rattle.std.specs.Prelude.{◌≡◌, ◌+◌, ◌<◌, ◌≤◌, length, drop, max, IfOk};
ghost use Rattle.wire.specs.Answers.{map_ok, outcome_of};
ghost use Rattle.wire.specs.Layouts.{Sessions};
ghost use Rattle.wire.specs.Extents.{policy_count, session_flag, data_length, session_extent, session_inside, session_at};
ghost use Rattle.wire.specs.Walking.{map_fits, sessions_answer};
ghost use Rattle.layout.specs.Measures.{Measures};

use crate::bodies::{be16_at, length_at};
use crate::marked::{Layout, part_length};
use wire::{Refusal, byte_at, bytes_from};

/// Whether #CS goes with the map type: no session in an empty map, one to four in a generic one.
pub fn map_fits(cs: u8, map_type: u8) -> bool
    ensures { result ≡ map_fits cs map_type }
{
    matches!((map_type, cs), (1, 0) | (2, 1..=4))
}

pub(crate) fn policy_count(session: &[u8]) -> usize
    ensures is { result ≡ policy_count session.now }
    ensures small { result < 128 }
{
    length_at(session, 2) % 128
}

fn session_flag(session: &[u8]) -> u8
    ensures { result ≡ session_flag session.now }
{
    byte_at(session, 2) / 128
}

fn data_length(session: &[u8]) -> usize
    ensures is { result ≡ data_length session.now }
    ensures small { result < 65536 }
{
    be16_at(session, 3 + policy_count(session))
}

struct Session;

impl Layout for Session {
    ghost extent_of = { λ _ bs. session_extent bs };

    ghost rule = { λ _ s. session_inside s };

    fn extent(&self, rest: &[u8]) -> usize {
        let before = 5 + policy_count(rest) + data_length(rest);
        before + 1 + length_at(rest, before)
    }

    // Its protocol, and session data that goes with the S flag.
    fn inside(&self, session: &[u8]) -> bool {
        let length = data_length(session);
        let full = if session_flag(session) == 0 { 4 } else { 10 };
        length_at(session, 1) == 0 && (length == 0 || length == full)
    }
}

// The length of the session that begins at a place.
pub(crate) fn session_length(at: usize, bytes: &[u8]) -> Result<usize, Refusal>
    ensures answer { result ≡ map_ok length (session_at at (drop at bytes.now)) }
    ensures least { IfOk result (λ n. 6 ≤ n) }
    ensures within { IfOk result (λ n. at + n ≤ max at (length bytes.now)) }
{
    part_length(
        &Session,
        bytes_from(bytes, at),
        Refusal::SessionCut(at),
        Refusal::SessionRule(at),
    )
}

/// Where so many sessions end, of which the first begins at `from`.
pub fn sessions_end(count: u8, from: usize, bytes: &[u8]) -> Result<usize, Refusal>
    ensures answer { result
        ≡ map_ok (λ info. from + length info) (sessions_answer count from (drop from bytes.now)) }
    // As it is told: a refusal by its number, place and detail.
    ensures told { outcome_of result ≡ outcome_of
        (map_ok (λ info. from + length info) (sessions_answer count from (drop from bytes.now))) }
    ensures within { IfOk result (λ n. (from ≤ n) × (n ≤ max from (length bytes.now))) }
{
    let mut at = from;
    // No fold over the count: its closure would have to show at every call that `at` lies inside.
    for _i in 0..count {
        at += session_length(at, bytes)?;
    }
    Ok(at)
}

/// How long so many sessions at the front of map info are, in bytes. Places count from its start.
pub fn info_length(count: u8, info: &[u8]) -> Result<usize, Refusal>
    ensures answer { result ≡ map_ok length (sessions_answer count 0 info.now) }
    // As it is told: a refusal by its number, place and detail.
    ensures told { outcome_of result
        ≡ outcome_of (map_ok length (sessions_answer count 0 info.now)) }
    // The sessions that are measured are those that the layouts draw.
    ensures drawn { Measures (Sessions count) info.now result }
{
    sessions_end(count, 0, info)
}
