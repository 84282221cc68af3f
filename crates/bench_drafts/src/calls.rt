// A list of calls on a draft.
ghost use Rattle.std.specs.Prelude.{◌≡◌, ◌≤◌, length, take};
ghost use Rattle.profile.specs.Fixed.{fixed_tables};
ghost use Rattle.exchange.specs.Runs.{steps_of};
ghost use Rattle.bench_drafts.specs.Rows.{steps_in, profile_in};
ghost use Rattle.bench_drafts.specs.Makes.{Makes};

use crate::rows::{CallRow, call_of};
use exchange::run;
use plain::{Call, Reply};
use profile::Fixed;

// No list of the benchmark is longer.
const MOST_CALLS: usize = 160;

fn profile_of(number: u32) -> Fixed
    ensures { result ≡ profile_in number }
{
    match number {
        1 => Fixed::Csk,
        2 => Fixed::Pck,
        _ => Fixed::Gmk,
    }
}

// The rows as calls.
fn set_calls<'a>(
    rows: &[CallRow],
    bytes: &'a [u8],
    profile: &'a Fixed,
    calls: &mut [Call<'a, Fixed>],
)
    requires { length rows.now ≡ length calls.old }
    ensures steps { steps_of fixed_tables calls.new
        ≡ steps_in bytes.now (fixed_tables profile.now) rows.now }
    ensures len { length calls.new ≡ length rows.now }
{
    for (i, row) in rows.iter().enumerate() {
        calls[i] = call_of(row, bytes, profile);
    }
}

fn make_all<'a>(
    rows: &[CallRow],
    bytes: &'a [u8],
    profile: &'a Fixed,
    calls: &mut [Call<'a, Fixed>],
    replies: &mut [Reply],
    buffer: &mut [u8],
) -> usize
    requires calls { length rows.now ≡ length calls.old }
    requires replies { length rows.now ≡ length replies.old }
    ensures { Makes (steps_in bytes.now (fixed_tables profile.now) rows.now)
        buffer.old buffer.new result }
{
    set_calls(rows, bytes, profile, calls);
    run(buffer, calls, replies).length
}

// The rows that there are places for.
fn first(rows: &[CallRow]) -> &[CallRow]
    ensures rows { result.now ≡ take 160 rows.now }
    ensures few { length result.now ≤ 160 }
{
    if rows.len() < MOST_CALLS {
        return rows;
    }
    &rows[..MOST_CALLS]
}

fn make<'a>(rows: &[CallRow], bytes: &'a [u8], profile: &'a Fixed, buffer: &mut [u8]) -> usize
    ensures { Makes (steps_in bytes.now (fixed_tables profile.now) (take 160 rows.now))
        buffer.old buffer.new result }
{
    let rows = first(rows);
    let mut calls = [Call::Release; MOST_CALLS];
    let mut replies = [Reply::Misplaced; MOST_CALLS];
    let calls = &mut calls[..rows.len()];
    let replies = &mut replies[..rows.len()];
    make_all(rows, bytes, profile, calls, replies, buffer)
}

/// Makes the calls of the rows, the first 160 of them, on a draft that begins in the buffer, and
/// answers the length of the encoding then held. A close is under the fixed profile with this
/// number: 1 a client-server key, 2 a private call key, and any other a group key.
#[unsafe(no_mangle)]
pub extern "C" fn bench_calls(
    rows: &[CallRow],
    bytes: &[u8],
    profile: u32,
    buffer: &mut [u8],
) -> usize
    ensures { Makes (steps_in bytes.now (fixed_tables (profile_in profile)) (take 160 rows.now))
        buffer.old buffer.new result }
{
    let profile = profile_of(profile);
    make(rows, bytes, &profile, buffer)
}
