// Reads a message across the boundary.
ghost use Rattle.std.specs.Prelude.{◌≡◌, replicate, Ok};
ghost use Rattle.wire.specs.Rows.{blank_row};
ghost use Rattle.profile.specs.Fixed.{fixed_tables};
ghost use Rattle.reader.specs.Reads.{Reads};
ghost use Rattle.boundary.specs.Outcomes.{mapped};
ghost use Rattle.boundary.specs.Hands.{numbers};
ghost use Rattle.boundary.specs.Settings.{fixed_in, sheet_in, setting};
ghost use Rattle.boundary.specs.Says.{Tabled, ReadTabled, ReadSays};

use crate::fault::Fault;
use crate::rows::{TABLE_BYTES, hand_out};
use crate::settings::{enter_all, fixed, sheet};
use profile::Profile;
use reader::read;
use verifier::{KeyTag, TrustList, Verifier};
use wire::{MOST_PAYLOADS, Refusal, Row, Walked};

// Reads into a table, for a caller who lends so many bytes for rows.
fn read_under<P: Profile, V: Verifier>(
    message: &[u8],
    room: usize,
    profile: &P,
    verifier: &V,
    table: &mut [Row; MOST_PAYLOADS],
) -> Result<Walked, Fault>
    requires { table.old ≡ replicate 24 blank_row }
    ensures { Tabled (Reads (P.tables profile.now) (V.passing verifier.now) message.now) room result
        table.new }
{
    if room < TABLE_BYTES {
        return Err(Fault::Refused(Refusal::FewRows));
    }
    Ok(read(message, table, profile, verifier)?)
}

fn read_table<P: Profile + Drop>(
    message: &[u8],
    room: usize,
    profile: Result<P, Fault>,
    key: u64,
    trusted: &[u8],
    table: &mut [Row; MOST_PAYLOADS],
) -> Result<Walked, Fault>
    requires { table.old ≡ replicate 24 blank_row }
    ensures { ReadTabled (setting (mapped P.Profile.tables profile) key trusted.now) message.now
        room result table.new }
{
    let profile = profile?;
    let mut list = TrustList::new(KeyTag { key });
    enter_all(&mut list, trusted)?;
    read_under(message, room, &profile, &list, table)
}

fn read_bytes<P: Profile + Drop>(
    message: &[u8],
    rows: &mut [u8],
    profile: Result<P, Fault>,
    key: u64,
    trusted: &[u8],
    count: &mut u32,
    header: &mut u32,
    span: &mut u32,
    place: &mut u32,
    detail: &mut u32,
) -> u32
    ensures { ReadSays (setting (mapped P.Profile.tables profile) key trusted.now) message.now
        rows.old rows.new (numbers count.old header.old span.old place.old detail.old)
        (numbers count.new header.new span.new place.new detail.new) result }
{
    let mut table = [Row::BLANK; MOST_PAYLOADS];
    let outcome = read_table(message, rows.len(), profile, key, trusted, &mut table);
    hand_out(outcome, &table, rows, count, header, span, place, detail)
}

/// Tells the payloads of a message that the fixed profile of this number admits, and that a tag of
/// this key and the trust list pass, as walk_bytes tells them.
pub fn read_fixed(
    message: &[u8],
    rows: &mut [u8],
    profile: u32,
    key: u64,
    trusted: &[u8],
    count: &mut u32,
    header: &mut u32,
    span: &mut u32,
    place: &mut u32,
    detail: &mut u32,
) -> u32
    ensures { ReadSays (setting (mapped fixed_tables (fixed_in profile)) key trusted.now)
        message.now rows.old rows.new (numbers count.old header.old span.old place.old detail.old)
        (numbers count.new header.new span.new place.new detail.new) result }
{
    let profile = fixed(profile);
    read_bytes(
        message, rows, profile, key, trusted, count, header, span, place, detail,
    )
}

/// The same under the sheet that a text writes.
pub fn read_sheet(
    message: &[u8],
    rows: &mut [u8],
    text: &[u8],
    key: u64,
    trusted: &[u8],
    count: &mut u32,
    header: &mut u32,
    span: &mut u32,
    place: &mut u32,
    detail: &mut u32,
) -> u32
    ensures { ReadSays (setting (sheet_in text.now) key trusted.now) message.now rows.old rows.new
        (numbers count.old header.old span.old place.old detail.old)
        (numbers count.new header.new span.new place.new detail.new) result }
{
    let profile = sheet(text);
    read_bytes(
        message, rows, profile, key, trusted, count, header, span, place, detail,
    )
}
