// Drafts a message again across the boundary.
ghost use Rattle.profile.specs.Fixed.{fixed_tables};
ghost use Rattle.boundary.specs.Outcomes.{mapped};
ghost use Rattle.boundary.specs.Hands.{number};
ghost use Rattle.boundary.specs.Settings.{fixed_in, sheet_in, setting};
ghost use Rattle.boundary.specs.Says.{Redrafted, RedraftComes, RedraftSays};

use crate::fault::Fault;
use crate::rows::{narrow, refuse};
use crate::settings::{enter_all, fixed, sheet};
use exchange::redraft;
use profile::Profile;
use verifier::{KeyTag, TrustList, Verifier};

fn redraft_under<P: Profile, V: Verifier>(
    message: &[u8],
    profile: &P,
    verifier: &V,
    buffer: &mut [u8],
) -> Result<usize, Fault>
    ensures { Redrafted (P.tables profile.now) (V.passing verifier.now) message.now buffer.old
        buffer.new result }
{
    Ok(redraft(message, profile, verifier, buffer)?)
}

fn redraft_into<P: Profile + Drop>(
    message: &[u8],
    profile: Result<P, Fault>,
    key: u64,
    trusted: &[u8],
    buffer: &mut [u8],
) -> Result<usize, Fault>
    ensures { RedraftComes (setting (mapped P.Profile.tables profile) key trusted.now) message.now
        buffer.old buffer.new result }
{
    let profile = profile?;
    let mut list = TrustList::new(KeyTag { key });
    enter_all(&mut list, trusted)?;
    redraft_under(message, &profile, &list, buffer)
}

fn redraft_bytes<P: Profile + Drop>(
    message: &[u8],
    profile: Result<P, Fault>,
    key: u64,
    trusted: &[u8],
    buffer: &mut [u8],
    length: &mut u32,
    place: &mut u32,
    detail: &mut u32,
) -> u32
    ensures { RedraftSays (setting (mapped P.Profile.tables profile) key trusted.now) message.now
        buffer.old buffer.new (number length.old place.old detail.old)
        (number length.new place.new detail.new) result }
{
    match redraft_into(message, profile, key, trusted, buffer) {
        Ok(n) => {
            *length = narrow(n);
            0
        }
        Err(fault) => refuse(fault, place, detail),
    }
}

/// Drafts a message that read_fixed accepts again, in the buffer, and tells its length.
pub fn redraft_fixed(
    message: &[u8],
    profile: u32,
    key: u64,
    trusted: &[u8],
    buffer: &mut [u8],
    length: &mut u32,
    place: &mut u32,
    detail: &mut u32,
) -> u32
    ensures { RedraftSays (setting (mapped fixed_tables (fixed_in profile)) key trusted.now)
        message.now buffer.old buffer.new (number length.old place.old detail.old)
        (number length.new place.new detail.new) result }
{
    let profile = fixed(profile);
    redraft_bytes(
        message, profile, key, trusted, buffer, length, place, detail,
    )
}

/// Drafts a message that read_sheet accepts again.
pub fn redraft_sheet(
    message: &[u8],
    text: &[u8],
    key: u64,
    trusted: &[u8],
    buffer: &mut [u8],
    length: &mut u32,
    place: &mut u32,
    detail: &mut u32,
) -> u32
    ensures { RedraftSays (setting (sheet_in text.now) key trusted.now) message.now buffer.old
        buffer.new (number length.old place.old detail.old) (number length.new place.new detail.new)
        result }
{
    let profile = sheet(text);
    redraft_bytes(
        message, profile, key, trusted, buffer, length, place, detail,
    )
}
