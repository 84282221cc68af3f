// Messages drafted again.
ghost use Rattle.profile.specs.Fixed.{fixed_tables};
ghost use Rattle.boundary.specs.Outcomes.{mapped};
ghost use Rattle.boundary.specs.Hands.{number};
ghost use Rattle.boundary.specs.Settings.{fixed_in, sheet_in, setting};
ghost use Rattle.boundary.specs.Says.{RedraftSays};

use boundary::{redraft_fixed, redraft_sheet};

/// As `redraft` of the library, under what `mikey_read_fixed` reads under.
#[unsafe(no_mangle)]
pub extern "C" fn mikey_redraft_fixed(
    message: &[u8],
    profile: u32,
    key: u64,
    trusted: &[u8],
    buffer: &mut [u8],
    length: &mut u32,
    place: &mut u32,
    detail: &mut u32,
) -> u32
    ensures { RedraftSays (setting (mapped fixed_tables (fixed_in profile)) key trusted.now)
        message.now buffer.old buffer.new (number length.old place.old detail.old)
        (number length.new place.new detail.new) result }
{
    redraft_fixed(
        message, profile, key, trusted, buffer, length, place, detail,
    )
}

/// As `redraft` of the library, under what `mikey_read_sheet` reads under.
#[unsafe(no_mangle)]
pub extern "C" fn mikey_redraft_sheet(
    message: &[u8],
    sheet: &[u8],
    key: u64,
    trusted: &[u8],
    buffer: &mut [u8],
    length: &mut u32,
    place: &mut u32,
    detail: &mut u32,
) -> u32
    ensures { RedraftSays (setting (sheet_in sheet.now) key trusted.now) message.now buffer.old
        buffer.new (number length.old place.old detail.old) (number length.new place.new detail.new)
        result }
{
    redraft_sheet(message, sheet, key, trusted, buffer, length, place, detail)
}
