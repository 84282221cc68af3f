// Reads under a fixed profile or a sheet.
ghost use Rattle.profile.specs.Fixed.{fixed_tables};
ghost use Rattle.boundary.specs.Outcomes.{mapped};
ghost use Rattle.boundary.specs.Hands.{numbers};
ghost use Rattle.boundary.specs.Settings.{fixed_in, sheet_in, setting};
ghost use Rattle.boundary.specs.Says.{ReadSays};

use boundary::{read_fixed, read_sheet};

/// As `read` of the library, under a fixed profile by its number, a key tag and a trust list.
#[unsafe(no_mangle)]
pub extern "C" fn mikey_read_fixed(
    message: &[u8],
    rows: &mut [u8],
    profile: u32,
    key: u64,
    trusted: &[u8],
    count: &mut u32,
    header: &mut u32,
    span: &mut u32,
    place: &mut u32,
    detail: &mut u32,
) -> u32
    ensures { ReadSays (setting (mapped fixed_tables (fixed_in profile)) key trusted.now)
        message.now rows.old rows.new (numbers count.old header.old span.old place.old detail.old)
        (numbers count.new header.new span.new place.new detail.new) result }
{
    read_fixed(
        message, rows, profile, key, trusted, count, header, span, place, detail,
    )
}

/// As `read` of the library, under the text of a sheet, a key tag and a trust list.
#[unsafe(no_mangle)]
pub extern "C" fn mikey_read_sheet(
    message: &[u8],
    rows: &mut [u8],
    sheet: &[u8],
    key: u64,
    trusted: &[u8],
    count: &mut u32,
    header: &mut u32,
    span: &mut u32,
    place: &mut u32,
    detail: &mut u32,
) -> u32
    ensures { ReadSays (setting (sheet_in sheet.now) key trusted.now) message.now rows.old rows.new
        (numbers count.old header.old span.old place.old detail.old)
        (numbers count.new header.new span.new place.new detail.new) result }
{
    read_sheet(
        message, rows, sheet, key, trusted, count, header, span, place, detail,
    )
}
