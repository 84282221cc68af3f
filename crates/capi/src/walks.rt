// Walks and time stamps.
ghost use Rattle.walk.specs.Walks.{Walks};
ghost use Rattle.boundary.specs.Hands.{numbers, number};
ghost use Rattle.boundary.specs.Says.{Says, TimeSays};

use boundary::{time_bytes, walk_bytes};

/// As `walk` of the library, over bytes: rows of six bytes each, and numbers; include/mikey.h says
/// what each argument is.
#[unsafe(no_mangle)]
pub extern "C" fn mikey_walk(
    message: &[u8],
    rows: &mut [u8],
    count: &mut u32,
    header: &mut u32,
    span: &mut u32,
    place: &mut u32,
    detail: &mut u32,
) -> u32
    ensures { Says (Walks message.now) rows.old rows.new
        (numbers count.old header.old span.old place.old detail.old)
        (numbers count.new header.new span.new place.new detail.new) result }
{
    walk_bytes(message, rows, count, header, span, place, detail)
}

/// As `time` of the library: the seconds of a T payload.
#[unsafe(no_mangle)]
pub extern "C" fn mikey_time(
    payload: &[u8],
    seconds: &mut u64,
    place: &mut u32,
    detail: &mut u32,
) -> u32
    ensures { TimeSays payload.now (number seconds.old place.old detail.old)
        (number seconds.new place.new detail.new) result }
{
    time_bytes(payload, seconds, place, detail)
}
