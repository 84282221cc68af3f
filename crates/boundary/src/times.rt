// Reads a time stamp across the boundary.
ghost use Rattle.boundary.specs.Hands.{number};
ghost use Rattle.boundary.specs.Says.{TimeSays};

use crate::rows::refuse;
use walk::time;

/// Tells the seconds of a T payload. Returns 0, or the number of the refusal.
pub fn time_bytes(payload: &[u8], seconds: &mut u64, place: &mut u32, detail: &mut u32) -> u32
    ensures { TimeSays payload.now (number seconds.old place.old detail.old)
        (number seconds.new place.new detail.new) result }
{
    match time(payload) {
        Ok(told) => {
            *seconds = told;
            0
        }
        Err(refusal) => refuse(refusal.into(), place, detail),
    }
}
