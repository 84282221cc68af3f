// The time stamp of a T payload.
ghost use Rattle.walk.specs.Times.{ReadsTime};

use wire::Refusal;

// A T payload with its next-payload byte.
const LENGTH: usize = 10;

/// The TS value of a T payload (RFC 3830, 6.6), as lookup hands the payload out: seconds since 0h on
/// 1 January 1900.
///
/// It refuses, in this order and at place 0, what is shorter than ten bytes (11), a TS type that is
/// not 0 (12), and what is longer (13).
pub fn time(payload: &[u8]) -> Result<u64, Refusal>
    ensures { ReadsTime payload.now result }
{
    if payload.len() < LENGTH {
        return Err(Refusal::PayloadCut(0));
    }
    if payload[1] != 0 {
        return Err(Refusal::PayloadRule(0));
    }
    let Ok(seconds) = <[u8; 8]>::try_from(&payload[2..]) else {
        return Err(Refusal::BytesLeft(0));
    };
    Ok(u64::from_be_bytes(seconds))
}
