// The body of a payload. Views of payloads, one for each kind but SIGN, are over bodies.
//
// A clause of a view says of a body that the layouts draw that the drawn field is answered. Of any
// other bytes the field is what stands in its place, where a byte past the end counts as 0.
ghost use Rattle.std.specs.Prelude.{◌≡◌, drop};

use wire::bytes_from;

/// The body of a payload that is no SIGN, as lookup hands it out: all after its next-payload byte.
pub fn body_of(payload: &[u8]) -> &[u8]
    ensures { result.now ≡ drop 1 payload.now }
{
    bytes_from(payload, 1)
}
