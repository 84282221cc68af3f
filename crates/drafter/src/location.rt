// Where the payloads of a draft stand in its buffer.
ghost use Rattle.std.specs.Prelude.{◌≡◌, ℕ, ◌<◌, ◌≤◌, length};
ghost use Rattle.wire.specs.Extents.{extent};
ghost use Rattle.drafter.specs.Locations.{kind_in, size_at, location_at};

use layout::extent;
use wire::{Kind, byte_at};

// Where a payload starts, and the byte that names it.
#[derive(Clone, Copy)]
pub(crate) struct Location {
    pub(crate) naming: usize,
    pub(crate) at: usize,
}

// A part of a buffer that gives way: its spot, how long it is, and the code of what follows it. It
// is empty where a payload is added.
#[derive(Clone, Copy)]
pub(crate) struct Region {
    pub(crate) location: Location,
    pub(crate) size: usize,
    pub(crate) next: u8,
}

// How far the body of a payload of this code reaches. By an arm for each kind, as in a walk: so one
// jump is left.
fn extent_of(code: u8, rest: &[u8]) -> usize
    ensures is { result ≡ extent (kind_in code) rest.now }
    ensures small { result < 65540 }
{
    match Kind::of(code) {
        Some(Kind::Rand) => extent(Kind::Rand, rest),
        Some(Kind::Idr) => extent(Kind::Idr, rest),
        Some(Kind::Sp) => extent(Kind::Sp, rest),
        Some(Kind::Sakke) => extent(Kind::Sakke, rest),
        Some(Kind::Ext) => extent(Kind::Ext, rest),
        Some(Kind::Sign) => extent(Kind::Sign, rest),
        // No draft holds a code that names nothing.
        Some(Kind::T) | None => extent(Kind::T, rest),
    }
}

// How long the payload at a spot is, with its next-payload byte.
pub(crate) fn size_at(bytes: &[u8], location: Location) -> usize
    requires { location.at < length bytes.now }
    ensures is { result ≡ size_at bytes.now location }
    ensures small { result < 65541 }
{
    1 + extent_of(byte_at(bytes, location.naming), &bytes[location.at + 1..])
}

// The spot of the payload at a position, after a header of so many bytes.
#[tactic(auto, unfolding(crate::specs::Locations::location_at))]
pub(crate) fn locate(bytes: &[u8], header: usize, position: usize) -> Location
    requires few { length bytes.now ≤ 8192 }
    requires there { (i : ℕ) → i < position
        → (location_at header i bytes.now).at < length bytes.now }
    ensures { result ≡ location_at header position bytes.now }
{
    let mut location = Location {
        naming: 2,
        at: header,
    };
    // No index is counted here: the step is repeated. A fold's closure would want it shown at each
    // turn that the spot is inside.
    for _i in 0..position {
        location = Location {
            naming: location.at,
            at: location.at + size_at(bytes, location),
        };
    }
    location
}
