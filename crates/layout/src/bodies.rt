// How long a body is by its own length field, and the rule inside it.
ghost use Rattle.std.specs.Prelude.{◌≡◌, ◌+◌, ◌<◌, ◌≤◌, length, slice_index};
ghost use Rattle.wire.specs.Answers.{map_ok, outcome_of};
ghost use Rattle.wire.specs.Octets.{value_at};
ghost use Rattle.wire.specs.Layouts.{Body};
ghost use Rattle.wire.specs.Extents.{extent, inside, items, one_sakke, body_at};
ghost use Rattle.layout.specs.Measures.{Measures};

use crate::marked::{Layout, part_length};
use wire::{Kind, Refusal, byte_at};

// The EXT type whose content is one SAKKE payload.
const WRAPPING: u8 = 6;

// The byte at a place as a length: each use adds lengths, and `small` says that the sums fit.
pub(crate) fn length_at(bytes: &[u8], at: usize) -> usize
    ensures is { result ≡ slice_index bytes.now at }
    ensures small { result < 256 }
{
    byte_at(bytes, at) as usize
}

// The number in the two bytes from a place on.
pub(crate) fn be16_at(bytes: &[u8], at: usize) -> usize
    requires { at ≤ 65535 }
    ensures is { result ≡ value_at 2 at bytes.now }
    ensures small { result < 65536 }
{
    u16::from_be_bytes([byte_at(bytes, at), byte_at(bytes, at + 1)]) as usize
}

/// How long a body is by its own length field, in bytes, read where the body begins.
///
/// A byte past the end counts as 0. A body whose length field is cut is longer than what is there.
pub fn extent(kind: Kind, rest: &[u8]) -> usize
    ensures is { result ≡ extent kind rest.now }
    ensures small { result < 65540 }
{
    // An arm for each payload, though three are alike, as each has its own figure in the format.
    match kind {
        Kind::T => 9,
        Kind::Rand => 1 + length_at(rest, 0),
        Kind::Idr => 4 + be16_at(rest, 2),
        Kind::Sp => 4 + be16_at(rest, 2),
        Kind::Sakke => 4 + be16_at(rest, 2),
        Kind::Ext => 3 + be16_at(rest, 1),
        Kind::Sign => 2 + be16_at(rest, 0) % 4096,
    }
}

// Whole items: type, length, value.
fn are_items(params: &[u8]) -> bool
    ensures { result ≡ items 0 params.now }
{
    let mut rest = params;
    while let [_type, n, after @ ..] = rest {
        match after.get(*n as usize..) {
            Some(next) => rest = next,
            None => return false,
        }
    }
    rest.is_empty()
}

// One SAKKE payload with its next-payload byte, and nothing more.
fn is_one_sakke(content: &[u8]) -> bool
    ensures { result ≡ one_sakke content.now }
{
    match content {
        [_next, body @ ..] => extent(Kind::Sakke, body) == body.len(),
        [] => false,
    }
}

impl Layout for Kind {
    ghost extent_of = { extent };

    ghost rule = { inside };

    fn extent(&self, rest: &[u8]) -> usize {
        extent(*self, rest)
    }

    fn inside(&self, body: &[u8]) -> bool {
        match self {
            Kind::T => byte_at(body, 0) == 0,
            Kind::Rand | Kind::Idr | Kind::Sakke => true,
            Kind::Sp => body.get(4..).is_none_or(are_items),
            Kind::Ext => byte_at(body, 0) != WRAPPING || body.get(3..).is_some_and(is_one_sakke),
            Kind::Sign => be16_at(body, 0) % 4096 > 0,
        }
    }
}

/// The length in bytes of the body at the front of `rest`.
///
/// It is refused if it is not all there or breaks the rule inside it. It belongs to the payload at
/// `at`, which a refusal tells.
pub fn body_length(kind: Kind, at: usize, rest: &[u8]) -> Result<usize, Refusal>
    ensures answer { result ≡ map_ok length (body_at kind at rest.now) }
    // As it is told: a refusal by its number, place and detail.
    ensures told { outcome_of result ≡ outcome_of (map_ok length (body_at kind at rest.now)) }
    // The bodies that are measured are those that the layouts draw.
    ensures drawn { Measures (Body kind) rest.now result }
{
    part_length(
        &kind,
        rest,
        Refusal::PayloadCut(at),
        Refusal::PayloadRule(at),
    )
}
