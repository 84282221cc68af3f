// A part at the front of bytes, marked off by its own lengths: a body or a session.
ghost use Rattle.std.specs.Prelude.{◌≡◌, ℕ, Bool, List, length};
ghost use Rattle.wire.specs.Answers.{map_ok};
ghost use Rattle.wire.specs.Extents.{part};

use wire::Refusal;

pub(crate) trait Layout {
    ghost extent_of: { Self → List ℕ → ℕ };

    ghost rule: { Self → List ℕ → Bool };

    // How long the part is by its own lengths, read where it begins.
    fn extent(&self, rest: &[u8]) -> usize
        ensures { result ≡ extent_of self.now rest.now };

    // The rule inside a part that is all there.
    fn inside(&self, part: &[u8]) -> bool
        ensures { result ≡ rule self.now part.now };
}

// The length of the part at the front, if it is all there and its rule holds.
pub(crate) fn part_length<L: Layout>(
    layout: &L,
    rest: &[u8],
    cut: Refusal,
    bad: Refusal,
) -> Result<usize, Refusal>
    ensures { result
        ≡ map_ok length (part (L.extent_of layout.now) (L.rule layout.now) cut bad rest.now) }
{
    let n = layout.extent(rest);
    let part = rest.get(..n).ok_or(cut)?;
    if layout.inside(part) { Ok(n) } else { Err(bad) }
}
