// The fields of a RAND.
ghost use Rattle.std.specs.Prelude.{◌≡◌, ℕ, List, drop};
ghost use Rattle.wire.specs.Layouts.{rand_body};

use wire::bytes_from;

/// A RAND: RAND len 1, RAND.
#[derive(Clone, Copy)]
pub struct Rand<'a> {
    pub body: &'a [u8],
}

impl<'a> Rand<'a> {
    /// The random bytes.
    pub fn bytes(&self) -> &'a [u8]
        ensures is { result.now ≡ drop 1 self.now.body.now }
        ensures drawn { (rand : List ℕ) → self.now.body.now ≡ rand_body rand → result.now ≡ rand }
    {
        bytes_from(self.body, 1)
    }
}
