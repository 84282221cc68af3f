// A signature that is written.
ghost use Rattle.std.specs.Prelude.{◌≡◌};
ghost use Rattle.drafter.specs.Signs.{HasSign, delivered_by};
ghost use Rattle.drafter.specs.Calls.{MakesSign};

use crate::buffer::write_at;
use crate::state::{Core, Outcome};
use wire::Refusal;

impl<'a> Core<'a> {
    // A signature of the length that close was given goes in its place.
    pub(crate) fn deliver(&mut self, signature: &[u8]) -> Result<usize, Refusal>
        requires { HasSign self.old }
        ensures { MakesSign signature.now self.old self.new result }
    {
        let start = self.end + 2;
        let full = self.full;
        if signature.len() != full - start {
            return Err(Refusal::SignatureLength);
        }
        write_at(self.buffer, start, signature);
        Ok(full)
    }
}

impl Outcome {
    // The length last delivered, or 0.
    pub(crate) fn delivered(self) -> usize
        ensures { result ≡ delivered_by self }
    {
        match self {
            Outcome::Signing(length) => length,
            Outcome::Faulty(_) => 0,
        }
    }
}
