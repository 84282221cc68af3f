// A draft in its buffer, whichever state it is in.
ghost use Rattle.std.specs.Prelude.{◌≡◌};
ghost use Rattle.plain.specs.Drafts.{encoding_of, draft_span};
ghost use Rattle.drafter.specs.Cores.{plain_of, IsRepresented};

use wire::Refusal;

// What a close found: nothing wrong, with the length last delivered since, or a fault.
#[derive(Clone, Copy)]
pub(crate) enum Outcome {
    Signing(usize),
    Faulty(Refusal),
}

// Core has no model of its own, which was tried: a clause then sees only the view, and the lengths
// would have to be said anew by the records, and shown again after every write. What its functions
// ask of it (Shown, Editable, Signed, OutDraft) is what the models of Open, Out and Released keep;
// and each call states its own promise, so that Makes and what is encoded stand at more than one.
// The buffer is lent and there is no heap, so that lengths stand beside it. Of the buffer,
// `counted` bytes count. The header has `header` bytes, 0 before head, which is what the sums of
// lengths want. The `count` payloads end at `end`, and what is encoded at `full`: after SIGN, where
// it stands.
#[derive(Drop)]
pub(crate) struct Core<'a> {
    pub(crate) buffer: &'a mut [u8],
    pub(crate) counted: usize,
    pub(crate) header: usize,
    pub(crate) count: usize,
    pub(crate) end: usize,
    pub(crate) full: usize,
}

impl<'a> Core<'a> {
    // The encoding of the records held.
    pub(crate) fn encoding(&self) -> &[u8]
        requires { IsRepresented self.now }
        ensures { result.now ≡ encoding_of (plain_of self.now) }
    {
        &self.buffer[..self.full]
    }

    // What a signature is over, while SIGN stands.
    pub(crate) fn span(&self) -> &[u8]
        requires { IsRepresented self.now }
        ensures { result.now ≡ draft_span (plain_of self.now) }
    {
        if self.end == self.full {
            return &[];
        }
        &self.buffer[..self.end + 2]
    }
}
