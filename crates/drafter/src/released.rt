// A draft that was released.
ghost use Rattle.std.specs.Prelude.{◌≡◌};
ghost use Rattle.plain.specs.Drafts.{encoding_of};
ghost use Rattle.plain.specs.declared.calls.Reply.TheVariants.{Released as released_reply};
ghost use Rattle.plain.specs.Steps.Step.{release as release_step};
ghost use Rattle.drafter.specs.Views.{ViewEffect};

use crate::state::Core;
use crate::types::{Out, Released};

impl<'a> Released<'a> {
    // Releases a draft that is out. The buffer that it gives back keeps the lengths of what it
    // holds; the length last delivered is beside it.
    pub(crate) fn of(out: Out<'a>) -> (usize, Released<'a>)
        ensures { ViewEffect release_step out.entry result.1 (released_reply result.0) }
    {
        let counted = out.core.counted;
        let header = out.core.header;
        let count = out.core.count;
        let end = out.core.end;
        let full = out.core.full;
        let (length, buffer) = out.release();
        let core = Core {
            buffer,
            counted,
            header,
            count,
            end,
            full,
        };
        (length, Released { core })
    }

    /// The encoding of the records held, SIGN among them if it stood.
    pub fn bytes(&self) -> &[u8]
        ensures { result.now ≡ encoding_of self.now.plain }
    {
        self.core.encoding()
    }

    /// Gives the lent buffer back as it stands.
    pub fn end(self) -> &'a mut [u8]
        ensures buffer { result.now ≡ self.entry.bytes }
        ensures lent { result.ghost_name ≡ self.entry.lent }
    {
        let Released { core } = self;
        let Core { buffer, .. } = core;
        buffer
    }
}
