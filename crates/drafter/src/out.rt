// A draft that is out.
ghost use Rattle.std.specs.Prelude.{◌≡◌};
ghost use Rattle.plain.specs.Drafts.{encoding_of, draft_span};
ghost use Rattle.plain.specs.Steps.Step.{sign as sign_step, withdraw as withdraw_step, release as release_step};
ghost use Rattle.plain.specs.declared.calls.Reply.TheVariants.{Done, Released};
ghost use Rattle.plain.specs.LawfulDrafts.{Widths};
ghost use Rattle.drafter.specs.Views.{ViewEffect, TurnedBySign, reply_of};

use crate::state::{Core, Outcome};
use crate::types::{Open, Out};
use wire::Refusal;

impl<'a> Out<'a> {
    /// The encoding of the records held, SIGN among them if it stands.
    pub fn bytes(&self) -> &[u8]
        ensures { result.now ≡ encoding_of self.now.plain }
    {
        self.core.encoding()
    }

    /// What the signature is over: everything before it. No bytes if the draft carries a fault.
    pub fn span(&self) -> &[u8]
        ensures { result.now ≡ draft_span self.now.plain }
    {
        self.core.span()
    }

    /// Writes the signature and delivers the message: answers its length. Refuses with the carried
    /// fault, or for a signature of another length than close was given. It may be repeated.
    pub fn sign(&mut self, signature: &[u8]) -> Result<usize, Refusal>
        ensures turned { TurnedBySign signature.now self.old self.new result }
        ensures widths { Widths (sign_step signature.now) }
    {
        match self.outcome {
            Outcome::Signing(_) => {
                let length = self.core.deliver(signature)?;
                self.outcome = Outcome::Signing(length);
                Ok(length)
            }
            Outcome::Faulty(fault) => Err(fault),
        }
    }

    /// Takes SIGN off, if it stands, and gives the open draft back.
    pub fn withdraw(self) -> Open<'a>
        ensures { ViewEffect withdraw_step self.entry result Done }
    {
        let Out { mut core, outcome } = self;
        match outcome {
            Outcome::Signing(_) => core.remove_sign(),
            Outcome::Faulty(_) => {}
        }
        Open { core }
    }

    /// Ends the draft: answers the length last delivered since close, or 0, and gives the lent
    /// buffer back as it stands.
    pub fn release(self) -> (usize, &'a mut [u8])
        ensures answer { Released result.0 ≡ reply_of release_step self.entry }
        ensures buffer { result.1.now ≡ self.entry.bytes }
        ensures lent { result.1.ghost_name ≡ self.entry.lent }
    {
        let Out { core, outcome } = self;
        let Core { buffer, .. } = core;
        (outcome.delivered(), buffer)
    }
}
