// A draft that is closed, signed, withdrawn or released.
ghost use Rattle.std.specs.Prelude.{◌≡◌, ◌+◌, ◌<◌, ◌≤◌, IfOk};
ghost use Rattle.plain.specs.Offers.{check_answer};
ghost use Rattle.plain.specs.Drafts.Stage.{opened, signing};
ghost use Rattle.plain.specs.Steps.{blank_sign, close_answer};
ghost use Rattle.drafter.specs.Cores.{plain_of};
ghost use Rattle.drafter.specs.Edits.{IsEditable};
ghost use Rattle.drafter.specs.Signs.{HasSign, SameRecordsAt, CloseLeaves, AdmitsBy, sign_check};

use crate::buffer::{clear_sign, put_sign};
use crate::form::Form;
use crate::state::Core;
use profile::{Profile, admit};
use walk::walk;
use wire::{MOST_PAYLOADS, Refusal, Row};

impl<'a> Core<'a> {
    // What a close is refused for before the profile is asked.
    fn check_close(&self, sign_type: u8, size: usize) -> Result<Form, Refusal>
        requires { IsEditable self.now }
        ensures answer { check_answer result ≡ sign_check self.now sign_type size }
        ensures form { IfOk result (λ form. (form.sign_type ≡ sign_type) × (form.size ≡ size)) }
    {
        if self.header == 0 {
            return Err(Refusal::NoHeader);
        }
        let form = Form::new(sign_type, size).ok_or(Refusal::SignForm)?;
        if form.size + 2 > self.counted - self.end {
            return Err(Refusal::NoRoom);
        }
        Ok(form)
    }

    // SIGN stands after the payloads, with a signature of zeros.
    fn set_sign(&mut self, form: Form)
        requires draft { (IsEditable self.old) × (0 < self.old.header) }
        requires room { self.old.end + (2 + form.size) ≤ self.old.counted }
        ensures { SameRecordsAt (signing (blank_sign form.sign_type form.size) 0) self.old self.new }
    {
        let count = self.count;
        let naming = self.location(count).naming;
        put_sign(self.buffer, naming, self.end, form.length());
        self.full = self.end + 2 + form.size;
    }

    // SIGN goes, and the draft is open.
    pub(crate) fn remove_sign(&mut self)
        requires { HasSign self.old }
        ensures { SameRecordsAt opened self.old self.new }
    {
        let count = self.count;
        let naming = self.location(count).naming;
        clear_sign(self.buffer, naming, self.end, self.full);
        self.full = self.end;
    }

    // What the profile refuses of the message with SIGN.
    fn admit_by<P: Profile>(&self, profile: &P) -> Result<(), Refusal>
        requires { HasSign self.now }
        ensures { AdmitsBy (P.tables profile.now) self.now result }
    {
        let message = &self.buffer[..self.full];
        let mut table = [Row::BLANK; MOST_PAYLOADS];
        let walked = walk(message, &mut table)?;
        admit(profile, message, &table[..walked.count])
    }

    // SIGN stands afterwards if nothing is wrong, and else the draft is as it was.
    #[tactic(auto, using(crate::proofs::Closing::during_signed, crate::proofs::Closing::fallen_open))]
    pub(crate) fn close<P: Profile>(
        &mut self,
        profile: &P,
        sign_type: u8,
        size: usize,
    ) -> Result<(), Refusal>
        requires { IsEditable self.old }
        ensures answer { result ≡ close_answer self.old.counted (plain_of self.old).held
            (P.tables profile.now) sign_type size }
        ensures closes { CloseLeaves sign_type size result self.old self.new }
    {
        let form = self.check_close(sign_type, size)?;
        self.set_sign(form);
        if let Err(fault) = self.admit_by(profile) {
            self.remove_sign();
            return Err(fault);
        }
        Ok(())
    }
}
