// A draft in whichever state: each call takes it and gives back what it has become.
ghost use Rattle.std.specs.Prelude.{◌≡◌};
ghost use Rattle.plain.specs.Drafts.{encoding_of};
ghost use Rattle.plain.specs.Edits.Edit.{add as add_edit, replace as replace_edit, remove as remove_edit};
ghost use Rattle.plain.specs.Steps.{call_step};
ghost use Rattle.plain.specs.Steps.Step.{edit as edit_step, close as close_step, sign as sign_step, withdraw as withdraw_step, release as release_step};
ghost use Rattle.plain.specs.LawfulDrafts.{EditWidths, Widths};
ghost use Rattle.drafter.specs.Views.{head_with};
ghost use Rattle.drafter.specs.States.{view_in, StateTurned};

use crate::edit::{Add, Edit, Remove, Replace};
use crate::types::{Open, Out, Released};
use plain::{Call, Head, Reply};
use profile::Profile;

/// A draft as its state's type has it. It is moved through each call, and [`State::end`] alone
/// ends it in whichever state: one that is out can't be let go.
pub enum State<'a> {
    Open(Open<'a>),
    Out(Out<'a>),
    Released(Released<'a>),
}

// A call for each of the eight, by its arguments: so that their types tell how wide they are. One
// that the state does not take is misplaced.
impl<'a> State<'a> {
    fn edit<E: Edit>(self, edit: &E) -> (State<'a>, Reply)
        requires { EditWidths (E.edit edit.now) }
        ensures { StateTurned (edit_step (E.edit edit.now)) self.entry result }
    {
        match self {
            State::Open(mut open) => {
                let reply = open.edit(edit).into();
                (State::Open(open), reply)
            }
            state => (state, Reply::Misplaced),
        }
    }

    fn head(self, byte3: u8, csb: u32, cs: u8, map_type: u8, map_info: &[u8]) -> (State<'a>, Reply)
        ensures turned { StateTurned (edit_step (head_with byte3 csb cs map_type map_info.now))
            self.entry result }
        ensures widths { EditWidths (head_with byte3 csb cs map_type map_info.now) }
    {
        self.edit(&Head {
            byte3,
            csb,
            cs,
            map_type,
            map_info,
        })
    }

    fn add(self, position: usize, code: u8, body: &[u8]) -> (State<'a>, Reply)
        ensures turned { StateTurned (edit_step (add_edit position code body.now))
            self.entry result }
        ensures widths { EditWidths (add_edit position code body.now) }
    {
        self.edit(&Add {
            position,
            code,
            body,
        })
    }

    fn replace(self, position: usize, code: u8, body: &[u8]) -> (State<'a>, Reply)
        ensures turned { StateTurned (edit_step (replace_edit position code body.now))
            self.entry result }
        ensures widths { EditWidths (replace_edit position code body.now) }
    {
        self.edit(&Replace {
            position,
            code,
            body,
        })
    }

    fn close<P: Profile>(self, profile: &P, sign_type: u8, size: usize) -> (State<'a>, Reply)
        ensures { StateTurned (close_step (P.tables profile.now) sign_type size) self.entry result }
    {
        match self {
            State::Open(open) => {
                let out = open.close(profile, sign_type, size);
                (State::Out(out), Reply::Done)
            }
            state => (state, Reply::Misplaced),
        }
    }

    fn sign(self, signature: &[u8]) -> (State<'a>, Reply)
        ensures turned { StateTurned (sign_step signature.now) self.entry result }
        ensures widths { Widths (sign_step signature.now) }
    {
        match self {
            State::Out(mut out) => {
                let reply = out.sign(signature).into();
                (State::Out(out), reply)
            }
            state => (state, Reply::Misplaced),
        }
    }

    fn withdraw(self) -> (State<'a>, Reply)
        ensures { StateTurned withdraw_step self.entry result }
    {
        match self {
            State::Out(out) => (State::Open(out.withdraw()), Reply::Done),
            state => (state, Reply::Misplaced),
        }
    }

    fn release(self) -> (State<'a>, Reply)
        ensures { StateTurned release_step self.entry result }
    {
        match self {
            State::Out(out) => {
                let (length, released) = Released::of(out);
                (State::Released(released), Reply::Released(length))
            }
            state => (state, Reply::Misplaced),
        }
    }
}

impl<'a> State<'a> {
    /// Makes a call. One that the state does not take is misplaced, and changes nothing.
    pub fn call<P: Profile>(self, call: &Call<'_, P>) -> (State<'a>, Reply)
        ensures turned { StateTurned (call_step P.Profile.tables call.now) self.entry result }
        ensures widths { Widths (call_step P.Profile.tables call.now) }
    {
        match *call {
            Call::Head(
                Head {
                    byte3,
                    csb,
                    cs,
                    map_type,
                    map_info,
                },
            ) => self.head(byte3, csb, cs, map_type, map_info),
            Call::Add {
                position,
                code,
                body,
            } => self.add(position, code, body),
            Call::Replace {
                position,
                code,
                body,
            } => self.replace(position, code, body),
            Call::Remove { position } => self.edit(&Remove { position }),
            Call::Close {
                profile,
                sign_type,
                length,
            } => self.close(profile, sign_type, length),
            Call::Sign(signature) => self.sign(signature),
            Call::Withdraw => self.withdraw(),
            Call::Release => self.release(),
        }
    }

    /// The encoding of the records held.
    pub fn bytes(&self) -> &[u8]
        ensures { result.now ≡ encoding_of (view_in self.now).plain }
    {
        match self {
            State::Open(open) => open.bytes(),
            State::Out(out) => out.bytes(),
            State::Released(released) => released.bytes(),
        }
    }

    /// Ends the draft: one that is out is released. Gives the lent buffer back as it stands.
    pub fn end(self) -> &'a mut [u8]
        ensures buffer { result.now ≡ (view_in self.entry).bytes }
        ensures lent { result.ghost_name ≡ (view_in self.entry).lent }
    {
        match self {
            State::Open(open) => open.end(),
            State::Out(out) => {
                let (_length, buffer) = out.release();
                buffer
            }
            State::Released(released) => released.end(),
        }
    }
}
