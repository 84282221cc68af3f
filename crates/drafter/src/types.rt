// A draft that is open and one that is out: two types, moved from one to the other. A clause sees
// the view of each; what is true of its fields is said once, by its model.
ghost use Rattle.plain.specs.Drafts.Stage.{opened};
ghost use Rattle.drafter.specs.Views.{View, view_at};
ghost use Rattle.drafter.specs.Cores.{plain_of, plain_at, IsRepresented};
ghost use Rattle.drafter.specs.Edits.{IsEditable};
ghost use Rattle.drafter.specs.Signs.{OutDraft, out_stage};

use crate::state::{Core, Outcome};
use std::marker::Model;

/// An open draft: it takes edits, and goes out by close.
#[derive(Drop)]
pub struct Open<'a> {
    pub(crate) core: Core<'a>,
}

impl<'a> Model for Open<'a> {
    ghost Value = { View };

    ghost view = { λ d. view_at (plain_at opened d.core) d.core };

    ghost invariant = { λ d. IsEditable d.core };
}

/// A draft that is out: it takes signatures. It can't be let go: withdraw or release spends it.
pub struct Out<'a> {
    pub(crate) core: Core<'a>,
    pub(crate) outcome: Outcome,
}

impl<'a> Model for Out<'a> {
    ghost Value = { View };

    ghost view = { λ d. view_at (plain_at (out_stage d.outcome d.core) d.core) d.core };

    ghost invariant = { λ d. OutDraft d.outcome d.core };
}

/// A draft that was released. It takes no call.
#[derive(Drop)]
pub struct Released<'a> {
    pub(crate) core: Core<'a>,
}

impl<'a> Model for Released<'a> {
    ghost Value = { View };

    ghost view = { λ d. view_at (plain_of d.core) d.core };

    ghost invariant = { λ d. IsRepresented d.core };
}
