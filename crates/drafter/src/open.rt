// An open draft.
ghost use Rattle.std.specs.Prelude.{◌≡◌};
ghost use Rattle.plain.specs.Drafts.{begin as begun, buffer_of, encoding_of};
ghost use Rattle.plain.specs.Edits.Edit.{add as add_edit, replace as replace_edit, remove as remove_edit};
ghost use Rattle.plain.specs.Steps.Step.{close as close_step};
ghost use Rattle.plain.specs.declared.calls.Reply.TheVariants.{Done};
ghost use Rattle.plain.specs.LawfulDrafts.{EditWidths};
ghost use Rattle.drafter.specs.Views.{ViewEffect, TurnedByEdit, head_with};

use crate::buffer::clear;
use crate::edit::{Add, Edit, Remove, Replace};
use crate::state::{Core, Outcome};
use crate::types::{Open, Out};
use plain::Head;
use profile::Profile;
use wire::{LONGEST, Refusal};

/// A draft without header or payloads. At most 8,192 bytes of the buffer count; they are set to
/// zero, and the rest is never touched.
pub fn begin<'a>(buffer: &'a mut [u8]) -> Open<'a>
    ensures draft { result.plain ≡ begun }
    ensures buffer { result.bytes ≡ buffer_of buffer.old begun }
    ensures lent { result.lent ≡ buffer.entry.ghost_name }
{
    let counted = buffer.len().min(LONGEST);
    clear(buffer, counted);
    Open {
        core: Core {
            buffer,
            counted,
            header: 0,
            count: 0,
            end: 0,
            full: 0,
        },
    }
}

impl<'a> Open<'a> {
    // Head, add, replace and remove are this one call.
    pub(crate) fn edit<E: Edit>(&mut self, edit: &E) -> Result<(), Refusal>
        requires { EditWidths (E.edit edit.now) }
        ensures { TurnedByEdit (E.edit edit.now) self.old self.new result }
    {
        self.core.edit(edit)
    }

    /// Inserts a payload at a position; the later ones follow it.
    pub fn add(&mut self, position: usize, code: u8, body: &[u8]) -> Result<(), Refusal>
        ensures turned { TurnedByEdit (add_edit position code body.now) self.old self.new result }
        ensures widths { EditWidths (add_edit position code body.now) }
    {
        self.edit(&Add {
            position,
            code,
            body,
        })
    }

    /// Changes the payload at a position.
    pub fn replace(&mut self, position: usize, code: u8, body: &[u8]) -> Result<(), Refusal>
        ensures turned { TurnedByEdit (replace_edit position code body.now)
            self.old self.new result }
        ensures widths { EditWidths (replace_edit position code body.now) }
    {
        self.edit(&Replace {
            position,
            code,
            body,
        })
    }

    /// Drops the payload at a position.
    pub fn remove(&mut self, position: usize) -> Result<(), Refusal>
        ensures { TurnedByEdit (remove_edit position) self.old self.new result }
    {
        self.edit(&Remove { position })
    }

    /// Sets the header and keeps the payloads.
    pub fn head(
        &mut self,
        byte3: u8,
        csb: u32,
        cs: u8,
        map_type: u8,
        map_info: &[u8],
    ) -> Result<(), Refusal>
        ensures turned { TurnedByEdit (head_with byte3 csb cs map_type map_info.now)
            self.old self.new result }
        ensures widths { EditWidths (head_with byte3 csb cs map_type map_info.now) }
    {
        self.edit(&Head {
            byte3,
            csb,
            cs,
            map_type,
            map_info,
        })
    }

    /// The encoding of the records held.
    pub fn bytes(&self) -> &[u8]
        ensures { result.now ≡ encoding_of self.now.plain }
    {
        self.core.encoding()
    }

    /// Goes out, for a signature of `size` bytes. It never refuses: what is wrong is carried, and
    /// sign tells it.
    pub fn close<P: Profile>(self, profile: &P, sign_type: u8, size: usize) -> Out<'a>
        ensures { ViewEffect (close_step (P.tables profile.now) sign_type size) self.entry result
            Done }
    {
        let Open { mut core } = self;
        let outcome = match core.close(profile, sign_type, size) {
            Ok(()) => Outcome::Signing(0),
            Err(fault) => Outcome::Faulty(fault),
        };
        Out { core, outcome }
    }

    /// Ends the draft, and gives the lent buffer back as it stands.
    pub fn end(self) -> &'a mut [u8]
        ensures buffer { result.now ≡ self.entry.bytes }
        ensures lent { result.ghost_name ≡ self.entry.lent }
    {
        let Open { core } = self;
        let Core { buffer, .. } = core;
        buffer
    }
}
