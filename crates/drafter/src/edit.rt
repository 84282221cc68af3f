// The edits of an open draft.
ghost use Rattle.std.specs.Prelude.{◌≡◌, ◌+◌, ◌<◌, ◌≤◌, take, IfOk, ⊤};
ghost use Rattle.plain.specs.Edits.{Edit as PlainEdit};
ghost use Rattle.plain.specs.Edits.Edit.{head as head_edit, add as add_edit, replace as replace_edit, remove as remove_edit};
ghost use Rattle.plain.specs.Offers.{check_answer};
ghost use Rattle.plain.specs.Steps.{header_of_head};
ghost use Rattle.plain.specs.LawfulDrafts.{EditWidths};
ghost use Rattle.drafter.specs.declared.state.Core.{Core};
ghost use Rattle.drafter.specs.Locations.{location_at};
ghost use Rattle.drafter.specs.Cores.{IsRepresented};
ghost use Rattle.drafter.specs.Edits.{IsEditable, RegionAt, first_in, position_answer, edit_check, IsAccepted, EditLeaves};
ghost use Rattle.drafter.specs.Calls.{MakesEdit};

use crate::buffer::{delete, place, put_header};
use crate::checks::{check_map, check_payload};
use crate::location::{Location, Region, locate, size_at};
use crate::state::Core;
use plain::Head;
use wire::{MOST_PAYLOADS, Refusal};

// How many payloads a draft holds at most: SIGN has a place of its own.
const MOST: usize = MOST_PAYLOADS - 1;

// An edit of a draft. It is asked first, and made if it is not refused.
pub(crate) trait Edit {
    // What asking finds in the draft and making needs, so that it is looked for once.
    type Found;

    ghost edit: { Self → PlainEdit };

    ghost finds: { Self → Core → Self.Found → Type 0 } = { λ _ _ _. ⊤ };

    fn ask(&self, core: &Core<'_>) -> Result<Self::Found, Refusal>
        requires { IsEditable core.now }
        ensures answer { check_answer result ≡ edit_check (edit self.now) core.now }
        ensures found { IfOk result (finds self.now core.now) };

    fn make(&self, core: &mut Core<'_>, found: Self::Found)
        requires draft { IsEditable core.old }
        requires asked { IsAccepted (edit self.now) core.old }
        requires widths { EditWidths (edit self.now) }
        requires found { finds self.now core.old found }
        ensures { EditLeaves (edit self.now) core.old core.new };
}

// A payload of this code and body at a position; the later ones follow it.
#[derive(Drop)]
pub(crate) struct Add<'a> {
    pub(crate) position: usize,
    pub(crate) code: u8,
    pub(crate) body: &'a [u8],
}

// A payload of this code and body in the place of the one at a position. It holds what Add holds,
// but an edit is a type of its own; the three fields in a struct of their own were tried: as many
// lines, and a `.0` at each use.
#[derive(Drop)]
pub(crate) struct Replace<'a> {
    pub(crate) position: usize,
    pub(crate) code: u8,
    pub(crate) body: &'a [u8],
}

// The payload at a position goes; the later ones follow into its place.
#[derive(Drop)]
pub(crate) struct Remove {
    pub(crate) position: usize,
}

impl<'a> Core<'a> {
    // Asks an edit, and makes it if it is not refused.
    pub(crate) fn edit<E: Edit>(&mut self, edit: &E) -> Result<(), Refusal>
        requires draft { IsEditable self.old }
        requires widths { EditWidths (E.edit edit.now) }
        ensures { MakesEdit (E.edit edit.now) self.old self.new result }
    {
        let found = edit.ask(self)?;
        edit.make(self, found);
        Ok(())
    }

    // The spot of the payload at a position, or the one after the last.
    pub(crate) fn location(&self, position: usize) -> Location
        requires draft { IsRepresented self.now }
        requires there { (0 < self.now.header) × (position ≤ self.now.count) }
        ensures is { result ≡ location_at self.now.header position
            (take self.now.end self.now.buffer.now) }
        ensures within { (result.naming < result.at) × (result.at ≤ self.now.end) }
    {
        let end = self.end;
        locate(&self.buffer[..end], self.header, position)
    }

    // The payload at a position.
    fn region(&self, position: usize) -> Region
        requires draft { IsEditable self.now }
        requires there { (0 < self.now.header) × (position < self.now.count) }
        ensures { RegionAt self.now position result }
    {
        let location = self.location(position);
        let end = self.end;
        Region {
            location,
            size: size_at(&self.buffer[..end], location),
            next: self.buffer[location.at],
        }
    }

    // The code of the first payload, or 0.
    fn first(&self) -> u8
        requires { IsEditable self.now }
        ensures { result ≡ first_in self.now }
    {
        if self.header == 0 { 0 } else { self.buffer[2] }
    }

    // The payloads end there, and no SIGN stands after them.
    fn end_at(&mut self, end: usize)
        ensures { self.new ≡ record self.old { end = end; full = end } }
    {
        self.end = end;
        self.full = end;
    }

    // What an edit at one of the first `places` positions is refused for before all else.
    fn check_position(&self, position: usize, places: usize) -> Result<(), Refusal>
        requires { IsRepresented self.now }
        ensures { result ≡ position_answer position places self.now }
    {
        if self.header == 0 {
            return Err(Refusal::NoHeader);
        }
        if position >= places {
            return Err(Refusal::NoPosition);
        }
        Ok(())
    }
}

impl Edit for Add<'_> {
    type Found = ();

    ghost edit = { λ x. add_edit x.position x.code x.body.now };

    #[tactic(auto, using(crate::proofs::Asking::add_told, std::proofs::lemmas::Bool::Decides::nat_tests))]
    fn ask(&self, core: &Core<'_>) -> Result<(), Refusal> {
        core.check_position(self.position, core.count + 1)?;
        check_payload(self.code, self.body)?;
        if core.count >= MOST {
            return Err(Refusal::DraftFull);
        }
        if self.body.len() >= core.counted - core.end {
            return Err(Refusal::NoRoom);
        }
        Ok(())
    }

    fn make(&self, core: &mut Core<'_>, _found: ()) {
        let location = core.location(self.position);
        let end = core.end;
        let region = Region {
            location,
            size: 0,
            next: core.buffer[location.naming],
        };
        place(core.buffer, end, region, self.code, self.body);
        core.count += 1;
        core.end_at(end + 1 + self.body.len());
    }
}

impl Edit for Replace<'_> {
    type Found = Region;

    ghost edit = { λ x. replace_edit x.position x.code x.body.now };

    ghost finds = { λ x c. RegionAt c x.position };

    #[tactic(auto, using(crate::proofs::Replacing::replace_told, std::proofs::lemmas::Bool::Decides::nat_tests))]
    fn ask(&self, core: &Core<'_>) -> Result<Region, Refusal> {
        core.check_position(self.position, core.count)?;
        check_payload(self.code, self.body)?;
        let region = core.region(self.position);
        let others = core.end - region.size;
        if self.body.len() >= core.counted - others {
            return Err(Refusal::NoRoom);
        }
        Ok(region)
    }

    fn make(&self, core: &mut Core<'_>, region: Region) {
        let end = core.end;
        place(core.buffer, end, region, self.code, self.body);
        core.end_at(end - region.size + 1 + self.body.len());
    }
}

impl Edit for Remove {
    type Found = Region;

    ghost edit = { λ x. remove_edit x.position };

    ghost finds = { λ x c. RegionAt c x.position };

    fn ask(&self, core: &Core<'_>) -> Result<Region, Refusal> {
        core.check_position(self.position, core.count)?;
        Ok(core.region(self.position))
    }

    fn make(&self, core: &mut Core<'_>, region: Region) {
        let end = core.end;
        delete(core.buffer, end, region);
        core.count -= 1;
        core.end_at(end - region.size);
    }
}

// Another header; the payloads stay.
impl Edit for Head<'_> {
    type Found = ();

    ghost edit = { λ x. head_edit (header_of_head x) };

    #[tactic(auto, using(crate::proofs::Heading::head_told))]
    fn ask(&self, core: &Core<'_>) -> Result<(), Refusal> {
        check_map(self.cs, self.map_type, self.map_info)?;
        let room = core.counted - (core.end - core.header);
        if 10 + self.map_info.len() > room {
            return Err(Refusal::NoRoom);
        }
        Ok(())
    }

    fn make(&self, core: &mut Core<'_>, _found: ()) {
        let next = core.first();
        let old = core.header;
        let end = core.end;
        put_header(core.buffer, end, old, next, self);
        core.header = 10 + self.map_info.len();
        core.end_at(end - old + core.header);
    }
}
