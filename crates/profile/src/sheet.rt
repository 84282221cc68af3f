// A sheet: a profile that a station writes as text.
ghost use Rattle.std.specs.Prelude.{◌≡◌, ◌<◌, ◌≤◌, length, replicate};
ghost use Rattle.wire.specs.Answers.{map_ok};
ghost use Rattle.profile.specs.Sheets.{entries_tables, no_entry};
ghost use Rattle.profile.specs.Parsing.{taken, number_in, line_in, is_in_bounds, line_answer, lines_answer, entries_after, Parses};

use crate::fixed::NEVER;
use crate::interface::{Bounds, Profile};
use crate::refusal::SheetRefusal;
use crate::table::entry_or;
use crate::values::sheet_values;
use std::alloc::AllocError;
use std::marker::Model;
use wire::Slot;

// The highest count and the highest rank that a line may give.
const SHEET_MOST: u8 = 24;

const SHEET_RANK: u8 = 24;

// The counts and the rank of a slot.
#[derive(Clone, Copy)]
pub(crate) struct Entry {
    bounds: Bounds,
    rank: u8,
}

const NOTHING: Entry = Entry {
    bounds: NEVER,
    rank: 0,
};

/// A profile that a station writes as text: a line for each slot that may stand, with its least
/// and most count and its rank; a slot without a line never stands.
///
/// Contracts see it as its entries, of slots 0 to 12. No line names slot 0.
#[derive(Drop)]
pub struct Sheet {
    entries: [Entry; 13],
}

impl Model for Sheet {
    ghost use Rattle.std.specs.Prelude.{List};
    ghost use Rattle.profile.specs.declared.sheet.Entry.{Entry};

    ghost Value = { List Entry };

    ghost view = { λ s. s.entries };
}

// By hand, so that a caller knows the copy to be the same sheet.
impl Clone for Sheet {
    ghost use Rattle.std.specs.Prelude.{◌≡◌};
    ghost use Rattle.std.specs.Bool.{⊤};

    ghost is_clone = { λ sheet copy. copy ≡ sheet };

    ghost is_infallible = { λ _. ⊤ };

    fn clone(&self) -> Result<Sheet, AllocError> {
        Ok(Sheet {
            entries: self.entries,
        })
    }
}

// The first line.
const NAMES: [u8; 21] = *b"slot least most rank\n";

#[derive(Clone, Copy)]
pub(crate) struct Line {
    slot: u8,
    entry: Entry,
}

// One digit, or two without a leading zero, and the text after the byte that ends them.
fn number(text: &[u8], end: u8) -> Option<(u8, &[u8])>
    requires { 0 < end }
    ensures { taken result ≡ number_in end text.now }
{
    match text {
        [ones @ b'0'..=b'9', last, rest @ ..] if *last == end => Some((ones - b'0', rest)),
        [tens @ b'1'..=b'9', ones @ b'0'..=b'9', last, rest @ ..] if *last == end => {
            Some(((tens - b'0') * 10 + (ones - b'0'), rest))
        }
        _ => None,
    }
}

// Four numbers, one space between, and a line feed; and the text after them.
fn four(text: &[u8]) -> Option<(Line, &[u8])>
    ensures { taken result ≡ line_in text.now }
{
    let (slot, rest) = number(text, b' ')?;
    let (least, rest) = number(rest, b' ')?;
    let (most, rest) = number(rest, b' ')?;
    let (rank, rest) = number(rest, b'\n')?;
    let bounds = Bounds { least, most };
    let entry = Entry { bounds, rank };
    Some((Line { slot, entry }, rest))
}

impl Line {
    fn is_bounded(self, above: u8) -> bool
        ensures { result ≡ is_in_bounds above self }
    {
        above < self.slot
            && self.slot <= Slot::LAST.number()
            && self.entry.bounds.least <= self.entry.bounds.most
            && self.entry.bounds.most <= SHEET_MOST
            && self.entry.rank <= SHEET_RANK
    }
}

// A line after one with the slot `above`, or after the names, and the text after it. It starts
// at `at`.
fn line_behind(above: u8, at: usize, text: &[u8]) -> Result<(Line, &[u8]), SheetRefusal>
    ensures { map_ok (λ p. (p.0, p.1.now)) result ≡ line_answer above at text.now }
{
    let (line, rest) = four(text).ok_or(SheetRefusal::LineForm(at))?;
    if !line.is_bounded(above) {
        return Err(SheetRefusal::LineBounds(at));
    }
    Ok((line, rest))
}

// The sheet of some lines, in a text that ends at `end`.
fn lines(end: usize, text: &[u8]) -> Result<Sheet, SheetRefusal>
    requires { length text.now ≤ end }
    ensures { result ≡ map_ok (entries_after (replicate 13 no_entry))
        (lines_answer end 0 end text.now) }
{
    let mut entries = [NOTHING; 13];
    let mut above = 0;
    let mut rest = text;
    while !rest.is_empty() {
        let (line, behind) = line_behind(above, end - rest.len(), rest)?;
        entries[line.slot as usize] = line.entry;
        above = line.slot;
        rest = behind;
    }
    Ok(Sheet { entries })
}

impl Sheet {
    /// Reads the text of a sheet: the line `slot least most rank`, and then a line of four numbers
    /// for each slot, in rising order, each line with a line feed.
    ///
    /// Refuses by the first line that is wrong: the names (29), its form (30), its bounds (31).
    pub fn parse(text: &[u8]) -> Result<Sheet, SheetRefusal>
        ensures { Parses text.now result }
    {
        match text.strip_prefix(&NAMES) {
            Some(rest) => lines(text.len(), rest),
            None => Err(SheetRefusal::FirstLine),
        }
    }
}

impl Profile for Sheet {
    ghost tables = { entries_tables };

    fn takes(&self, field: u8, value: u8) -> bool {
        sheet_values(field).hold(value)
    }

    fn bounds(&self, slot: u8) -> Bounds {
        entry_or(&self.entries, slot, NOTHING).bounds
    }

    fn rank(&self, slot: u8) -> u8 {
        entry_or(&self.entries, slot, NOTHING).rank
    }
}
