// Sheets: profiles that a station writes as text.
ghost use Rattle.std.specs.Prelude.{◌<◌, ◌≤◌, ◌+◌, ◌^◌, length, IfSome, IsTrue};

use crate::fault::Fault;
use crate::rules::Limits;

/// The first line of every sheet.
const TITLE: &[u8; 21] = b"slot least most rank\n";

/// How many slots there are.
const SLOTS: u8 = 12;

/// The most that most and rank may be.
const MOST_COUNT: u8 = 24;

/// A sheet that was read: the limits of the slots 1 to 12 (place 0 stands for no slot).
#[derive(Clone, Copy, Debug)]
pub struct Sheet {
    slots: [Limits; 13],
}

impl Sheet {
    /// Reads a sheet. A text that is none is refused where its first wrong line starts.
    pub fn parse(text: &[u8]) -> Result<Sheet, Fault> {
        let lines = text.strip_prefix(TITLE.as_slice()).ok_or(Fault::at(29, 0))?;
        let names_alone = Sheet {
            slots: [Limits::NEVER; 13],
        };
        names_alone.with_lines(lines, TITLE.len(), 0)
    }

    /// The limits of a slot: 0, 0, 0 for one that has no line.
    pub fn limits(&self, slot: u8) -> Limits {
        self.slots
            .get(usize::from(slot))
            .copied()
            .unwrap_or(Limits::NEVER)
    }

    /// This sheet with the lines of `rest` too, which begins at `start`; their slots rise from
    /// above `last`.
    fn with_lines(self, rest: &[u8], start: usize, last: u8) -> Result<Sheet, Fault>
        requires { start + length rest.now < 2 ^ 64 }
    {
        if rest.is_empty() {
            return Ok(self);
        }
        let line = Line::at_front(rest).ok_or(Fault::at(30, start))?;
        if !line.is_in_bounds() || line.slot <= last {
            return Err(Fault::at(31, start));
        }
        let mut sheet = self;
        sheet.slots[usize::from(line.slot)] = line.limits;
        sheet.with_lines(&rest[line.length..], start + line.length, line.slot)
    }
}

/// A line of four numbers.
#[derive(Clone, Copy)]
struct Line {
    slot: u8,
    limits: Limits,
    /// With its line feed.
    length: usize,
}

impl Line {
    /// The line at the front of `rest`.
    fn at_front(rest: &[u8]) -> Option<Line>
        ensures { IfSome result (λ l. (0 < l.length) × (l.length ≤ length rest.now)) }
    {
        let (slot, after_slot) = number_before(rest, b' ')?;
        let (least, after_least) = number_before(after_slot, b' ')?;
        let (most, after_most) = number_before(after_least, b' ')?;
        let (rank, behind) = number_before(after_most, b'\n')?;
        Some(Line {
            slot,
            limits: Limits { least, most, rank },
            length: rest.len() - behind.len(),
        })
    }

    fn is_in_bounds(&self) -> bool
        ensures { IsTrue result → self.now.slot ≤ 12 }
    {
        let Limits { least, most, rank } = self.limits;
        1 <= self.slot
            && self.slot <= SLOTS
            && least <= most
            && most <= MOST_COUNT
            && rank <= MOST_COUNT
    }
}

/// The number at the front of `text` that `end` ends, and what is after that: one digit, or two of
/// which the first is not 0.
fn number_before(text: &[u8], end: u8) -> Option<(u8, &[u8])>
    ensures { IfSome result (λ r. length r.1.now < length text.now) }
{
    match text {
        [ones @ b'0'..=b'9', mark, behind @ ..] if *mark == end => Some((ones - b'0', behind)),
        [tens @ b'1'..=b'9', ones @ b'0'..=b'9', mark, behind @ ..] if *mark == end => {
            Some(((tens - b'0') * 10 + (ones - b'0'), behind))
        }
        _ => None,
    }
}
