// What a walk tells of a message: a row for each payload, and three numbers. Code and slot are
// numbers here and no enums, since calls take rows of any numbers.
ghost use Rattle.std.specs.Prelude.{◌≡◌, ◌+◌, Some};
ghost use Rattle.wire.specs.Texts.{row_text, walked_text};

use std::fmt;
use std::ops::Range;

/// A payload of a message: its code, its slot, the byte where it starts, and its length in bytes
/// with the next-payload byte.
#[derive(Clone, Copy, PartialEq, Eq, Debug)]
pub struct Row {
    pub code: u8,
    pub slot: u8,
    pub start: u32,
    pub length: u32,
}

impl Row {
    /// A row after the last payload.
    pub const BLANK: Row = Row {
        code: 0,
        slot: 0,
        start: 0,
        length: 0,
    };

    /// Where the payload lies in its message.
    pub fn range(&self) -> Range<usize>
        ensures start { result.start ≡ self.now.start }
        ensures end { result.end ≡ self.now.start + self.now.length }
    {
        let start = self.start as usize;
        start..start + self.length as usize
    }
}

// As programs print it.
impl fmt::Display for Row {
    ghost output = { λ row. Some (row_text row) };

    fn fmt<W: fmt::Write>(&self, f: &mut fmt::Formatter<W>) -> fmt::Result {
        write!(
            f,
            "{} {} {} {}",
            self.code, self.slot, self.start, self.length
        )
    }
}

/// The number of payloads with SIGN, the length of the header, and that of the span: all before the
/// signature.
#[derive(Clone, Copy, PartialEq, Eq, Debug)]
pub struct Walked {
    pub count: usize,
    pub header: usize,
    pub span: usize,
}

// As programs print it.
impl fmt::Display for Walked {
    ghost output = { λ walked. Some (walked_text walked) };

    fn fmt<W: fmt::Write>(&self, f: &mut fmt::Formatter<W>) -> fmt::Result {
        write!(f, "{} {} {}", self.count, self.header, self.span)
    }
}
