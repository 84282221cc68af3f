// A line of the script, read with its bytes.
ghost use Rattle.std.specs.Prelude.{Some};
ghost use Rattle.script.specs.Lines.{request};
ghost use Rattle.script.specs.Reads.{Reads, ReadsBytes};

use crate::decoding::decode;
use crate::line::{Line, parse};

/// Why a line is not read. They are asked in this order.
#[derive(Clone, Copy, PartialEq, Eq, Debug)]
pub enum LineError {
    /// It is no call.
    NoCall,
    /// The scratch is too short for its bytes.
    NoRoom,
    /// Its bytes are not spelled in pairs of hexadecimal digits.
    Spelling,
}

/// A line, and how many bytes at the front of the scratch are its own.
#[derive(Clone, Copy)]
pub struct ReadLine<'a> {
    /// What the line asks for.
    pub line: Line<'a>,
    /// How many bytes it spells.
    pub length: usize,
}

impl<'a> Line<'a> {
    /// Reads the bytes of a line that is parsed: they are written at the front of the scratch.
    /// The rest of the scratch stays as it was, and all of it where the line is not read: where it
    /// is too short, or else where the bytes are not spelled in pairs of hexadecimal digits.
    pub fn read(self, scratch: &mut [u8]) -> Result<ReadLine<'a>, LineError>
        ensures { ReadsBytes (Some (request self.entry)) scratch.old scratch.new result }
    {
        let length = decode(self.spelled(), scratch)?;
        Ok(ReadLine { line: self, length })
    }
}

/// Reads a line: what it asks for, and its bytes, which are written at the front of the scratch.
/// The rest of the scratch stays as it was, and all of it where the line is not read.
pub fn read<'a>(text: &'a str, scratch: &mut [u8]) -> Result<ReadLine<'a>, LineError>
    ensures { Reads text.now scratch.old scratch.new result }
{
    let line = parse(text).ok_or(LineError::NoCall)?;
    line.read(scratch)
}
