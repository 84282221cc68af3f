// A line of the script.
ghost use Rattle.std.specs.Prelude.{◌≡◌, option_map};
ghost use Rattle.script.specs.Lines.{Requests, Asks, request, room_of, spelled_in};
ghost use Rattle.script.specs.Numbers.{number_of};

use crate::numbers::{byte, identifier, number};
use crate::words::first_words;

/// The buffer that a begin asks for.
#[derive(Clone, Copy)]
pub struct Room {
    /// How many bytes it has.
    pub length: usize,
    /// What each of them is at first.
    pub fill: u8,
}

/// What a line asks for. Bytes are still spelled in hexadecimal, and a profile is a name.
#[derive(Clone, Copy)]
pub enum Line<'a> {
    /// Nothing: a line of white space, a comment or both.
    Blank,
    /// A draft in a buffer.
    Begin(Room),
    /// The header of the message.
    Head {
        byte3: u8,
        csb: u32,
        cs: u8,
        map_type: u8,
        map_info: &'a str,
    },
    /// One more payload, by its position, its code and its body.
    Add {
        position: usize,
        code: u8,
        body: &'a str,
    },
    /// Another payload at a position.
    Replace {
        position: usize,
        code: u8,
        body: &'a str,
    },
    /// One payload less.
    Remove {
        position: usize,
    },
    /// SIGN under a profile, with a signature of this length to come.
    Close {
        profile: &'a str,
        sign_type: u8,
        length: usize,
    },
    /// The signature.
    Sign(&'a str),
    /// The draft open again, without SIGN.
    Withdraw,
    /// The end of the draft.
    Release,
}

impl<'a> Line<'a> {
    /// The bytes that its call is given, as they are spelled: two digits each. `-` for a call that
    /// is given none.
    pub fn spelled(&self) -> &'a str
        ensures { result.now ≡ spelled_in (request self.now) }
    {
        match *self {
            Line::Head { map_info, .. } => map_info,
            Line::Add { body, .. } | Line::Replace { body, .. } => body,
            Line::Sign(signature) => signature,
            _ => "-",
        }
    }
}

fn asked_room(length: &str, fill: &str) -> Option<Room>
    ensures { result ≡ room_of (number_of 64 length.now) (number_of 8 fill.now) }
{
    Some(Room {
        length: number(length)?,
        fill: byte(fill)?,
    })
}

// What some words ask for. None where they are no call.
fn line_of<'a>(words: &[&'a str]) -> Option<Line<'a>>
    ensures { Requests words.now (option_map request result) }
{
    Some(match *words {
        [] => Line::Blank,
        ["begin", length, fill] => Line::Begin(asked_room(length, fill)?),
        ["head", byte3, csb, cs, map_type, map_info] => Line::Head {
            byte3: byte(byte3)?,
            csb: identifier(csb)?,
            cs: byte(cs)?,
            map_type: byte(map_type)?,
            map_info,
        },
        ["add", position, code, body] => Line::Add {
            position: number(position)?,
            code: byte(code)?,
            body,
        },
        ["replace", position, code, body] => Line::Replace {
            position: number(position)?,
            code: byte(code)?,
            body,
        },
        ["remove", position] => Line::Remove {
            position: number(position)?,
        },
        ["close", profile, sign_type, length] => Line::Close {
            profile,
            sign_type: byte(sign_type)?,
            length: number(length)?,
        },
        ["sign", signature] => Line::Sign(signature),
        ["withdraw"] => Line::Withdraw,
        ["release"] => Line::Release,
        _ => return None,
    })
}

/// What a line asks for. None where it is no call. A comment may stand alone, or after the last
/// argument of a call; in the place of an argument it is that argument.
pub fn parse(text: &str) -> Option<Line<'_>>
    ensures { Asks text.now (option_map request result) }
{
    let (words, count) = first_words(text);
    line_of(&words[..count])
}
