// Numbers that stand for things, where a message or a caller gives one.
ghost use Rattle.std.specs.Prelude.{Some};
ghost use Rattle.wire.specs.Texts.{unknown_number_text};

use std::fmt;

/// A number that stands for nothing there is.
#[derive(Clone, Copy, PartialEq, Eq, Debug)]
pub struct UnknownNumber {
    pub number: u8,
}

impl fmt::Display for UnknownNumber {
    ghost output = { λ unknown. Some (unknown_number_text unknown.number) };

    fn fmt<W: fmt::Write>(&self, f: &mut fmt::Formatter<W>) -> fmt::Result {
        write!(f, "nothing has the number {}", self.number)
    }
}

impl std::error::Error for UnknownNumber {}
