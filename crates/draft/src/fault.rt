// Why the call of a line is not made.
use anyhow::anyhow;
use script::LineError;
use std::alloc::AllocError;
use std::io;
use thiserror::Error;

#[derive(Debug, Drop, Error)]
pub enum Fault {
    #[error("no call")]
    NoCall,
    #[error(transparent)]
    Io(#[from] io::Error),
}

impl Fault {
    // As the script tells it.
    pub fn at_line(self, number: usize, text: &str) -> anyhow::Error {
        match self {
            Fault::NoCall => anyhow!("line {number} is no call: {text}"),
            Fault::Io(error) => error.into(),
        }
    }
}

// There is room for the bytes of every line, and wrong digits make it no call.
impl From<LineError> for Fault {
    fn from(_error: LineError) -> Fault {
        Fault::NoCall
    }
}

impl From<AllocError> for Fault {
    fn from(error: AllocError) -> Fault {
        Fault::Io(error.into())
    }
}
