// A refusal as it is told, and what can end a call early.
use std::alloc::{AllocError, AllocFailed};

/// A refusal: its number, its place in the message, and its detail.
#[derive(Clone, Copy, Debug, PartialEq, Eq)]
pub struct Fault {
    pub number: u8,
    pub place: usize,
    pub detail: u8,
}

impl Fault {
    /// A refusal with no detail.
    pub fn at(number: u8, place: usize) -> Fault {
        Fault {
            number,
            place,
            detail: 0,
        }
    }

    /// A refusal that tells no place, as those of what is offered to a draft.
    pub fn of(number: u8) -> Fault {
        Fault::at(number, 0)
    }
}

/// Why there is no answer: what was handed over is refused, or memory ran out.
#[derive(Debug, Drop)]
pub enum Failed {
    Refused(Fault),
    Memory(AllocError),
}

impl From<Fault> for Failed {
    fn from(fault: Fault) -> Failed {
        Failed::Refused(fault)
    }
}

impl From<AllocError> for Failed {
    fn from(error: AllocError) -> Failed {
        Failed::Memory(error)
    }
}

impl<T: Drop> From<AllocFailed<T>> for Failed {
    fn from(error: AllocFailed<T>) -> Failed {
        Failed::Memory(AllocError::from(error))
    }
}
