// What a decoder answers.
use second::Fault;
use std::alloc::{AllocError, Global};
use std::fmt;

/// Taken, with the numbers that are told of it, or refused.
#[derive(Debug, PartialEq, Eq, Drop)]
pub enum Answer {
    /// Of a message the length of the header, that of the span, and the four numbers of each row; of a
    /// sheet a slot, its least, most and rank, twelve times; else bytes.
    Taken(Vec<u64>),
    Refused(Fault),
}

pub fn refused(fault: Fault) -> Answer {
    Answer::Refused(fault)
}

impl Answer {
    /// Bytes that are told.
    pub fn bytes(alloc: Global, bytes: &[u8]) -> Result<Answer, AllocError> {
        let mut numbers = Vec::new(alloc);
        for byte in bytes {
            numbers.push(u64::from(*byte))?;
        }
        Ok(Answer::Taken(numbers))
    }

    /// The number of the refusal, or 0.
    pub fn number(&self) -> u8 {
        match self {
            Answer::Taken(_) => 0,
            Answer::Refused(fault) => fault.number,
        }
    }
}

impl fmt::Display for Answer {
    fn fmt<W: fmt::Write>(&self, f: &mut fmt::Formatter<W>) -> fmt::Result {
        match self {
            Answer::Taken(numbers) => {
                f.write_str("taken")?;
                for number in numbers {
                    write!(f, " {number}")?;
                }
                Ok(())
            }
            Answer::Refused(fault) => {
                let Fault {
                    number,
                    place,
                    detail,
                } = *fault;
                write!(f, "refused {number} {place} {detail}")
            }
        }
    }
}
