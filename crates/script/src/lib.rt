// The lines of a script that drafts a message, without a heap: which call each is, and its bytes.
#![tactic(auto)]

mod call;
mod decoding;
mod line;
mod numbers;
mod reading;
mod words;

pub use line::{Line, Room, parse};
pub use reading::{LineError, ReadLine, read};
