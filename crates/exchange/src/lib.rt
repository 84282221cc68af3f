//! Lists of calls on a draft, messages drafted again, and the whole way of messages from a draft to
//! a station and its archive.
#![tactic(auto)]

mod exchanging;
mod redrafting;
mod runs;

pub use exchanging::{Exchanged, Station, exchange};
pub use redrafting::redraft;
pub use runs::{Made, run};
