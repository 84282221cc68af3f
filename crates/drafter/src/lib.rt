// Drafts of messages in a lent buffer.
#![tactic(auto)]

mod buffer;
mod checks;
mod delivery;
mod edit;
mod form;
mod location;
mod open;
mod out;
mod released;
mod sign;
mod state;
mod states;
mod types;

pub use open::begin;
pub use states::State;
pub use types::{Open, Out, Released};
