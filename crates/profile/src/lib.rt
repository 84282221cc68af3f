// Profiles: what a station takes in a message's fields, and how often and in which order it takes
// payloads.
#![tactic(auto)]

mod admission;
mod any_profile;
mod counts;
mod fixed;
mod interface;
mod refusal;
mod sheet;
mod table;
mod values;

pub use admission::admit;
pub use any_profile::AnyProfile;
pub use fixed::{Fixed, UnknownProfile};
pub use interface::{Bounds, Profile};
pub use refusal::SheetRefusal;
pub use sheet::Sheet;
