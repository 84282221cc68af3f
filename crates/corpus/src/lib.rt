// Reads the published corpus: its files, groups and tests, what each asks of a decoder, and the outcome
// that stands with it. A decoder answers as `Decoder` says; `Second` is the second decoder as one. It
// depends on nothing of the library, so that no outcome that is written by it comes from there.
#![tactic(auto)]

mod answer;
mod call;
mod decoder;
mod group;
mod list;
mod malformed;
mod member;
mod second_answers;
mod second_draft;
mod test;

pub use answer::{Answer, refused};
pub use call::{Call, List, Step};
pub use decoder::{Decoder, Station};
pub use group::{Group, Kind, groups};
pub use list::{expected_steps, list_of};
pub use malformed::Malformed;
pub use member::{bytes, number, text};
pub use second_answers::{Second, rules};
pub use second_draft::{make, steps};
pub use test::{ask, expected};
