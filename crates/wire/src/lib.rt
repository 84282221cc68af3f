// The types that readers and drafters share. What they mean stands in specs/.
#![tactic(auto)]

mod bytes;
mod field;
mod kind;
mod limits;
mod number;
mod refusal;
mod row;
mod slot;
mod words;

pub use bytes::{byte_at, bytes_at, bytes_from};
pub use field::Field;
pub use kind::Kind;
pub use limits::{FIXED_HEADER, LONGEST, LONGEST_SIGNATURE, MOST_PAYLOADS, SAKKE_MESSAGE, VERSION};
pub use number::UnknownNumber;
pub use refusal::{Refusal, Report};
pub use row::{Row, Walked};
pub use slot::Slot;
