// What crosses to C, and what it means: numbers and bytes alone. The exports of capi call one
// function of this crate each.
#![tactic(auto)]

mod fault;
mod reading;
mod redrafting;
mod rows;
mod settings;
mod times;
mod walking;

pub use fault::Fault;
pub use reading::{read_fixed, read_sheet};
pub use redrafting::{redraft_fixed, redraft_sheet};
pub use rows::{ROW_BYTES, TABLE_BYTES};
pub use times::time_bytes;
pub use walking::walk_bytes;
