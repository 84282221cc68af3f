// How far the bodies and sessions of a message reach by their own length fields, the rules inside
// them, and views of headers, sessions and payloads by their fields.
#![tactic(auto)]

mod bodies;
mod body;
mod cursor;
mod encapsulation;
mod extension;
mod header;
mod identity;
mod marked;
mod policy;
mod random;
mod sessions;
mod stamp;

pub use bodies::{body_length, extent};
pub use body::body_of;
pub use cursor::{SessionView, Sessions};
pub use encapsulation::Sakke;
pub use extension::Ext;
pub use header::{HeaderView, header_view};
pub use identity::Idr;
pub use policy::Sp;
pub use random::Rand;
pub use sessions::{info_length, map_fits, sessions_end};
pub use stamp::T;
