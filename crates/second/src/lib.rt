// A second, independent decoder of MIKEY-SAKKE I_MESSAGEs, with the profiles, the key tag, the
// trust list, an encoder and a plain draft. It was written from the pages docs/FORMAT.md, docs/REFUSALS.md,
// docs/PROFILES.md and docs/DRAFTS.md alone, by somebody who had seen no other decoder of this
// repository, and it shares no code with one. Where the two answer differently, a page can be read
// in two ways, or one of them is wrong. It keeps what it reads in vectors and walks over the rest
// of its input by recursion.
//
// It is proved safe: for every input it returns, no index or sum is out of range. It is not proved
// to do what the pages say, nor to be equal to anything: only comparing it with another decoder
// shows that.
#![tactic(auto)]

pub mod draft;
mod encoding;
mod fault;
mod judging;
mod key_tag;
mod kind;
mod message;
mod parts;
mod rules;
mod sessions;
mod sheet;
mod slots;
mod trust;
mod walk;

pub use encoding::encode;
pub use fault::{Failed, Fault};
pub use judging::judge;
pub use key_tag::{check_tag, tag};
pub use message::{Decoded, Message, Payload, Row};
pub use parts::{part, time};
pub use rules::{Field, Limits, Rules};
pub use sheet::Sheet;
pub use trust::TrustList;
pub use walk::decode;
