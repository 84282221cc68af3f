// Verifiers: who passes a signature over a span, in the name of a signer.
#![tactic(auto)]

mod compare;
mod few;
mod interface;
mod key_tag;
mod pinned;
mod refusal;
mod signers;
mod trust_list;

pub use compare::{same_bytes, same_identity};
pub use interface::Verifier;
pub use key_tag::KeyTag;
pub use pinned::Pinned;
pub use refusal::TrustRefusal;
pub use trust_list::TrustList;
