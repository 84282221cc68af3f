// The calls on a draft and their answers. What they mean, the plain draft, stands in specs/.
#![tactic(auto)]

mod calls;

pub use calls::{Call, Head, Reply};
