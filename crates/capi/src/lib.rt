// The calls for C. Each calls one function of boundary and states its clauses again;
// include/mikey.h says them in words.
#![tactic(auto)]

mod reads;
mod redrafts;
mod walks;
