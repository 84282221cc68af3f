// An archive for bench/ alone: lists of calls on a draft, as C hands them. It is no part of the
// interface for C.
#![tactic(auto)]

mod calls;
mod rows;
