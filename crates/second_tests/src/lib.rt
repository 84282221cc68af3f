// Tests of the crate `second`: small messages, sheets and drafts written by hand from the pages.
#![tactic(auto)]

#[cfg(test)]
mod decoding;
#[cfg(test)]
mod drafting;
#[cfg(test)]
mod judging;
