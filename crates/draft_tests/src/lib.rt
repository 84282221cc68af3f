// Tests of drafts: their buffers, their edits, how they go out, the calls that each state takes,
// lists of calls, and messages drafted again.
#![tactic(auto)]

#[cfg(test)]
mod buffers;
#[cfg(test)]
mod edits;
#[cfg(test)]
mod exchanges;
#[cfg(test)]
mod measures;
#[cfg(test)]
mod outs;
#[cfg(test)]
mod states;
#[cfg(test)]
mod stations;
