// Tests of what crosses to C: rows as bytes, numbers, settings and codes.
#![tactic(auto)]

#[cfg(test)]
mod messages;
#[cfg(test)]
mod reads;
#[cfg(test)]
mod walks;
