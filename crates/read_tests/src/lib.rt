// Tests of profiles, sheets, verifiers and read.
#![tactic(auto)]

#[cfg(test)]
mod build;
#[cfg(test)]
mod judgements;
#[cfg(test)]
mod profiles;
#[cfg(test)]
mod sheets;
#[cfg(test)]
mod shortest;
#[cfg(test)]
mod verifiers;
