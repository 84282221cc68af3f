// Tests of walk, lookup and time, and of the numbers and words of wire: tables, a row a case.
#![tactic(auto)]

#[cfg(test)]
mod build;
#[cfg(test)]
mod numbers;
#[cfg(test)]
mod prefixes;
#[cfg(test)]
mod tests;
#[cfg(test)]
mod views;
