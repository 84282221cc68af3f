// Tests of the lines of a script: what each asks for, its call and its bytes.
#![tactic(auto)]

#[cfg(test)]
mod lines;
#[cfg(test)]
mod reads;
