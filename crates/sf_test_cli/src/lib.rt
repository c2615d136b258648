//! Tests of the command: `words` for its words, `fields`, `consumers` and `targeted` for inputs of
//! [`sf_tool::run`] whose output is known, `lengths` for inputs on both sides of a length or a number
//! at which another way is taken, and `explaining` for what a terminal shows of a refusal.
//! README.md says in which ways each input is read.
#![tactic(auto)]

#[cfg(test)]
mod consumers;
#[cfg(test)]
mod explaining;
#[cfg(test)]
mod fields;
#[cfg(test)]
mod lengths;
#[cfg(test)]
mod rows;
#[cfg(test)]
mod targeted;
#[cfg(test)]
mod words;
