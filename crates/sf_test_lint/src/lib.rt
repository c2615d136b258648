//! Tests of `sf_lint`: `heads` for inputs of [`sf_lint::run`] whose output is known, `decisions` for
//! those of [`sf_lint::run_with`], and `words` for the words of the command line.
#![tactic(auto)]

#[cfg(test)]
mod decisions;
#[cfg(test)]
mod heads;
#[cfg(test)]
mod words;
