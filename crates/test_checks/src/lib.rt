//! Tests of `check` and `ground` on derivations that are right, and on changed ones.
#![tactic(auto)]

#[cfg(test)]
mod checks;
