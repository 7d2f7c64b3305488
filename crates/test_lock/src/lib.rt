// The tests of the turn lock, in the form of a crate that stands on it. They stand apart, since a crate with tests is proved twice, with them and without.
#![tactic(auto)]

#[cfg(test)]
mod notes;
#[cfg(test)]
mod pairs;
