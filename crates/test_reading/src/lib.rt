// The tests of tokens and of entries. Whole problems and derivations are read through real files, in .ci. They stand apart, since a crate with tests is proved twice, with them
// and without.
#![tactic(auto)]

#[cfg(test)]
mod entries;
pub mod limits;
#[cfg(test)]
mod names;
#[cfg(test)]
mod sources;
#[cfg(test)]
mod tokens;
