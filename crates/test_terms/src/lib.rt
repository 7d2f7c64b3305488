// The tests of terms, of the steps of derivations, of the order and of selection. They stand apart, since a crate with tests is proved twice, with
// them and without.
#![tactic(auto)]

pub mod limits;
#[cfg(test)]
mod order;
pub mod plain;
#[cfg(test)]
mod selection;
#[cfg(test)]
mod steps;
#[cfg(test)]
mod terms;
