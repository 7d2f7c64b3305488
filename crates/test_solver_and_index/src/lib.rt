// The tests of the solver, of the index trees and of the queue. They stand apart, since a crate with tests is proved twice, with them and without.
#![tactic(auto)]

#[cfg(test)]
mod index_trees;
#[cfg(test)]
mod queue;
#[cfg(test)]
mod solver;
