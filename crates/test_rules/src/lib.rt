// The tests of the bank of terms, of unifying, and of the generating and the simplifying rules. They stand apart and together, since a crate with tests is
// proved twice, with them and without, and each crate of tests proves anew how a bank and a table are dropped.
#![tactic(auto)]

#[cfg(test)]
mod conclusions;
#[cfg(test)]
mod cuts;
#[cfg(test)]
mod interning;
#[cfg(test)]
mod normal_forms;
#[cfg(test)]
mod removals;
#[cfg(test)]
mod samples;
#[cfg(test)]
mod subsumption;
#[cfg(test)]
mod unifying;
