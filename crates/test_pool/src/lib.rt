// The tests of batches of the work on given clauses that are given back to a pool, and, since they read problems too, of the forms with which pools begin and
// of the lines that are written of a derivation. They stand apart, since a crate with tests is proved twice, with them and without.
//
// What claims and the answers of the solver are is said by the contracts of `pool_core`, and shown by worked examples in `laws_pool_examples` and by rows
// through real files, in .ci.
#![tactic(auto)]

#[cfg(test)]
mod forms;
#[cfg(test)]
mod inputs;
#[cfg(test)]
mod jobs;
#[cfg(test)]
mod returning;
#[cfg(test)]
mod written;
