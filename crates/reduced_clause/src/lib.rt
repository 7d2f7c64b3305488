//! A clause under reduction: the clause as it is now, the proof lines that lead to it, and the numbers of the units that they used.
//!
//! Every simplifying rule does the same thing with its result. It adds one line of a kernel step (two for a cut), makes the line's clause the
//! result so far, and notes the unit by which the step was made. The rules stand in crates of their own (`demodulate` for rewriting,
//! `unit_cutting` for the others); the record that they hand on, and what it means, stand here once.
//!
//! **The record.** `Reduced` (of `kernel_steps`) has the result, its lines and the list `used` of clause numbers, each once. A line's parents
//! are numbers: those below `CLAUSE_NUMBERS` are clauses of the pool, `CLAUSE_NUMBERS` is the clause that was handed in, and the lines count
//! on from there (`last_number`). When a batch is made these numbers become numbers of the batch, and later of the pool. `unreduced` and
//! `unreduced_copy` begin with a clause to which nothing was done (`reduced.rt`), and `extend` adds the lines of one step (`extending.rt`).
//!
//! **The invariant** is `IsReduced` (`specs/Reduced.antt`), for the clause that was handed in and a table of the clauses that may be used:
//!
//! - each line is what its step gives from its parents, and the last line is the result;
//! - moves of the calculus lead from the first clause to the result, by the clauses in `used` and by no others;
//! - the terms that the steps bind have no symbols but those of the first clause and of the used ones.
//!
//! The second part is what completeness needs: a move makes the clause smaller, so the old clause is redundant once the new one is there.
//! The first part is what the printed proof needs, and the third keeps its lines within the signature.
//!
//! **What is proved.** The law `moves_extend_reductions`: if the invariant holds and the new lines make one move from the result so far, it
//! holds after `extend`. So a rule proves its own step and nothing about the lines before it. `extend` is all or nothing: after out of memory
//! the record is as before.
//!
//! **Cost.** `extend` copies the new line's clause and appends; the lines before are not touched. `used` is searched from its beginning for
//! each note, since a reduction seldom uses more than a few units.
#![tactic(auto)]

mod extending;
mod reduced;

pub use extending::{extend, last_number};
pub use kernel_steps::Reduced;
pub use reduced::{put_used, unreduced, unreduced_copy};

pub mod laws;
