//! The texts of a pool that has ended: its refutation, its saturated set, and the name of an inference.
//!
//! While the prover runs, a pool keeps of each line its step alone, since most lines are never looked at again and a line's clause is its
//! step's conclusion, or, where the step introduces a name, the part for which the name stands. So a refutation is made again from its steps
//! and the table of parts before it is written (`retrace.rt`):
//!
//! - The steps that the last one needs are found once, by the pass backwards of `tstp_writer` (`cone_of`). The last step is the empty
//!   clause's.
//! - In their order each gets its line: a copy of the step whose parents' numbers become places among the needed lines, found by binary
//!   search, and the clause that the form or the kernel (`kernel_steps::conclusion`) gives for it. Every parent stands before, so its
//!   clause is there already.
//! - A component line has the literals of its name's part, and an opposite line the complement of that part's literal (`introduced.rt`). The
//!   table knows with which part a name came; where that is one ground negative literal, the name stands for its complement.
//! - All lines that are made are needed by the last one, so the text is written without a second search (`refuted.rt`,
//!   `tstp_writer::write_all_lines`).
//!
//! A saturated set is printed as one clause line for each living awake clause, straight from the term bank (`saturation.rt`); an
//! inference that was set aside is printed by its name alone (`key.rt`).
//!
//! **What is proved.** The lines that are made are a refutation, and of *each* derivation that has these steps, and these parts for its
//! names, they are the lines that the last one needs, with the same clauses (`IsRetracing`): so nothing is lost by keeping the steps and the
//! parts alone. What is said of lines, and not of their parents' numbers, carries over (`tests_carry_over`), and the names keep their order; by this the text is an accepted
//! derivation of the problem. `write_steps` says so of any steps of a refutation and any parts; `write_refutation` of those of a pool. The text of a saturated set has exactly the members that the replay of the pool's
//! history has.
//!
//! **Cost.** A byte for each step of the pool; else linear in the refutation, with a logarithm for each parent, and the text.
#![tactic(auto)]

mod introduced;
mod key;
pub mod laws;
mod refuted;
mod retrace;
mod saturation;

pub use key::write_key;
pub use refuted::{write_refutation, write_steps};
pub use retrace::refutation;
pub use saturation::write_saturation;
