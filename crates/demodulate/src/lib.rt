//! Simplification of one clause by others: it is reduced until no rule applies, and dropped if it is a tautology or subsumed.
//!
//! This is the one place where the simplifying rules meet (Bachmair and Ganzinger 1994). The rules come from the crates below, and each
//! replaces the clause by a smaller one that follows from it and the clauses used:
//!
//! - delete a trivial disequation `t != t`, and merge two equal literals (`unit_cutting`);
//! - rewrite a term by a unit equation (`rewriting` finds the redex; the step is made here);
//! - cut a literal by a unit that contradicts it (`unit_cutting`; E calls it simplify-reflect).
//!
//! **One step.** `stepping.rt` tries the rules in that order, cheapest first, and makes the first that applies. For a rewrite, `line.rt` builds
//! the kernel's line: it is a superposition whose match binds only the unit, with the variables of the result numbered by their first
//! occurrence. `step.rt` appends the line to the reduced clause.
//!
//! **The loop.** `reducing.rt` repeats the step until none applies, or until the clause is a tautology. `normal.rt` does the same with rewriting
//! alone (`normal_form`). `simplifying.rt` is the whole: tautology, loop, then a search for a subsuming clause. Its answer is one of
//! three: a tautology, subsumed by the clause with this number, or reduced. The search (`subsuming.rt`) asks the index of units first, which
//! mostly decides, and then the rest by their features. `simplifiers.rt` has the borrowed view of the sets of known clauses: unit equations,
//! units of either sign, and all members. `left_out` names one clause that is not used, so that a known clause can be simplified again by the
//! others (backward simplification).
//!
//! **What is proved.** Where `reduce` answers `Irreducible`, no reducing step of the definition applies to the result by any clause that may be
//! used; so the tests of each rule are complete, not only sound. Where `simplify` answers `Subsumed`, the clause of that number subsumes the
//! reduced clause, and where it answers `Reduced`, none does. All along the record keeps the invariant of `reduced_clause`.
//!
//! **Termination.** The loop has no bound on its steps. The law `rewriting_ends` gives its measure: the rank of a clause counts, for each
//! side, the smaller ground terms of bounded size in the term order (`specs/Rank.antt`). It falls with each rewrite and is kept when variables
//! are numbered anew; the other rules shorten the clause. The measure exists in the proof alone.
//!
//! **Hints.** The order of the rules, and which of several redexes or units is taken, decide the shape of the result but no clause of a
//! contract.
//!
//! **Cost.** Each step starts from the first rule again, so a clause with n rewrites is searched n + 1 times; but what no unit rewrites is
//! remembered from search to search, and from clause to clause while the same clauses may be used (`memory.rt`). A step costs the search, one
//! new clause and one line. After out of memory the clause is reduced by fewer steps, and its lines still lead to it.
#![tactic(auto)]

mod line;
mod memory;
mod normal;
mod reducing;
mod simplifiers;
mod simplifying;
mod step;
mod stepping;
mod subsuming;

pub use memory::Memory;
pub use normal::normal_form;
pub use reducing::{Reduction, reduce};
pub use simplifiers::Simplifiers;
pub use simplifying::{Simplified, simplify};
pub use step::rewrite_once;
pub use subsuming::subsumer;

pub mod laws;
