//! The search for a redex: which unit equation rewrites which term of a clause.
//!
//! A unit `s = t` rewrites an instance of `s` to the same instance of `t` where the result is smaller in the term order (Knuth and Bendix
//! 1970). A prover simplifies every clause by its known unit equations, so most terms that are looked at are not redexes, and the search has
//! to say no quickly. This crate finds a redex or shows that there is none; `demodulate` makes the step and repeats it.
//!
//! **The set of units.** `units.rt` keeps unit equations in a map by their numbers. Their sides stand in a discrimination tree (`disc_tree`;
//! McCune 1992), each under a number that tells the unit and the side (`index.rt`). A side is put in only if it can rewrite at all: every
//! variable of the other side occurs in it, and the other side isn't greater. Both are found once, when the unit comes. An equation whose
//! sides are incomparable is put in twice, and the order is asked again at each instance.
//!
//! **The search.** `searching.rt` walks over the literals of a clause, left side before right, and through each side from the inside out, so
//! the arguments of a redex are in normal form when it is found. At each application `trying.rt` asks the tree for the generalisations of the
//! term. For each of them it asks, cheapest first:
//!
//! 1. Is the unit left out (`left_out`), so that no clause rewrites itself? Are the unit's assertions among those of the clause? A unit that
//!    holds only under a component of a split may rewrite only clauses that hold under it too (`usable.rt`).
//! 2. Has the unit more than twice as many symbols as the term? Then the instance of its other side can't be smaller.
//! 3. Does the side match the term, and is the instance of the other side smaller? The instance is never built: it is compared through the
//!    match (`kbo_order`).
//!
//! The first unit that passes is the answer. A term that no unit rewrites is remembered for later searches (`normal_terms.rt`), where queries
//! have several candidates each: the conclusions of one clause share many terms, and after a step the next search meets most terms again.
//! The caller tells for how long the table serves: as long as the same units may be used. `spot.rt` tells what the place of the term adds: a variable may not stand for an atom, and at
//! a side of a positive literal the new term must be smaller than the other side too. Otherwise the unit's instance would not be smaller than
//! the literal that it rewrites, and the clause would not be redundant.
//!
//! `members.rt` asks the other way round: which clauses of a list does one new unit rewrite? It serves backward simplification.
//!
//! **What is proved.** `Rewriters::find` answers a redex of the definition, and none exactly where there is none, whatever the tree holds
//! besides. The tree may hand out too many candidates, each is checked; that it hands out every side that matches is the set's invariant. A
//! redex is stated on terms alone. The law `redexes_are_rewritten` says that redexes are the rewriting steps of the calculus, and the other
//! way round, for every assignment of symbols to functions and predicates under which the clauses are well-formed.
//!
//! **Hints.** In which order the tree lists its candidates decides only which redex is found first. No answer rests on it.
//!
//! **Cost.** One query of the tree for each application in the clause. The size test of step 2 and the stored orientation keep most
//! candidates from being matched. A search takes memory for the path to the term and for the answers of the tree. The table has at most 1,024
//! terms of at most 48 symbols, and is made once it is used.
#![tactic(auto)]

mod descent;
mod index;
pub mod laws;
mod members;
mod normal_terms;
mod searching;
mod spot;
mod trying;
mod units;
mod usable;

pub use members::rewritable;
pub use normal_terms::NormalTerms;
pub use searching::{Found, Rewrite, Rewriters};
pub use units::{Units, is_unit};
pub use usable::is_kept;
