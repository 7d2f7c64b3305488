//! Unification (Robinson 1965) and matching of terms.
//!
//! **Two ways.** Nearly all terms that a prover unifies are small, and most pairs don't unify at all. So `unify` first walks down both terms
//! side by side and notes what each variable must be equal to (`agreeing.rt`). The equations lie in a small array and take no memory; each is
//! forced, so the walk may stop at the first clash. Where no variable contains itself the equations are resolved into terms
//! (`resolving.rt`). The walk gives up, without an answer, at terms that are too deep, at too many variables, and after a fixed number of
//! steps, since following bindings again and again takes exponential time on some terms.
//!
//! Such terms go the second way (`solving.rt`), unification closure (Huet 1976): both terms are laid out as a list of cells in which each
//! variable has one cell (`layout.rt`); classes of cells that must be equal are closed under their parts (`classes.rt`, `joining.rt`); then
//! the classes are put into an order in which parts come first (`placing.rt`), which fails exactly where a variable would contain itself. Its
//! time is polynomial, whatever the terms.
//!
//! **What is kept.** A solution is the list of cells with the place of each variable (`solution.rt`). Common parts are shared, so it is never
//! larger than what was laid out, while the terms themselves may be exponentially larger. `Bindings` tells the size of an instance from the
//! cells (`sizes.rt`): the generating rules ask it before they build anything.
//!
//! **Matching** (`matching.rt`). `match_onto` extends a list of pairs, each a variable and a borrowed subterm of the target; no term is copied.
//!
//! **What is proved.** `unify` gives a most general unifier, or none exactly where no unifier exists, with the variables of the two sides
//! taken apart or not. `match_onto` gives the matcher with these pairs, or none exactly where no matcher has them. Which of the two ways is
//! taken is a matter of speed alone.
#![tactic(auto)]

mod agreeing;
mod attempt;
mod bindings;
mod cells;
mod clash;
mod classes;
mod equation;
mod equations;
mod joining;
mod layout;
mod matched;
mod matching;
mod naming;
mod placing;
mod resolving;
mod sizes;
mod solution;
mod solving;
mod substs;
mod unifying;

pub use bindings::Bindings;
pub use matched::Matched;
pub use matching::match_onto;
pub use unifying::unify;

pub mod examples;
pub mod laws;
