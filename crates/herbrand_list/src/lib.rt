//! The ground list of a derivation: the finite list of ground instances of the clausal form that a refutation stands on (Herbrand 1930);
//! and whether an interpretation makes ground clauses true.
//!
//! **Demands** (`specs/Demands`). The last line is demanded as it stands. A demanded line demands its parents, each with the terms that the
//! line's step binds the parent's variables to. Lines are worked from the last to the first, and a demand that is there already doesn't come
//! again. The demanded instances of the lines that bring in clauses of the form are the list (`specs/GroundList`); its weight counts all
//! demanded instances.
//!
//! **The list** (`derivation_list.rt`). `demands.rt` keeps the demands in order of arrival, the places of each line's demands, and a table of the
//! demands as numbers (`codes.rt`) that tells whether one is there. An instance can be far larger than the binding that it comes by, so
//! sizes are told first (`sizes.rt`), and a demand whose instance alone is too heavy is never built (`arriving.rt`, `put_in.rt`; why there may be
//! no list: `fault.rt`). Terms that stand in
//! many demands are built for each. `listing.rt` then reads the list off.
//!
//! **Refuting** (`refuting.rt`). Ground terms become numbered nodes (`terms.rt`), and the equations between them names of propositional clauses
//! (`grounding.rt`); `congruence` decides these. Where they have a model that is a congruence, its classes are the values of an
//! interpretation. `open_clauses.rt` finds clauses that aren't ground.
//!
//! **What is proved.** `ground_list` answers exactly the list of the definition, or the first line that speaks of names, or that the weight is too
//! large. No interpretation makes the list of a refutation true, and each entry is a ground instance of a clause of the form (`laws`).
//! `ground_refuted` answers true exactly where no interpretation makes the clauses true.
//!
//! **Cost.** A list takes time and memory in proportion to the text of the derivation and the weight. How deep terms nest is bounded by
//! the weight alone, and each level of nesting takes room on the stack.
#![tactic(auto)]

mod arriving;
mod codes;
mod demands;
mod derivation_list;
mod fault;
mod grounding;
pub mod laws;
mod listing;
mod open_clauses;
mod put_in;
mod refuting;
mod sizes;
mod terms;

pub use derivation_list::ground_list;
pub use fault::{GroundFault, MOST_WEIGHT};
pub use open_clauses::open_clause;
pub use refuting::ground_refuted;
