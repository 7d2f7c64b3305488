//! The steps of derivations, and what each step concludes: the kernel on which every proof rests.
//!
//! A derivation is a list of lines. A line has a clause and the step by which it comes: a clause of the clausal form, a conclusion of
//! superposition, equality resolution, equality factoring or merging (Bachmair and Ganzinger 1994, with the unifier written into the
//! step), or one of the four steps of splitting (Voronkov 2014): the definition of a name for a part of a clause, its other half, the
//! split itself, and resolution on names. Steps name their parents by number and literals by place, so a step can be checked without
//! search. `conclusion` is that check: it answers the clause, or which condition fails. The rules `para`, `refl`, `factor` and
//! `merge` are calls of this crate. The prover's inference rules make their conclusions by them, and so does `conclusion`, by which the
//! lines of a text are checked and a pool's refutation is made again.
//!
//! **One definition, many numberings.** The check looks parents up through `LendsParents`, so the rules serve every numbering of
//! parents. There are four, and a line goes through them in this order, from where it is made:
//!
//! | lines of | what the number of a parent is | made into the next by |
//! |---|---|---|
//! | a reduced clause (`Reduced`) | below `CLAUSE_NUMBERS` a clause of the pool; `CLAUSE_NUMBERS` the clause that was handed in; `CLAUSE_NUMBERS + 1 + i` line i of the reduction | `given_work` |
//! | a batch | below `CLAUSE_NUMBERS` a clause of the pool; `CLAUSE_NUMBERS + i` line i of the batch | `pool_core` |
//! | a pool | the place of a line among all lines of the pool | `pool_writer` |
//! | a text | the place of a line among those that the last one needs; it is printed as the line's name `cN`, after the lines of the problem's formulas | `tstp_writer` |
//!
//! `Step::parents` reads the numbers and `Step::map_parents` changes them. An opposite line has no parent by number: it needs the component line of its name.
//!
//! **What is proved.** `conclusion` answers exactly what the definition `verdict` says, with the first fault where there is one. Each
//! rule is sound: an interpretation that makes the parents true makes the conclusion true, where names stand for the parts that they
//! were introduced for. So a derivation that ends in the empty clause has a clausal form without a model (`refutations_refute`), and the
//! ground instances of the form that it uses are refuted alone (`lines_are_grounded`). Other numbers for the parents of a step change
//! its parents alone (`parents_are_mapped`).
//!
//! **Cost.** A check is linear in the parents under their bindings, which may not exceed `MOST_BOUND_SYMBOLS`; a split takes a table of
//! the clause's variables, and names are sorted. `map_parents` takes no memory.
#![tactic(auto)]

mod chain;
mod complementary;
mod conclude;
mod copies;
mod instance;
mod key;
mod marks;
mod name_set;
mod names;
mod parent_numbers;
mod parents;
mod rules;
mod split;
mod step;

pub use complementary::{complement, is_complement};
pub use conclude::{binds, bound_size, conclusion};
pub use key::Key;
pub use marks::{last_marked, marked};
pub use names::sorted_names;
pub use parent_numbers::ParentNumbers;
pub use parents::{LendsParents, ParentRef};
pub use rules::{Bound, factor, merge, para, refl};
pub use step::{CLAUSE_NUMBERS, Derivation, Line, Reduced, Step, StepFault};

pub mod laws;
