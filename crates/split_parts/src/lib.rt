//! The parts into which a clause splits, with their tags and signed names.
//!
//! **Idea.** A clause `C | D` whose literals `C` and `D` share no variables is true under exactly the interpretations that make all of `C`
//! true for all values, or all of `D`. So a prover may go on with `C` alone, under the assumption that `C` is what holds. AVATAR (Voronkov,
//! "AVATAR: The Architecture for First-Order Theorem Provers", CAV 2014) gives each such part a propositional name, keeps the clause as a
//! propositional clause over the names of its parts, and lets a solver choose which of them are asserted. This crate has the two steps
//! that speak of the parts alone: which they are, and how they are called.
//!
//! **Parts.** `components` gives the finest parts of a clause that share no variables, as lists of places. They are the classes of the
//! places under "has a variable in common", which a forest of links computes (Galler and Fischer 1964): `forest.rt` has the classes, each
//! place linked to itself or to a lower one of its class, so that the least place of a class is its root; `parts.rt` walks over the
//! literals with a table of the first place of each variable, and then over the places, which makes the parts in the order of their first
//! literals.
//!
//! **Tags and names.** `NameTable` (`tags.rt`) is a set of parts in the order in which they came: the place of a part is its tag. Two parts
//! are one only if their literals are equal one by one (`X = Y` and `Y = X` are two), so callers hand in canonical clauses. Each tag has a
//! signed name, which is what the solver sees. One ground negative literal has the negative sign and the name of its complement, whichever
//! came first; all other parts have a name of their own and the positive sign. So the solver knows that `p(a)` and `~p(a)` exclude each
//! other. `key.rt` has the part as a key, owned and lent, and the complement of a lent literal as one; `hash.rt` has the hash, and
//! `ground.rt` the test for one ground literal.
//!
//! **Room.** Where a clause is split at a moment when no memory may be taken, the parts are made before (`PartKey::of`) and room is made
//! for them (`reserve`); then `put` gives each its tag as it comes. A part that doesn't come after all is let go, and no tag was spent on
//! it, so that tags are those that the parts would have got one by one.
//!
//! **Invariant.** The list of signed names is that of the parts by the definition (`signed_name`), and the list of first tags has for each
//! name the tag of the part with which it came; there are fewer than 2^32 parts.
//!
//! **Proved.** `components` gives the components by the definition, which are unique. `put` and `name_of` add a part as `with_part` says
//! and answer its tag and whether it is new; `put` always succeeds where there is room. `part`, `signed` and `first_tag` lend what the
//! definitions say. As laws (`laws.rt`): tags and signed names tell parts and stay when others come, complements are opposite, and
//! components meet the condition of the inference step that splits.
//!
//! **Cost.** `components` is linear in the size of the clause but for the inverse of Ackermann's function in the forest, with one look-up
//! for each variable. `put` hashes the part twice, and once more its complement where it is one ground literal; the look-ups take constant
//! time. `part`, `signed` and `first_tag` are one index each, and `names` is a length.
#![tactic(auto)]

mod forest;
mod ground;
mod hash;
mod key;
pub mod laws;
mod parts;
mod tags;

pub use key::PartKey;
pub use parts::components;
pub use tags::NameTable;
