//! Equality between ground terms: the least congruence that contains given equations, and whether propositional clauses whose names are
//! equations have a model that is a congruence.
//!
//! **Nodes.** The ground terms stand as numbered nodes, each a symbol with the numbers of its arguments (`node.rt`). A numbering of the nodes
//! with classes is a congruence where two nodes with one symbol and with arguments of equal classes have one class (`specs/Congruence`). So
//! nothing here knows terms, and an interpretation is to this crate the numbering of the nodes with their values.
//!
//! **Closing** (Nelson, Oppen, Fast Decision Procedures Based on Congruence Closure, 1980; Downey, Sethi, Tarjan, Variations on the Common
//! Subexpression Problem, 1980). `joining.rt` joins classes: the smaller one takes the number of the greater one, and the nodes that have an
//! argument in it are looked up anew by their signature, the symbol with the classes of the arguments; a pair that is found has to be joined
//! too. So a node changes its class at most log n times. Of all this the proof keeps a single fact:
//! in each congruence that contains the equations, a node and its class, which is a node's number, are one. What is to be joined is a hint.
//! Then `gaps.rt` looks once over all equations and signatures for a pair that was left apart, and `closing.rt` joins it, until there is
//! none. Where the hints are right there is none at the first look.
//!
//! **Keys** (`keys.rt`). Lists of numbers, each by its place, tell which signatures came before. They are lent, since whoever numbers terms asks
//! the same.
//!
//! **Deciding** (`deciding.rt`). The solver answers a model of the clauses. The equations that are true in it are closed, and for each
//! equation that is false in it and among those joined, the clause "not all of these, or this one too" is added, which is true in each
//! congruence (`conflict.rt`). This clause has few equations: `forest.rt` keeps why nodes were joined and proposes those that
//! are needed, which are closed once more as a test. At most one such clause is added for the first model, two for the second, four for
//! the third, and so on. So the models are few where many are needed, and where one clause is enough no more are made. The loop ends since
//! each model that breaks equality is taken away.
//!
//! **Cost.** Closing takes n log n look-ups for n nodes, and two walks over the nodes to test the result.
#![tactic(auto)]

mod closing;
mod conflict;
mod deciding;
mod forest;
mod gaps;
mod joining;
mod keys;
pub mod laws;
mod node;

pub use closing::close;
pub use deciding::has_no_model;
pub use keys::Keys;
pub use node::{Arguments, Classes, Equation, Node};
