//! Finite models of a clausal form, by size.
//!
//! **The idea** is that of MACE (McCune, A Davis-Putnam Program and Its Application to Finite First-Order Model Search, 1994) and Paradox
//! (Claessen and Sörensson, New Techniques that Improve MACE-style Finite Model Finding, 2003). For a fixed number n of values an
//! interpretation is a finite table, and each question about an entry of it is a propositional name: is v the value of f at these
//! arguments, does p hold at these. So whether the form has a model of size n is a propositional problem, which `sat_core` solves. Sizes are
//! tried from 1 on (`finding.rt`), so the first model is a least one.
//!
//! **From clauses to propositional clauses.** A clause is flattened once, in one walk over its terms (`flattening.rt`): its variables and
//! its terms that aren't variables have *slots*, and its literals become flat ones (`flat.rt`), each of which speaks of the values in
//! slots alone. A term inside a literal gives the literal that its slot has *not* its value; the head of an equation needs no slot, since
//! "f(s) is equal to t" says that the value of t is that of f at the values of s. Then a flat clause is written out for all values in the slots
//! (`instances.rt`); literals that compare two slots are decided at once. Two kinds of clauses make the entries of each function a table
//! (`functions.rt`): some value at each list of arguments, and no two. And since values can be exchanged in a model, the first constant is asked for
//! the value 0, the second for 0 or 1, and so on (`constants.rt`): that leaves out models that differ by the names of values alone.
//!
//! **Names** (`entry_names.rt`). The entries of a symbol have names that stand together, and an entry's place among them is the number of
//! which its values are the digits to the base n (`digits.rt`). The same digits number the lists of arguments and the values in slots, so
//! each of these is gone through by a plain loop over numbers.
//!
//! **What is proved.** `find_model` answers a model exactly with the least size that has one, `NoModel` only where none of the sizes has
//! one, and `TooLarge` exactly by `measure`. No contract speaks of a list of propositional clauses that the code would have to write
//! in some order: what is said of those that a function adds is when a valuation makes them true (`Adds`). Between these conditions and
//! the interpretations stands one relation: the true names are the entries of an interpretation's table. Under it a flat clause is true for all
//! values in its slots exactly where the clause holds. From a model of the propositional clauses the table is read off (`table.rt`). For each
//! model of the form there is one with its constants in order, by exchanges of two values, and the names of its entries make a valuation that
//! is a model of the clauses.
//!
//! **Cost.** A clause of size c with w slots gives at most n^w clauses of at most c literals; a function of k arguments n^k clauses for some
//! value and n^(k+2) / 2 for no two, a constant less than n more. `measure` bounds the sum, and a size over `MOST_MEASURE` isn't tried. So the propositional
//! clauses of a size take no more than 40 bytes for each unit of its measure.
#![tactic(auto)]

mod answer;
mod constants;
mod digits;
mod entry_names;
mod finding;
mod flat;
mod flattening;
mod functions;
mod instances;
pub mod laws;
mod measuring;
mod table;

pub use answer::{Cell, Cells, Found, Interpretation, Values};
pub use finding::{MOST_MEASURE, find_model};
pub use measuring::measure;
