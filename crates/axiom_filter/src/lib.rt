//! Axiom selection: which axioms of a large problem its goals are likely to need.
//!
//! A problem over a library of axioms has far more of them than a proof uses, and each costs the search time. SInE (Hoder and Voronkov, Sine
//! Qua Non for Large Theory Reasoning, 2011) selects by symbols alone, before any clause is made. A symbol that occurs in few formulas says
//! more of them than one that occurs in many. So a formula is *triggered* by its rarest symbols, where a symbol that is up to `tolerance`
//! hundredths as frequent as the rarest one counts as rare too. From the symbols of the goals outwards, level by level, what a reached
//! symbol triggers is taken, and the symbols of what is taken are reached. `depth` levels are gone. `select` keeps the goals, the formulas
//! that are taken, and those without symbols; a problem without a goal is kept whole.
//!
//! **How it is computed.** `numbering.rt` makes rows of numbers of the formulas' symbols. `index.rt` turns the rows into an index from symbols
//! to formulas; the length of a symbol's list is how often it occurs. `triggers.rt` keeps of each list the formulas that the symbol triggers,
//! by the count of each formula's rarest symbol. `walk.rt` goes over the levels with a queue of the symbols that are new at a level:
//! `spread.rt` is its one step, which marks what the rows of some numbers have and gives what had no mark. The same step leads from symbols to
//! formulas and from formulas to symbols. Its invariant is that the queue has what was reached at this level and not before, so that
//! what older symbols trigger is marked already.
//!
//! **The part of a form.** A selection leaves formulas out of the search and not out of the problem. `restrict` gives the clauses of the whole
//! clausal form that come from kept formulas, with their numbers in the form, and `reindex` turns the steps of a derivation from these
//! clauses into those of one from the form (`parts.rt`). So what is printed is a derivation of the problem as it stands.
//!
//! **What is proved.** `select` gives exactly the places that the definition in `specs/Selection.antt` keeps, `restrict` and `reindex` what
//! `specs/Restriction.antt` says. Kernel steps from a part become kernel steps from the form, and a part has all that a pool asks of its
//! inputs where the form has it (`laws.rt`). That little that a proof needs is left out is the experience of the field and no theorem.
//!
//! **Cost.** One look-up in a table for each occurrence of a symbol; all else is linear in the occurrences and, for each level, in what is
//! new at it. No level looks at all formulas again. Some 40 bytes an occurrence are taken at once.
#![tactic(auto)]

mod index;
pub mod laws;
mod numbering;
mod parts;
mod selection;
mod spread;
mod triggers;
mod walk;

pub use parts::{Restricted, reindex, restrict};
pub use selection::select;
