//! Superposition, the rule with two premises (Bachmair and Ganzinger 1994): of `s = t | C` and `D[u]`, where `s` and `u` unify by σ and `u` is
//! no variable, it infers `(C | D[t])σ`. An atom counts as an equation with `$true`, so resolution and paramodulation are cases of it.
//!
//! **When it applies.** Under σ the side `s` isn't below `t`, its literal is strictly eligible in the first clause, and nothing is selected
//! there; the side that has `u` isn't below the other one, and its literal is eligible in the second clause. Where the place is the root of
//! a positive literal, the two other sides must stay different, since the conclusion would be a tautology.
//!
//! **How it is found.** The conditions on one clause alone don't depend on the partner. So a clause's *sites* are found once, when it is
//! activated (`sites.rt`): the sides from which superposition may start, and the places into which it may go, none of them a variable, nor
//! the root of a positive atom. What the order forbids on the clause itself it forbids under each substitution, so no inference starts
//! elsewhere. `settled.rt` notes the sides that are greater under every substitution, as the clause alone tells; for these the order isn't
//! asked again. `superposing.rt` takes one site of each clause. It compares kinds, unifies (`unifier`), asks for sizes, then the order under
//! the unifier, and only then builds the conclusion. `pairing.rt` goes through all pairs of sites of two clauses, or of a clause and a
//! renamed copy of itself; the index of `partners` calls the same function for the pairs that it finds.
//!
//! **Overweight conclusions.** A conclusion, or a premise under the unifier, of over 4,000 symbols isn't built: the inference is `Heavy`, and
//! its name is kept. The unifier's cells tell these sizes without the terms (`Bindings::instance_size`). They are asked for only where the
//! clauses' own sizes don't show that all is small. Where a premise is too large, the clauses alone and sizes tell whether the order allows the
//! inference (`overweight.rt`); only where they leave it open the terms are built, and the answer is out of memory from 2^31 symbols on.
//!
//! **Building.** The variables of a conclusion are numbered by first occurrence in a walk over the premises that builds nothing
//! (`numbering.rt`); so `concluding.rt` builds the conclusion once, by the kernel's rule `para`. The step holds the substitutions, by which
//! `tstp_checker` makes the conclusion again.
//!
//! **What is proved.** `between` and `within` give every superposition of the calculus, each once, with its exact conclusion, or `Heavy`
//! exactly where it is overweight; `superpositions_up_to` gives all of one clause into another, or as many as are asked for. The sites are part
//! of the statement and no hint: a site that is left out would be an inference that is missed. That these inferences suffice for ground
//! instances (lifting) is proved in `laws_calculus`.
//!
//! **Cost.** One unification for each pair of sites whose kinds agree; the order is linear in the sides and is asked under the substitution,
//! without an instance being built.
#![tactic(auto)]

mod concluding;
mod numbering;
mod overweight;
mod pairing;
mod places;
mod settled;
mod sites;
mod superposing;

pub use bank_clause::{Member, Members};
pub use eq_rules::{Inference, Inferences, LiteralSide, Made};
pub use pairing::{between, para_key, push_made, superpositions, superpositions_up_to, within};
pub use settled::SettledSides;
pub use sites::{LiteralPlace, Premise, Sites};
pub use superposing::superposition;

pub mod laws;
