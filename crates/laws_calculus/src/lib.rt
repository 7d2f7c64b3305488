//! Laws of the calculus, proved on the definitions alone: what simplification removes stays covered, and ground inferences lift.
//!
//! **Coverage** (`laws/coverage.rt`). A ground clause is covered by a set where finitely many ground instances of its members, none greater
//! than it, entail it (Bachmair and Ganzinger 1994: redundancy). Each simplification of the prover is one law: a clause is covered by the
//! result and the clauses by which it was rewritten, cut, merged or subsumed, and coverage goes through covered clauses. So a clause that
//! was removed stays redundant, whatever is removed later.
//!
//! **Lifting** (`laws/lifting.rt`). Every ground inference among ground instances of clauses is an instance of an inference of the clauses
//! themselves, or its conclusion is covered. Three laws, one a rule: superposition, resolution, factoring. `laws_saturation` puts coverage and
//! lifting together for whole histories.
//!
//! Ordered inferences are counted "each once" by their names; `laws/variants.rt` shows that conclusions don't depend on which most general unifier
//! was taken.
#![tactic(auto)]

pub mod laws;
