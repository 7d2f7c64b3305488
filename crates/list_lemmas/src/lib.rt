//! Lemmas on lists, truth values, numbers and results that the proofs of several crates need. There is no code but a worked example.
//!
//! A lemma stands here if it speaks of the library's own notions alone (`++`, `slice_get`, `list_all`, `IfOk`, ..), more than one
//! crate needs it, and the toolchain's library (`rt lemma`) doesn't have it in this form. One module a topic: `Bools`, `Numbers`, `Results`
//! (`Option` and `Result`), `Lists` (lengths, joined lists, texts), `Places` (`slice_get`, `take`, `drop`), `Tests` (`list_all`, `list_any`,
//! `filter`, `find`) and `Members`. It stands on nothing, so any crate may cite it without a longer chain.
#![tactic(auto)]

pub mod laws;
