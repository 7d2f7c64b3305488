//! The text of a finite model, and what such a model says of the problem.
//!
//! A model that `finite_models` found is one of the clausal form: besides the problem's symbols it has Skolem symbols, naming symbols and
//! maybe a spare constant. These come after the problem's, so what is printed is the beginning of the table (`table.rt`): the size, and a line
//! for each cell of a symbol that the problem has.
//!
//! **What is proved.** The text is exactly the definition's (`model_text`). The interpretation that it shows is one of the problem's symbols, and
//! makes the axioms true and the conjecture false, or each formula where there is no conjecture; and where sizes of the form are ruled out,
//! no interpretation of the problem with such a size does so (`laws.rt`). Both rest on `laws_meaning`, which leads from a problem to its form
//! and back.
//!
//! **Cost.** Linear in the table and the problem.
#![tactic(auto)]

pub mod laws;
mod table;

pub use table::write_model;
