//! Laws of what a clausal form means in finite interpretations, proved on the definitions alone.
//!
//! They lead from a problem's formulas to its clausal form and back. `specs/Meaning.antt` has what is said, `specs/Laws.antt` the laws. In
//! the proofs a symbol's values are a function of lists of values (`AboutStructures`), and each work of the definition of the form comes
//! to an outcome (`AboutWork`): from a structure in which all was true so far, one that differs only at the symbols that the work makes,
//! and in which its clauses are true wherever the formula is. Quantifiers, products with names, and works one after another have a lemma
//! each, and the induction on the formula puts these together. `AboutReturn` goes the way back, where the structure stays as it
//! is, and what has to be kept apart are the variables of the two lists of a product. `AboutForms` goes through the formulas of a problem,
//! makes a table of the structure, and draws the consequences.
#![tactic(auto)]

pub mod laws;
