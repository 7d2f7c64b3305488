// The laws: each is the contract of a function without arguments and with an empty body.

mod examples;
mod meaning;

pub use examples::{
    conjecture_examples, consequence_examples, extension_examples, hiding_examples,
    interpretation_examples, open_examples, satisfiability_examples,
};
pub use meaning::{
    accepted_derivations_prove, forms_return, meaning_of_symbols, models_extend,
    refuted_axioms_are_unsatisfiable, refuted_conjectures_follow, refuted_problems_have_no_model,
};
