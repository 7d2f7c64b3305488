// The laws of the definitions: each is the contract of a function without arguments and with an empty body.

mod examples;
mod grounded;
mod inference;
mod named;
mod names;
mod parents;
mod soundness;
mod symbols;

pub use examples::{
    binding_examples, changed_derivation_examples, definition_examples, derivation_examples,
    key_examples, line_examples, name_examples, number_examples, split_examples, step_examples,
};
pub use grounded::lines_are_grounded;
pub use inference::{
    inference_examples, irreducible_examples, kind_examples, reduction_examples,
    superposition_examples,
};
pub use named::named_inference_examples;
pub use names::names_are_sorted;
pub use parents::parents_are_mapped;
pub use soundness::{
    derivations_are_sound, ground_forms_are_grounded, herbrand_examples, refutations_refute,
    rules_are_sound,
};
pub use symbols::lines_keep_symbols;
