// Laws and worked examples of the definitions: each is the contract of a function with an empty body.

mod form_examples;
mod naming_examples;
mod prefixes;
mod problem_examples;
mod skolem_counts;
mod truth_examples;

pub use form_examples::{
    connective_examples, equation_examples, scope_examples, skolem_examples, truth_value_examples,
};
pub use naming_examples::{
    large_product_examples, name_arguments_examples, names_of_names_examples,
};
pub use prefixes::{prefix_examples, prefix_is_least};
pub use problem_examples::{entry_examples, names_of_problem_examples};
pub use skolem_counts::skolem_symbols_are_counted;
pub use truth_examples::{
    connective_truth_examples, equation_truth_examples, formula_truth_examples,
    hidden_truth_examples, problem_truth_examples,
};
