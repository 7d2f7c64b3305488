// The laws of the definitions: each is the contract of a function without arguments and with an empty body.

mod canonical;
mod coverage;
mod examples;
mod instances;
mod matching_examples;
mod meaning;
mod order;
mod rules;
mod well_formed;

pub use canonical::{canonical_examples, canonical_forms};
pub use coverage::{coverage_by_more, coverage_composes, coverage_of_instances};
pub use examples::{
    coverage_examples, meaning_examples, order_examples, selection_examples, tree_examples,
};
pub use instances::{
    agreement_of_instances, conclusions_of_instances, ground_instances_of_canonical,
    ground_instances_of_instances, instances_of_instances, places_in_instances,
    replaced_where_there, sizes_of_instances, variables_of_instances,
};
pub use matching_examples::{
    compatible_examples, ground_form_examples, kind_examples, subsumption_examples,
    symbol_examples, unifier_examples, well_formed_examples,
};
pub use meaning::{
    congruence, empty_clause_entailed, entailment_cuts, entailment_of_members, entailment_of_more,
    ground_instances_are_ground, ground_trees_need_a_constant, truth_of_ground_clauses,
    truth_of_instances, values_of_instances,
};
pub use order::{order_equivalences, order_is_total, order_tests_decide};
pub use rules::{rule_examples, side_examples};
pub use well_formed::{
    conclusions_are_well_formed, ground_trees_are_function_terms, terms_are_well_formed,
};
