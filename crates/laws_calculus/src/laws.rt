// The laws: each is the contract of a function without arguments and with an empty body.

mod coverage;
mod examples;
mod lifting;
mod on_ground;
mod variants;

pub use coverage::{
    dropped_literals_covered, parts_cover, reduced_away_covered, reductions_compose,
    reductions_covered, reductions_keep, renamed_covered, subsumed_covered, tautologies_covered,
};
pub use examples::{
    closure_examples, covering_example, rewriting_at_a_root, steps_examples,
    superposition_at_a_variable, symbol_examples,
};
pub use lifting::{
    factorings_lift, ground_conclusions_covered, resolutions_lift, superpositions_lift,
};
pub use on_ground::{
    ground_inference_examples, named_on_ground, refused_cuts, refused_factorings,
    refused_resolutions, refused_superpositions,
};
pub use variants::{conclusions_have_variants, variant_examples};
