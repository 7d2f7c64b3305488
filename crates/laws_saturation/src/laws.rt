// Laws of the saturation of a pool: each is the contract of a function without arguments. The proofs stand on those of the laws
// of the calculus.

mod carried;
mod outcomes;

pub use carried::{carried_through, inferences_keep_symbols};
pub use outcomes::{
    fixed_are_refuted_or_spent, heavy_is_named, members_have_met, saturated_has_model,
    saturated_is_saturated,
};
