// The laws of the definitions, and worked examples: each is the contract of a function without arguments and with an empty body.

mod retracing;
mod saturation;

pub use retracing::{refuting_steps_go_back, retracing_examples, tests_carry_over};
pub use saturation::printed_member_examples;
