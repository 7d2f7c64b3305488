// Inferences by name, with what becomes of each.

ghost use Rattle.std.specs.Prelude.{◌≡◌};
ghost use Rattle.eq_rules.specs.Inferences.{is_enough};

use fol_base::Clause;
use kernel_steps::{Key, Step};
use plain_types::Sequence;

/// The result of an inference.
#[derive(Drop)]
pub enum Made {
    /// The step, whose parents are the numbers of the premises, and its conclusion.
    Conclusion(Step, Clause),
    /// A premise under the unifier, or the conclusion, has over `MOST_SYMBOLS` symbols, so the inference is set aside.
    Heavy,
}

/// An inference, by its name.
#[derive(Drop)]
pub struct Inference {
    pub key: Key,
    pub result: Made,
}

/// Inferences, in order.
pub type Inferences = Sequence<Inference>;

/// Whether a count is enough, where a number is asked for. Where none is, no count is.
pub fn is_enough(most: Option<usize>, count: usize) -> bool
    ensures { result ≡ is_enough most count }
{
    match most {
        None => false,
        Some(most) => most <= count,
    }
}
