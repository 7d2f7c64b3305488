// The parents of steps, which are looked up by number.

ghost use Rattle.std.specs.Prelude.{◌≡◌};
ghost use Rattle.std.specs.Option.{option_map};
ghost use Rattle.kernel_steps.specs.Parents.{Parents, parent_of};

use crate::step::{Derivation, Step};
use fol_base::Clause;

/// A clause that a rule may use, lent, and whether it comes from a component or opposite line.
#[derive(Clone, Copy)]
pub struct ParentRef<'a> {
    pub clause: &'a Clause,
    pub introduces: bool,
}

/// A lender of the parents of steps by their numbers: the lines of a text, those of a pool, the clauses and
/// lines of a batch.
pub trait LendsParents {
    /// The parent of each number.
    ghost meaning: { Self → Parents };

    /// The parent of a number. None where there is no clause of that number that a rule may use.
    fn parent(&self, number: u64) -> Option<ParentRef<'_>>
        ensures { option_map parent_of result ≡ meaning self.now number };
}

impl LendsParents for Derivation {
    ghost use Rattle.kernel_steps.specs.Derivation.{line_parents};

    ghost meaning = { line_parents };

    fn parent(&self, number: u64) -> Option<ParentRef<'_>> {
        let line = self.as_slice().get(number as usize)?;
        if !line.step.is_clause_step() {
            return None;
        }
        Some(ParentRef {
            clause: &line.clause,
            introduces: line.step.introduces_name(),
        })
    }
}
