// Equal formulas of a problem.

ghost use Rattle.std.specs.Prelude.{◌≡◌, List, IfOk, option_and_then, slice_get};
ghost use Rattle.tptp_tree.specs.declared.problem.Annotated.{Annotated};
ghost use Rattle.tstp_checker.specs.Inputs.{KnowsAll};
ghost use Rattle.tstp_checker.specs.Classes.{same_place, same_at, AreClasses};

use crate::entries::entry_of;
use crate::inputs::Inputs;
use plain_types::Mem;
use std::alloc::Global;
use tptp_tree::Annotated;

/// For each formula of a problem the place of the first that equals it, so that two are compared in constant time, however large they are.
#[derive(Drop)]
pub(crate) struct Classes {
    firsts: Vec<Option<u32>>,
}

impl Classes {
    /// The classes of a problem's formulas. Each is looked up once.
    pub(crate) fn new(alloc: Global, inputs: &Inputs<'_>) -> Mem<Classes>
        requires { KnowsAll inputs.now }
        ensures { IfOk result (AreClasses inputs.now.formulas.now) }
    {
        let mut firsts = Vec::new(alloc);
        for formula in inputs.formulas {
            firsts.push(inputs.place_of(entry_of(formula)))?;
        }
        Ok(Classes { firsts })
    }

    /// Whether the formulas at two places are equal.
    pub(crate) fn same(&self, place: u32, other: u64) -> bool
        ensures { (formulas : List Annotated) → AreClasses formulas self.now → result ≡ same_at formulas place other }
    {
        let first = self.first(u64::from(place));
        let other_first = self.first(other);
        same_place(first, other_first)
    }

    /// The place of the first formula that equals the one at a place.
    fn first(&self, place: u64) -> Option<u32>
        ensures { result ≡ option_and_then (λ first. first) (slice_get self.now.firsts.items place) }
    {
        let first = self.firsts.get(place as usize)?;
        *first
    }
}

/// Whether two places are there and the same.
fn same_place(place: Option<u32>, other: Option<u32>) -> bool
    ensures { result ≡ same_place place other }
{
    match (place, other) {
        (Some(place), Some(other)) => place == other,
        _ => false,
    }
}
