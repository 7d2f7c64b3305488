// Lines of superpositions at the root, as a cut makes them.

ghost use Rattle.std.specs.Prelude.{◌≡◌, ◌<◌, true, length, IfOk, is_some};
ghost use Rattle.std.specs.List.{AllByRecursion};
ghost use Rattle.fol_base.specs.Clause.{LiteralVariablesBelow};
ghost use Rattle.unit_cutting.specs.Superposing.{IsSuperposed, superposed_under};

use eq_rules::{Renumbering, renamed_terms};
use fol_base::{Clause, LendsLiterals, Position, Side, Terms};
use kernel_steps::{Bound, Line, Step, para};
use plain_types::{Mem, Names};
use std::alloc::Global;

/// A premise with what its variables become, and the side of its literal that takes part.
#[derive(Drop)]
pub(crate) struct Premise<'a, L> {
    pub(crate) number: u64,
    pub(crate) literals: &'a L,
    pub(crate) terms: &'a Terms,
    pub(crate) index: usize,
    pub(crate) side: Side,
}

/// The line of the superposition of the first premise's side onto that of the second, where the terms make the two equal. The variables
/// of what it gives have their numbers already; those of the terms alone get the next.
pub(crate) fn superposition_line<L: LendsLiterals, M: LendsLiterals>(
    alloc: Global,
    first: &Premise<'_, L>,
    second: &Premise<'_, M>,
    numbers: &mut Renumbering,
    names: Names,
) -> Mem<Line>
    requires first_covered { AllByRecursion (LiteralVariablesBelow (length first.now.terms.now)) (L.meaning first.now.literals.now) }
    requires second_covered { AllByRecursion (LiteralVariablesBelow (length second.now.terms.now)) (M.meaning second.now.literals.now) }
    requires applies { is_some (superposed_under first.now.terms.now (L.meaning first.now.literals.now) first.now.index first.now.side
        second.now.terms.now (M.meaning second.now.literals.now) second.now.index second.now.side) ≡ true }
    ensures made { IfOk result (IsSuperposed (L.meaning first.now.literals.now) first.now.terms.now first.now.index first.now.side first.now.number
        (M.meaning second.now.literals.now) second.now.terms.now second.now.index second.now.side second.now.number numbers.old) }
    ensures names { IfOk result (λ line. line.clause.names ≡ names) }
{
    let first_bind = renamed_terms(alloc, numbers, first.terms)?;
    let second_bind = renamed_terms(alloc, numbers, second.terms)?;
    let place = Position::from_vec(Vec::new(alloc));
    let from = first.index as u64;
    let into = second.index as u64;
    let first_bound = Bound {
        literals: first.literals,
        bind: &first_bind,
    };
    let second_bound = Bound {
        literals: second.literals,
        bind: &second_bind,
    };
    match para(
        alloc,
        &first_bound,
        from,
        first.side,
        &second_bound,
        into,
        second.side,
        &place,
    )? {
        None => unreachable!(),
        Some(literals) => Ok(Line {
            step: Step::Para {
                first: first.number,
                second: second.number,
                from,
                from_side: first.side,
                into,
                into_side: second.side,
                place,
                first_bind,
                second_bind,
            },
            clause: Clause { literals, names },
        }),
    }
}
