// Copies of steps, and of the names of inferences.

ghost use Rattle.std.specs.Prelude.{◌≡◌, IfOk, IsTrue};
ghost use Rattle.kernel_steps.specs.Lines.{is_on_literals};

use crate::key::Key;
use crate::step::Step;
use plain_types::{Mem, Parts};
use std::alloc::Global;

impl Step {
    /// An equal step.
    pub fn copy(&self, alloc: Global) -> Mem<Step>
        ensures { IfOk result (λ step. step ≡ self.now) }
    {
        match self {
            Step::Input(place) => Ok(Step::Input(*place)),
            Step::Negate(place) => Ok(Step::Negate(*place)),
            Step::Clausify(number) => Ok(Step::Clausify(*number)),
            Step::Component(name) => Ok(Step::Component(*name)),
            Step::Opposite(name) => Ok(Step::Opposite(*name)),
            Step::Split {
                parent,
                definitions,
                parts,
            } => Ok(Step::Split {
                parent: *parent,
                definitions: definitions.copy(alloc)?,
                parts: copied_parts(alloc, parts)?,
            }),
            Step::Chain { parents, pivots } => Ok(Step::Chain {
                parents: parents.copy(alloc)?,
                pivots: pivots.copy(alloc)?,
            }),
            _ => self.copy_on_literals(alloc),
        }
    }

    /// An equal step, of one that concludes from literals.
    fn copy_on_literals(&self, alloc: Global) -> Mem<Step>
        requires { IsTrue (is_on_literals self.now) }
        ensures { IfOk result (λ step. step ≡ self.now) }
    {
        match self {
            Step::Para {
                first,
                second,
                from,
                from_side,
                into,
                into_side,
                place,
                first_bind,
                second_bind,
            } => Ok(Step::Para {
                first: *first,
                second: *second,
                from: *from,
                from_side: *from_side,
                into: *into,
                into_side: *into_side,
                place: place.copy(alloc)?,
                first_bind: first_bind.copy(alloc)?,
                second_bind: second_bind.copy(alloc)?,
            }),
            Step::Refl {
                parent,
                literal,
                bind,
            } => Ok(Step::Refl {
                parent: *parent,
                literal: *literal,
                bind: bind.copy(alloc)?,
            }),
            Step::Factor {
                parent,
                becomes,
                becomes_side,
                other,
                other_side,
                bind,
            } => Ok(Step::Factor {
                parent: *parent,
                becomes: *becomes,
                becomes_side: *becomes_side,
                other: *other,
                other_side: *other_side,
                bind: bind.copy(alloc)?,
            }),
            Step::Merge {
                parent,
                stays,
                goes,
                bind,
            } => Ok(Step::Merge {
                parent: *parent,
                stays: *stays,
                goes: *goes,
                bind: bind.copy(alloc)?,
            }),
            _ => unreachable!(),
        }
    }
}

/// Equal lists of numbers, in order.
fn copied_parts(alloc: Global, parts: &Parts) -> Mem<Parts>
    ensures { IfOk result (λ copied. copied ≡ parts.now) }
{
    let mut copied = Parts::new(alloc);
    for part in parts.as_slice() {
        copied.push(part.copy(alloc)?)?;
    }
    Ok(copied)
}

impl Key {
    /// An equal name.
    pub fn copy(&self, alloc: Global) -> Mem<Key>
        ensures { IfOk result (λ key. key ≡ self.now) }
    {
        match self {
            Key::Para {
                first,
                from,
                from_side,
                second,
                into,
                into_side,
                place,
            } => Ok(Key::Para {
                first: *first,
                from: *from,
                from_side: *from_side,
                second: *second,
                into: *into,
                into_side: *into_side,
                place: place.copy(alloc)?,
            }),
            Key::Refl { clause, literal } => Ok(Key::Refl {
                clause: *clause,
                literal: *literal,
            }),
            Key::Factor {
                clause,
                becomes,
                becomes_side,
                other,
                other_side,
            } => Ok(Key::Factor {
                clause: *clause,
                becomes: *becomes,
                becomes_side: *becomes_side,
                other: *other,
                other_side: *other_side,
            }),
            Key::Replaced(clause) => Ok(Key::Replaced(*clause)),
        }
    }
}
