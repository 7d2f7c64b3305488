// The numbers of a step's parents: read in order, and changed.

ghost use Rattle.std.specs.Prelude.{◌≡◌, ◌<◌, ◌^◌, ℕ, map};
ghost use Rattle.std.specs.List.{AllByRecursion};
ghost use Rattle.kernel_steps.specs.Lines.{step_parents};
ghost use Rattle.kernel_steps.specs.ParentNumbers.{parents_left, with_parents};

use crate::step::Step;
use plain_types::Numbers;

/// The numbers of a step's parents that are left, as an iterator.
#[derive(Drop)]
pub struct ParentNumbers<'a> {
    first: Option<u64>,
    second: Option<u64>,
    listed: &'a [u64],
}

impl<'a> Iterator for ParentNumbers<'a> {
    ghost use Rattle.std.specs.Iterator.{YieldsFirst, item_count};
    ghost use Rattle.kernel_steps.specs.ParentNumbers.{parents_left};

    type Item = u64;

    ghost next_gives = { YieldsFirst parents_left };

    ghost remaining = { item_count parents_left };

    fn next(&mut self) -> Option<u64> {
        if let Some(parent) = self.first.take() {
            return Some(parent);
        }
        if let Some(parent) = self.second.take() {
            return Some(parent);
        }
        let (parent, others) = self.listed.split_first()?;
        self.listed = others;
        Some(*parent)
    }
}

impl Step {
    /// The numbers of the parents, in order: an input, negate, clausify, component or opposite step has none.
    pub fn parents(&self) -> ParentNumbers<'_>
        ensures { parents_left result ≡ step_parents self.now }
    {
        let (first, second, listed): (Option<u64>, Option<u64>, &[u64]) = match self {
            Step::Para { first, second, .. } => (Some(*first), Some(*second), &[]),
            Step::Refl { parent, .. } | Step::Factor { parent, .. } | Step::Merge { parent, .. } =>
                { (Some(*parent), None, &[]) }
            Step::Split {
                parent,
                definitions,
                ..
            } => (Some(*parent), None, definitions.as_slice()),
            Step::Chain { parents, .. } => (None, None, parents.as_slice()),
            Step::Input(_)
            | Step::Negate(_)
            | Step::Clausify(_)
            | Step::Component(_)
            | Step::Opposite(_) => (None, None, &[]),
        };
        ParentNumbers {
            first,
            second,
            listed,
        }
    }

    /// The step with other numbers for its parents, and nothing else changed. It takes no memory.
    pub fn map_parents<F: Fn(u64) -> u64>(self, number: F) -> Step
        requires { AllByRecursion (F.pre number) (step_parents self) }
        ensures { (to : ℕ → ℕ)
            → ((n m : ℕ) → n < 2 ^ 64 → F.pre number n → F.post number n m → m ≡ to n)
            → result ≡ with_parents to self }
    {
        match self {
            Step::Para {
                first,
                second,
                from,
                from_side,
                into,
                into_side,
                place,
                first_bind,
                second_bind,
            } => Step::Para {
                first: number(first),
                second: number(second),
                from,
                from_side,
                into,
                into_side,
                place,
                first_bind,
                second_bind,
            },
            Step::Refl {
                parent,
                literal,
                bind,
            } => Step::Refl {
                parent: number(parent),
                literal,
                bind,
            },
            Step::Factor {
                parent,
                becomes,
                becomes_side,
                other,
                other_side,
                bind,
            } => Step::Factor {
                parent: number(parent),
                becomes,
                becomes_side,
                other,
                other_side,
                bind,
            },
            Step::Merge {
                parent,
                stays,
                goes,
                bind,
            } => Step::Merge {
                parent: number(parent),
                stays,
                goes,
                bind,
            },
            Step::Split {
                parent,
                definitions,
                parts,
            } => Step::Split {
                parent: number(parent),
                definitions: mapped(definitions, &number),
                parts,
            },
            Step::Chain { parents, pivots } => Step::Chain {
                parents: mapped(parents, &number),
                pivots,
            },
            without_parents => without_parents,
        }
    }
}

/// Other numbers in the places of these.
fn mapped<F: Fn(u64) -> u64>(numbers: Numbers, number: &F) -> Numbers
    requires { AllByRecursion (F.pre number.now) numbers }
    ensures { (to : ℕ → ℕ)
        → ((n m : ℕ) → n < 2 ^ 64 → F.pre number.now n → F.post number.now n m → m ≡ to n)
        → result ≡ map to numbers }
{
    let mut items = numbers.into_vec();
    for index in 0..items.len() {
        items[index] = number(items[index]);
    }
    Numbers::from_vec(items)
}
