// Resolution on names, from parent to parent.

ghost use Rattle.std.specs.Prelude.{◌≡◌, map, option_and_then};
ghost use Rattle.std.specs.Option.{option_map};
ghost use Rattle.kernel_steps.specs.Names.{chained};
ghost use Rattle.kernel_steps.specs.Parents.{all_there};
ghost use Rattle.kernel_steps.specs.Conclusion.{names_at, clause_of_names, verdict_of, IsAnswerTo};

use crate::name_set::NameSet;
use crate::parents::LendsParents;
use crate::step::StepFault;
use fol_base::{Clause, Literals};
use plain_types::{NameLit, Names};
use std::alloc::Global;

/// The conclusion of a chain: from the names of the first parent, resolution on each pivot in turn with the next parent.
/// `Rule` exactly where the condition fails.
pub fn chain<P: LendsParents>(
    alloc: Global,
    parents: &P,
    numbers: &[u64],
    pivots: &[NameLit],
) -> Result<Clause, StepFault>
    ensures { IsAnswerTo (verdict_of (option_map clause_of_names (option_and_then
        (λ nss. chained nss pivots.now)
        (all_there (map (names_at (P.meaning parents.now)) numbers.now))))) result }
{
    if numbers.len() != pivots.len() + 1 {
        return Err(StepFault::Rule);
    }
    let Some(start) = names_of(parents, numbers[0]) else {
        return Err(StepFault::Rule);
    };
    let mut names = NameSet::new(alloc);
    names.put_all(start)?;
    for index in 0..pivots.len() {
        let Some(others) = names_of(parents, numbers[index + 1]) else {
            return Err(StepFault::Rule);
        };
        if !names.resolve(pivots[index], others)? {
            return Err(StepFault::Rule);
        }
    }
    Ok(Clause {
        literals: Literals::new(alloc),
        names: Names::from_vec(names.sorted(alloc)?),
    })
}

/// The names of a parent without literals.
fn names_of<P: LendsParents>(parents: &P, number: u64) -> Option<&[NameLit]>
    ensures { option_map (λ names. names.now) result ≡ names_at (P.meaning parents.entry.now) number }
{
    let parent = parents.parent(number)?;
    if !parent.clause.literals.is_empty() {
        return None;
    }
    Some(parent.clause.names.as_slice())
}
