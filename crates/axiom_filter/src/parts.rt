// The part of a form that comes from kept formulas, and the steps of derivations from it.

ghost use Rattle.std.specs.Prelude.{◌≡◌, ℕ, map, IfOk, IsTrue, nat_eq};
ghost use Rattle.std.specs.HashSet.{contains};
ghost use Rattle.fol_base.specs.Literal.{clause_of};
ghost use Rattle.axiom_filter.specs.Restriction.{beside, kept_clauses, kept_numbers, names_entry, reindexed_step as step_reindexed, NameEntries};
ghost use Rattle.axiom_filter.specs.Places.{places_from};
ghost use Rattle.axiom_filter.specs.Tables.{has_number};

use fol_base::{Clause, Clauses};
use kernel_steps::Step;
use plain_types::{Mem, Numbers};
use std::alloc::Global;
use std::collections::HashSet;

/// A part of a form: clauses, and their numbers in the form.
#[derive(Drop)]
pub struct Restricted {
    pub clauses: Clauses,
    pub numbers: Numbers,
}

/// The clauses of a form whose origin is kept, in the form's order. An origin is the place of the formula from which a clause comes.
pub fn restrict(
    alloc: Global,
    clauses: &Clauses,
    origins: &Numbers,
    kept: &Numbers,
) -> Mem<Restricted>
    ensures clauses { IfOk result (λ part. map clause_of part.clauses ≡ kept_clauses kept.now origins.now (map clause_of clauses.now)) }
    ensures numbers { IfOk result (λ part. part.numbers ≡ kept_numbers kept.now origins.now) }
{
    let origins = origins.as_slice();
    let kept = number_set(alloc, kept.as_slice())?;
    let numbers = numbers_kept(alloc, origins, &kept)?;
    let clauses = clauses_kept(alloc, origins, clauses.as_slice(), &kept)?;
    Ok(Restricted { clauses, numbers })
}

/// Steps with the numbers of their clausify steps looked up: number i becomes entry i.
pub fn reindex(alloc: Global, steps: &[Step], numbers: &Numbers) -> Mem<Vec<Step>>
    requires { NameEntries numbers.now steps.now }
    ensures { IfOk result (λ made. made.items ≡ map (step_reindexed numbers.now) steps.now) }
{
    let numbers = numbers.as_slice();
    let mut made = Vec::with_capacity(alloc, steps.len())?;
    for step in steps {
        made.push(reindexed_step(alloc, step, numbers)?)?;
    }
    Ok(made)
}

/// A step whose number, where it is a clausify step, is looked up.
fn reindexed_step(alloc: Global, step: &Step, numbers: &[u64]) -> Mem<Step>
    requires { IsTrue (names_entry numbers.now step.now) }
    ensures { IfOk result (λ made. made ≡ step_reindexed numbers.now step.now) }
{
    match step {
        Step::Clausify(number) => Ok(Step::Clausify(numbers[*number as usize])),
        _ => step.copy(alloc),
    }
}

/// The numbers of a list as a set.
fn number_set(alloc: Global, numbers: &[u64]) -> Mem<HashSet<u64>>
    ensures { IfOk result (λ set. (n : ℕ) → contains nat_eq set n ≡ has_number n numbers.now) }
{
    let mut set = HashSet::new(alloc);
    for number in numbers {
        set.insert(*number)?;
    }
    Ok(set)
}

/// The places of the origins that are kept, rising.
fn numbers_kept(alloc: Global, origins: &[u64], kept: &HashSet<u64>) -> Mem<Numbers>
    ensures { IfOk result (λ numbers. numbers ≡ places_from 0 (contains nat_eq kept.now) origins.now) }
{
    let mut numbers = Numbers::new(alloc);
    for number in 0..origins.len() {
        if kept.contains(&origins[number]) {
            numbers.push(number as u64)?;
        }
    }
    Ok(numbers)
}

/// Copies of the clauses whose origin is kept.
fn clauses_kept(
    alloc: Global,
    origins: &[u64],
    clauses: &[Clause],
    kept: &HashSet<u64>,
) -> Mem<Clauses>
    ensures { IfOk result (λ made. map clause_of made ≡ beside (contains nat_eq kept.now) origins.now (map clause_of clauses.now)) }
{
    let mut made = Clauses::new(alloc);
    for number in 0..origins.len().min(clauses.len()) {
        if kept.contains(&origins[number]) {
            made.push(clauses[number].copy(alloc)?)?;
        }
    }
    Ok(made)
}
