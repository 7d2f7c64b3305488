// The told clauses that a given clause removes.

ghost use Rattle.std.specs.Prelude.{◌≡◌, ◌++◌, Contains, IfOk, option_to_list};
ghost use Rattle.bank_clause.specs.Clause.{IsMemberOf, clause_at};
ghost use Rattle.given_work.specs.Kept.{IsKept};
ghost use Rattle.given_work.specs.Occurring.{numbers_by_unit};
ghost use Rattle.given_work.specs.Store.{members_in};
ghost use Rattle.given_work.specs.Removing.{AreRemovalsOf, AreTold, HasSimplified, IsConsidered};

use crate::going::removal_of;
use crate::known::Known;
use crate::occurring::push_with_instances;
use bank_clause::Member;
use demodulate::Simplifiers;
use disc_tree::DiscTree;
use fol_base::{LendsLiterals, SIZE_LIMIT};
use kernel_steps::CLAUSE_NUMBERS;
use partners::in_order;
use plain_types::{Mem, Numbers};
use pool_history::{Removal, Removals};
use std::alloc::Global;
use subsume::backward;
use term_bank::Bank;
use unit_cutting::has_one_literal;

/// The removals of the told clauses that a given one simplifies, whose results are split or not.
pub(crate) fn removals_of(alloc: Global, known: &Known<'_>, given: &Member) -> Mem<Removals>
    requires kept { IsKept known.now.bank.now known.now.store.now known.now.sets.now }
    requires told { AreTold (members_in known.now.store.now.slots.items) }
    requires given { Contains (members_in known.now.store.now.slots.items) given.now }
    ensures { IfOk result (AreRemovalsOf known.now.split (members_in known.now.store.now.slots.items) given.now) }
{
    let candidates = candidates_of(alloc, known, given)?;
    let mut removals = Vec::new(alloc);
    for candidate in candidates.as_slice() {
        consider(alloc, known, given.number, *candidate, &mut removals)?;
    }
    Ok(Removals::from_vec(removals))
}

/// The numbers of the told clauses that a given one may simplify, each once: those that it subsumes, and by a unit those in which an instance
/// of a side of it may occur.
fn candidates_of(alloc: Global, known: &Known<'_>, given: &Member) -> Mem<Numbers>
    requires kept { IsKept known.now.bank.now known.now.store.now known.now.sets.now }
    requires given { Contains (members_in known.now.store.now.slots.items) given.now }
    ensures { IfOk result (HasSimplified (members_in known.now.store.now.slots.items) given.now) }
{
    let subsumed = backward(alloc, known.bank, &known.sets.subsumers, given)?;
    let mut found = subsumed.into_vec();
    push_by_unit(known.bank, &known.store.terms, given, &mut found)?;
    Ok(in_order(Numbers::from_vec(found)))
}

/// Adds the numbers of the clauses in which an instance of a side of a unit may occur. Another clause adds none.
fn push_by_unit(bank: &Bank, terms: &DiscTree, given: &Member, found: &mut Vec<u64>) -> Mem<()>
    requires { IsMemberOf bank.now given.now }
    ensures { IfOk result (λ _. found.new.items ≡ found.old.items ++ numbers_by_unit terms.now (clause_at given.now.clause).literals) }
{
    if has_one_literal(&given.clause) {
        let is_small = u64::from(given.clause.size()) < SIZE_LIMIT;
        prove!(is_small);
        let literals = given.clause.lend(bank);
        push_with_instances(terms, literals.literal(0), found)?;
    }
    Ok(())
}

/// Adds the removal of the told clause with a number, if there is one, it is another one than the given clause, and it goes.
fn consider(
    alloc: Global,
    known: &Known<'_>,
    given: u32,
    candidate: u64,
    removals: &mut Vec<Removal>,
) -> Mem<()>
    requires kept { IsKept known.now.bank.now known.now.store.now known.now.sets.now }
    requires told { AreTold (members_in known.now.store.now.slots.items) }
    ensures { let sets = known.now.sets.now in IfOk result (λ _.
        IsConsidered known.now.split (members_in known.now.store.now.slots.items) sets.equations sets.units sets.subsumers
        given candidate removals.old.items removals.new.items) }
{
    if candidate >= CLAUSE_NUMBERS || candidate == u64::from(given) {
        return Ok(());
    }
    let Some(victim) = known.store.partners.premise(candidate as u32) else {
        return Ok(());
    };
    let by = Simplifiers {
        bank: known.bank,
        equations: &known.sets.equations,
        units: &known.sets.units,
        members: &known.sets.subsumers,
        left_out: Some(victim.member.number),
    };
    let gone = removal_of(alloc, &by, known.split, victim.member)?;
    push_gone(removals, gone)?;
    Ok(())
}

/// Adds a removal, if there is one.
fn push_gone(removals: &mut Vec<Removal>, gone: Option<Removal>) -> Mem<()>
    ensures { IfOk result (λ _. removals.new.items ≡ removals.old.items ++ option_to_list gone) }
{
    if let Some(removal) = gone {
        removals.push(removal)?;
    }
    Ok(())
}
