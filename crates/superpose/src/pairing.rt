// All superpositions of one clause into another, or into a renamed copy of itself.

ghost use Rattle.std.specs.Prelude.{◌≡◌, ◌≢◌, ◌<◌, ◌++◌, Some, length, slice_get, IfOk, OnErr};
ghost use Rattle.literal_selection.specs.Mode.{mode_of};
ghost use Rattle.bank_clause.specs.Clause.{clause_at, IsMemberOf};
ghost use Rattle.eq_rules.specs.Inferences.{AreInferencesOf};
ghost use Rattle.superpose.specs.Sites.{AreSitesOf};
ghost use Rattle.superpose.specs.Superposing.{para_key};
ghost use Rattle.superpose.specs.Pairing.{
  AddsSuperpositions,
  AddsSuperpositionsUpTo,
  AddsTried,
  AreInferencesBetween,
  Begins,
  TriesUpTo,
  entry_of,
  is_between,
  is_superposition,
  keys_from,
  pair_keys,
};

use crate::sites::{LiteralPlace, Premise, Sites};
use crate::superposing::superposition;
use bank_clause::Member;
use eq_rules::{Inference, Inferences, LiteralSide, Made, is_enough};
use kernel_steps::Key;
use literal_selection::Selection;
use plain_types::Mem;
use std::alloc::Global;
use term_bank::Bank;

/// Every superposition between two clauses, both ways, each once. The condition is that the numbers differ. Out of memory is also answered where a
/// clause under a unifier has `SIZE_LIMIT` symbols or more.
pub fn between(
    alloc: Global,
    bank: &Bank,
    given: &Member,
    partner: &Member,
    mode: Selection,
) -> Mem<Inferences>
    requires given { IsMemberOf bank.now given.now }
    requires partner { IsMemberOf bank.now partner.now }
    requires differ { given.now.number ≢ partner.now.number }
    ensures { IfOk result (AreInferencesBetween (mode_of mode) given.now partner.now is_between) }
{
    let given_sites = Sites::of_member(alloc, bank, given, mode)?;
    let partner_sites = Sites::of_member(alloc, bank, partner, mode)?;
    let one = Premise {
        member: given,
        sites: &given_sites,
    };
    let other = Premise {
        member: partner,
        sites: &partner_sites,
    };
    let mut found = Vec::new(alloc);
    superpositions(alloc, bank, &one, &other, &mut found)?;
    superpositions(alloc, bank, &other, &one, &mut found)?;
    Ok(Inferences::from_vec(found))
}

/// Every superposition of a clause into a renamed copy of itself, each once. Out of memory is also answered where a clause under a unifier has
/// `SIZE_LIMIT` symbols or more.
pub fn within(alloc: Global, bank: &Bank, given: &Member, mode: Selection) -> Mem<Inferences>
    requires { IsMemberOf bank.now given.now }
    ensures { IfOk result (AreInferencesOf (mode_of mode) given.now is_superposition) }
{
    let sites = Sites::of_member(alloc, bank, given, mode)?;
    let premise = Premise {
        member: given,
        sites: &sites,
    };
    let mut found = Vec::new(alloc);
    superpositions(alloc, bank, &premise, &premise, &mut found)?;
    Ok(Inferences::from_vec(found))
}

/// Adds every superposition of the first clause into the second, each once. After an out-of-memory error the list is as before.
pub fn superpositions(
    alloc: Global,
    bank: &Bank,
    first: &Premise<'_>,
    second: &Premise<'_>,
    found: &mut Vec<Inference>,
) -> Mem<()>
    requires first_member { IsMemberOf bank.now first.now.member.now }
    requires first_sites { AreSitesOf (clause_at first.now.member.now.clause) first.now.sites.now }
    requires second_member { IsMemberOf bank.now second.now.member.now }
    requires second_sites { AreSitesOf (clause_at second.now.member.now.clause) second.now.sites.now }
    requires same_mode { first.now.sites.now.mode ≡ second.now.sites.now.mode }
    ensures tried { IfOk result (λ _. AddsTried (mode_of first.now.sites.now.mode) first.now.member.now second.now.member.now
        (pair_keys (mode_of first.now.sites.now.mode) first.now.member.now second.now.member.now) found.old.items found.new.items) }
    ensures all { IfOk result (λ _. AddsSuperpositions (mode_of first.now.sites.now.mode)
        first.now.member.now second.now.member.now found.old.items found.new.items) }
    ensures err { OnErr result (found.new.items ≡ found.old.items) }
{
    superpositions_up_to(alloc, bank, first, second, None, found)
}

/// As `superpositions`, in the same order, but it stops once the list has as many inferences as are enough.
pub fn superpositions_up_to(
    alloc: Global,
    bank: &Bank,
    first: &Premise<'_>,
    second: &Premise<'_>,
    most: Option<usize>,
    found: &mut Vec<Inference>,
) -> Mem<()>
    requires first_member { IsMemberOf bank.now first.now.member.now }
    requires first_sites { AreSitesOf (clause_at first.now.member.now.clause) first.now.sites.now }
    requires second_member { IsMemberOf bank.now second.now.member.now }
    requires second_sites { AreSitesOf (clause_at second.now.member.now.clause) second.now.sites.now }
    requires same_mode { first.now.sites.now.mode ≡ second.now.sites.now.mode }
    ensures tried { IfOk result (λ _. TriesUpTo most (mode_of first.now.sites.now.mode) first.now.member.now second.now.member.now
        (pair_keys (mode_of first.now.sites.now.mode) first.now.member.now second.now.member.now) found.old.items found.new.items) }
    ensures added { IfOk result (λ _. AddsSuperpositionsUpTo most (mode_of first.now.sites.now.mode)
        first.now.member.now second.now.member.now found.old.items found.new.items) }
    ensures err { OnErr result (found.new.items ≡ found.old.items) }
{
    let count = found.len();
    match push_superpositions(alloc, bank, first, second, most, found) {
        Ok(()) => Ok(()),
        Err(refused) => {
            found.truncate(count);
            Err(refused)
        }
    }
}

/// Adds the superpositions of the first clause into the second until the list has enough. After an out-of-memory error some may have been
/// added.
fn push_superpositions(
    alloc: Global,
    bank: &Bank,
    first: &Premise<'_>,
    second: &Premise<'_>,
    most: Option<usize>,
    found: &mut Vec<Inference>,
) -> Mem<()>
    requires first_member { IsMemberOf bank.now first.now.member.now }
    requires first_sites { AreSitesOf (clause_at first.now.member.now.clause) first.now.sites.now }
    requires second_member { IsMemberOf bank.now second.now.member.now }
    requires second_sites { AreSitesOf (clause_at second.now.member.now.clause) second.now.sites.now }
    requires same_mode { first.now.sites.now.mode ≡ second.now.sites.now.mode }
    ensures tried { IfOk result (λ _. TriesUpTo most (mode_of first.now.sites.now.mode) first.now.member.now second.now.member.now
        (pair_keys (mode_of first.now.sites.now.mode) first.now.member.now second.now.member.now) found.old.items found.new.items) }
    ensures begins { Begins found.old.items found.new.items }
{
    for from in 0..first.sites.from.len() {
        superpositions_from(alloc, bank, first, from, second, most, found)?;
        if is_enough(most, found.len()) {
            return Ok(());
        }
    }
    Ok(())
}

/// Adds the superpositions from one site of the first clause into the second until the list has enough. After an out-of-memory error some
/// may have been added.
fn superpositions_from(
    alloc: Global,
    bank: &Bank,
    first: &Premise<'_>,
    from: usize,
    second: &Premise<'_>,
    most: Option<usize>,
    found: &mut Vec<Inference>,
) -> Mem<()>
    requires first_member { IsMemberOf bank.now first.now.member.now }
    requires first_sites { AreSitesOf (clause_at first.now.member.now.clause) first.now.sites.now }
    requires second_member { IsMemberOf bank.now second.now.member.now }
    requires second_sites { AreSitesOf (clause_at second.now.member.now.clause) second.now.sites.now }
    requires same_mode { first.now.sites.now.mode ≡ second.now.sites.now.mode }
    requires inside { from < length first.now.sites.now.from.items }
    ensures tried { IfOk result (λ _. (s : LiteralSide) → slice_get first.now.sites.now.from.items from ≡ Some s
        → TriesUpTo most (mode_of first.now.sites.now.mode) first.now.member.now second.now.member.now
        (keys_from first.now.member.now.number s second.now.member.now.number second.now.sites.now.into.items) found.old.items found.new.items) }
    ensures begins { Begins found.old.items found.new.items }
{
    let start = first.sites.from[from];
    for into in 0..second.sites.into.len() {
        let made = superposition(alloc, bank, first, from, second, into)?;
        let target = &second.sites.into[into];
        push_made(
            alloc,
            first.member,
            start,
            second.member,
            target,
            made,
            found,
        )?;
        if is_enough(most, found.len()) {
            return Ok(());
        }
    }
    Ok(())
}

/// Adds the inference of a name, if there is one. After an out-of-memory error the list is as before.
pub fn push_made(
    alloc: Global,
    first: &Member,
    from: LiteralSide,
    second: &Member,
    into: &LiteralPlace,
    made: Option<Made>,
    found: &mut Vec<Inference>,
) -> Mem<()>
    ensures ok { IfOk result (λ _.
        found.new.items ≡ found.old.items ++ entry_of (para_key first.now.number from second.now.number into.now) made) }
    ensures err { OnErr result (found.new.items ≡ found.old.items) }
{
    if let Some(result) = made {
        let key = para_key(alloc, first.number, from, second.number, into)?;
        found.push(Inference { key, result })?;
    }
    Ok(())
}

/// The name of the superposition from a side of one clause into a place of another.
pub fn para_key(
    alloc: Global,
    first: u32,
    from: LiteralSide,
    second: u32,
    into: &LiteralPlace,
) -> Mem<Key>
    ensures { IfOk result (λ key. key ≡ para_key first from second into.now) }
{
    Ok(Key::Para {
        first,
        from: from.literal as u64,
        from_side: from.side,
        second,
        into: into.at.literal as u64,
        into_side: into.at.side,
        place: into.place.copy(alloc)?,
    })
}
