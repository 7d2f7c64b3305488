// The inferences of a given clause, with itself and with the clauses of lower positions.

ghost use Rattle.std.specs.Prelude.{◌≡◌, Some, IfOk, slice_get};
ghost use Rattle.bank_clause.specs.Clause.{AreMembersOf, IsMemberOf, clause_at};
ghost use Rattle.partners.specs.Partners.{AreSitesFor};
ghost use Rattle.superpose.specs.Sites.{AreSitesOf};
ghost use Rattle.given_work.specs.Store.{ArePlaced, members_in};
ghost use Rattle.given_work.specs.Meeting.{AreAloneUpTo, AreMetUpTo, before_place};

use crate::store::Store;
use eq_rules::{factorings_up_to, is_enough, resolutions_up_to};
use plain_types::Mem;
use std::alloc::Global;
use superpose::{Inference, Premise, superpositions_up_to};
use term_bank::Bank;

/// Every inference of a told clause with itself, and with the told clauses at lower places, each once; or some first ones of these, as soon as
/// as many are there as are left.
pub(crate) fn inferences_of(
    alloc: Global,
    bank: &Bank,
    store: &Store,
    place: usize,
    given: &Premise<'_>,
    left: u32,
) -> Mem<Vec<Inference>>
    requires placed { ArePlaced store.now }
    requires of_bank { AreMembersOf bank.now (members_in store.now.slots.items) }
    requires given { slice_get store.now.slots.items place ≡ Some (Some given.now.member.now) }
    requires sites { AreSitesFor store.now.partners.mode given.now.member.now given.now.sites.now }
    ensures { IfOk result (λ found. AreMetUpTo left store.now.partners.mode (members_in store.now.slots.items) given.now.member.now.number
        (before_place store.now.slots.items place) found.items) }
{
    let most = Some(left as usize);
    let mut found = alone(alloc, bank, given, most)?;
    if is_enough(most, found.len()) {
        return Ok(found);
    }
    store
        .partners
        .superpositions_up_to(alloc, bank, given, place, most, &mut found)?;
    Ok(found)
}

/// Every inference of a told clause with itself, each once, or some first ones that are enough.
fn alone(
    alloc: Global,
    bank: &Bank,
    given: &Premise<'_>,
    most: Option<usize>,
) -> Mem<Vec<Inference>>
    requires member { IsMemberOf bank.now given.now.member.now }
    requires sites { AreSitesOf (clause_at given.now.member.now.clause) given.now.sites.now }
    ensures { IfOk result (λ found. AreAloneUpTo most given.now.sites.now.mode given.now.member.now found.items) }
{
    let mode = given.sites.mode;
    let resolved = resolutions_up_to(alloc, bank, given.member, mode, most)?;
    let mut found = resolved.into_vec();
    if is_enough(most, found.len()) {
        return Ok(found);
    }
    let factored = factorings_up_to(alloc, bank, given.member, mode, most)?;
    let mut others = factored.into_vec();
    found.append(&mut others)?;
    if is_enough(most, found.len()) {
        return Ok(found);
    }
    let again = Premise {
        member: given.member,
        sites: given.sites,
    };
    superpositions_up_to(alloc, bank, given, &again, most, &mut found)?;
    Ok(found)
}
