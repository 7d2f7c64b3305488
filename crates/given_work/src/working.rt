// The work on a given clause: the batch for its ticket.

ghost use Rattle.std.specs.Prelude.{◌≡◌, Some, IfOk, IsTrue, slice_get};
ghost use Rattle.kernel_steps.specs.Split.{has_number};
ghost use Rattle.bank_clause.specs.Clause.{AreMembersOf, clause_at};
ghost use Rattle.subsume.specs.Members.{numbers_of};
ghost use Rattle.partners.specs.Partners.{AreSitesFor};
ghost use Rattle.given_work.specs.Kept.{IsKept};
ghost use Rattle.given_work.specs.Store.{members_in};
ghost use Rattle.given_work.specs.Meeting.{before_place};
ghost use Rattle.given_work.specs.Removing.{AreTold};
ghost use Rattle.given_work.specs.Working.{IsMetBy, IsRightUnder, IsRightWorkOf};

use crate::entries::entries_of;
use crate::going::removal_of;
use crate::index::Index;
use crate::inferences::inferences_of;
use crate::known::Known;
use crate::removing::removals_of;
use demodulate::Simplifiers;
use plain_types::Mem;
use pool_history::{Batch, Removals, Ticket, Work};
use std::alloc::Global;
use superpose::Premise;
use term_bank::Bank;

/// The batch for the ticket of a given clause, by an index that was told the clauses that are told for it.
pub fn work(alloc: Global, bank: &Bank, ticket: &Ticket, index: &Index) -> Mem<Batch>
    requires of_bank { AreMembersOf bank.now index.now.members }
    requires told { AreTold index.now.members }
    requires given { IsTrue (has_number ticket.now.number (numbers_of index.now.members)) }
    ensures job { IfOk result (λ batch. batch.job ≡ ticket.now.job) }
    ensures work { IfOk result (λ batch. IsRightUnder index.now.options index.now.members ticket.now.number ticket.now.left batch.work) }
{
    let work = index.work_on(alloc, bank, ticket.number, ticket.left)?;
    Ok(Batch {
        job: ticket.job,
        work,
    })
}

impl Index {
    /// The work on the clause of a number.
    fn work_on(&self, alloc: Global, bank: &Bank, number: u32, left: u32) -> Mem<Work>
        requires of_bank { AreMembersOf bank.now self.now.members }
        requires told { AreTold self.now.members }
        requires given { IsTrue (has_number number (numbers_of self.now.members)) }
        ensures { IfOk result (IsRightUnder self.now.options self.now.members number left) }
    {
        let known = Known {
            bank,
            store: &self.store,
            sets: &self.sets,
            split: self.options.split,
        };
        let work = work_in(alloc, &known, number, left)?;
        Ok(work)
    }
}

/// The work on the clause of a number.
fn work_in(alloc: Global, known: &Known<'_>, number: u32, left: u32) -> Mem<Work>
    requires kept { IsKept known.now.bank.now known.now.store.now known.now.sets.now }
    requires told { AreTold (members_in known.now.store.now.slots.items) }
    requires given { IsTrue (has_number number (numbers_of (members_in known.now.store.now.slots.items))) }
    ensures { let store = known.now.store.now in IfOk result
        (IsRightWorkOf known.now.split store.partners.mode (members_in store.slots.items) number left) }
{
    let Some(place) = known.store.partners.position(number) else {
        unreachable!();
    };
    let Some(given) = known.store.partners.premise(number) else {
        unreachable!();
    };
    let work = work_at(alloc, known, place, &given, left)?;
    Ok(work)
}

/// The work on the clause at a place.
fn work_at(
    alloc: Global,
    known: &Known<'_>,
    place: usize,
    given: &Premise<'_>,
    left: u32,
) -> Mem<Work>
    requires kept { IsKept known.now.bank.now known.now.store.now known.now.sets.now }
    requires told { AreTold (members_in known.now.store.now.slots.items) }
    requires given { slice_get known.now.store.now.slots.items place ≡ Some (Some given.now.member.now) }
    requires sites { AreSitesFor known.now.store.now.partners.mode given.now.member.now given.now.sites.now }
    ensures { let store = known.now.store.now in IfOk result
        (IsRightWorkOf known.now.split store.partners.mode (members_in store.slots.items) given.now.member.now.number left) }
{
    let by = Simplifiers {
        bank: known.bank,
        equations: &known.sets.equations,
        units: &known.sets.units,
        members: &known.sets.subsumers,
        left_out: Some(given.member.number),
    };
    let gone = removal_of(alloc, &by, known.split, given.member)?;
    match gone {
        Some(removal) => Ok(Work::Gone(removal)),
        None => {
            let work = met(alloc, known, place, given, left)?;
            Ok(work)
        }
    }
}

/// The work on a clause that stays.
fn met(alloc: Global, known: &Known<'_>, place: usize, given: &Premise<'_>, left: u32) -> Mem<Work>
    requires kept { IsKept known.now.bank.now known.now.store.now known.now.sets.now }
    requires told { AreTold (members_in known.now.store.now.slots.items) }
    requires given { slice_get known.now.store.now.slots.items place ≡ Some (Some given.now.member.now) }
    requires sites { AreSitesFor known.now.store.now.partners.mode given.now.member.now given.now.sites.now }
    ensures { let store = known.now.store.now in IfOk result
        (IsMetBy known.now.split store.partners.mode known.now.sets.now (members_in store.slots.items)
        (before_place store.slots.items place) given.now.member.now left) }
{
    let inferences = inferences_of(alloc, known.bank, known.store, place, given, left)?;
    let by = Simplifiers {
        bank: known.bank,
        equations: &known.sets.equations,
        units: &known.sets.units,
        members: &known.sets.subsumers,
        left_out: None,
    };
    let entries = entries_of(alloc, &by, known.split, inferences, left)?;
    if entries.len() >= left as usize {
        return Ok(Work::Met {
            entries,
            removals: Removals::new(alloc),
        });
    }
    let removals = removals_of(alloc, known, given.member)?;
    Ok(Work::Met { entries, removals })
}
