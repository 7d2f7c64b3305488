// The told clauses in the order of their positions, as partners of superposition, and by the terms that occur in them.

ghost use Rattle.std.specs.Prelude.{◌≡◌, ◌==◌, ◌<◌, ◌++◌, [], ◌∷◌, None, not, filter, slice_set, vec_len, IfOk};
ghost use Rattle.bank_clause.specs.Clause.{IsMemberOf};
ghost use Rattle.bank_clause.specs.declared.member.Member.{Member};
ghost use Rattle.partners.specs.Partners.{AreOfBank};
ghost use Rattle.subsume.specs.Editing.{HasNoNumber};
ghost use Rattle.given_work.specs.Occurring.{ListsMembers};
ghost use Rattle.unit_cutting.specs.Indexed.{KeepsOthers};
ghost use Rattle.given_work.specs.Store.{ArePlaced, members_in};

use crate::occurring::{put_literals, take_literals};
use bank_clause::Member;
use disc_tree::DiscTree;
use literal_selection::Selection;
use partners::Partners;
use plain_types::Mem;
use std::alloc::Global;
use term_bank::Bank;

/// The told clauses that live, each at a place of its own, in the order in which they were activated. The place of one that has died is
/// empty.
#[derive(Drop)]
pub(crate) struct Store {
    pub(crate) slots: Vec<Option<Member>>,
    /// These clauses with the sites of each for superposition, which are found once. Their positions are their places.
    pub(crate) partners: Partners,
    /// The terms that occur in them.
    pub(crate) terms: DiscTree,
}

impl Store {
    /// No clauses, and the mode by which the literals of those to come are chosen.
    pub(crate) fn new(alloc: Global, mode: Selection) -> Mem<Store>
        ensures none { IfOk result (λ store. members_in store.slots.items ≡ []) }
        ensures placed { IfOk result ArePlaced }
        ensures listed { IfOk result (λ store. ListsMembers store.terms []) }
        ensures mode { IfOk result (λ store. store.partners.mode ≡ mode) }
    {
        Ok(Store {
            slots: Vec::new(alloc),
            partners: Partners::new(alloc, mode)?,
            terms: DiscTree::new(alloc)?,
        })
    }

    /// Adds a clause after the others. No clause with its number is there.
    pub(crate) fn put(&mut self, bank: &Bank, member: &Member) -> Mem<()>
        requires placed { ArePlaced self.old }
        requires member { IsMemberOf bank.now member.now }
        requires new { HasNoNumber member.now.number (members_in self.old.slots.items) }
        ensures members { IfOk result (λ _. members_in self.new.slots.items ≡ members_in self.old.slots.items ++ member.now ∷ []) }
        ensures placed { IfOk result (λ _. ArePlaced self.new) }
        ensures listed { IfOk result (λ _. ListsMembers self.old.terms (members_in self.old.slots.items)
            → ListsMembers self.new.terms (members_in self.new.slots.items)) }
        ensures mode { IfOk result (λ _. self.new.partners.mode ≡ self.old.partners.mode) }
    {
        let number = member.number;
        let clause = member.clause.copied()?;
        self.partners.insert(bank, member, self.slots.len())?;
        put_literals(&mut self.terms, &member.clause.lend(bank), number)?;
        self.slots.push(Some(Member { number, clause }))?;
        Ok(())
    }

    /// Takes away the clause with a number, if it is there.
    pub(crate) fn take(&mut self, bank: &Bank, number: u32)
        requires placed { ArePlaced self.old }
        requires of_bank { AreOfBank bank.now self.old.partners }
        ensures members { members_in self.new.slots.items
            ≡ filter (λ (m : Member). not (m.number == number)) (members_in self.old.slots.items) }
        ensures placed { ArePlaced self.new }
        ensures listed { ListsMembers self.old.terms (members_in self.old.slots.items)
            → ListsMembers self.new.terms (members_in self.new.slots.items) }
        ensures mode { self.new.partners.mode ≡ self.old.partners.mode }
    {
        take_terms(&mut self.terms, &self.partners, bank, number);
        if let Some(place) = self.partners.remove(bank, number) {
            empty_slot(&mut self.slots, place);
        }
    }
}

/// Takes away the terms of the clause with a number, if it is there.
fn take_terms(terms: &mut DiscTree, partners: &Partners, bank: &Bank, number: u32)
    requires { AreOfBank bank.now partners.now }
    ensures { KeepsOthers number terms.old terms.new }
{
    if let Some(premise) = partners.premise(number) {
        take_literals(terms, &premise.member.clause.lend(bank), number);
    }
}

/// Empties a place.
fn empty_slot(slots: &mut Vec<Option<Member>>, place: usize)
    requires { place < vec_len slots.old }
    ensures { slots.new.items ≡ slice_set slots.old.items place None }
{
    slots[place] = None;
}
