// The superpositions between a clause and the members of a set that come before it: each side of the clause is looked up among their places,
// and each place of the clause among their sides.

ghost use Rattle.std.specs.Prelude.{◌≡◌, ◌∷◌, ◌<◌, [], Some, false, length, slice_get, IfOk, OnErr};
ghost use Rattle.bank_clause.specs.Clause.{IsMemberOf};
ghost use Rattle.eq_rules.specs.declared.concluding.LiteralSide.{LiteralSide};
ghost use Rattle.superpose.specs.Pairing.{Begins};
ghost use Rattle.superpose.specs.declared.sites.LiteralPlace.{LiteralPlace};
ghost use Rattle.partners.specs.Meeting.{
  AddsMeetings,
  AddsMeetingsUpTo,
  AddsNamed,
  MeetsAllPlacesUpTo,
  MeetsAllStartsUpTo,
  MeetsPlacesUpTo,
  MeetsStartsUpTo,
  is_partner,
  name_from,
  name_into,
  names,
};
ghost use Rattle.partners.specs.Partners.{AreOfBank, AreSitesFor};

use crate::index::site_of;
use crate::partners::Partners;
use crate::site::Site;
use eq_rules::{Inference, is_enough};
use plain_types::Mem;
use std::alloc::Global;
use superpose::{Premise, push_made, superposition};
use term_bank::Bank;

impl Partners {
    /// Adds every superposition between a clause and each member whose position is below the bound, both ways, each once. The condition is
    /// that the clause has the number of none of these. After an out-of-memory error the list is as before. Out of memory is also answered where a clause
    /// under a unifier has `SIZE_LIMIT` symbols or more.
    pub fn superpositions(
        &self,
        alloc: Global,
        bank: &Bank,
        given: &Premise<'_>,
        bound: usize,
        found: &mut Vec<Inference>,
    ) -> Mem<()>
        requires members { AreOfBank bank.now self.now }
        requires given_member { IsMemberOf bank.now given.now.member.now }
        requires given_sites { AreSitesFor self.now.mode given.now.member.now given.now.sites.now }
        requires another { is_partner bound self.now given.now.member.now.number ≡ false }
        ensures ok { IfOk result (λ _. AddsMeetings bound self.now given.now.member.now found.old.items found.new.items) }
        ensures err { OnErr result (found.new.items ≡ found.old.items) }
    {
        self.superpositions_up_to(alloc, bank, given, bound, None, found)
    }

    /// As `superpositions`, in the same order, but it stops once the list has as many inferences as are enough.
    pub fn superpositions_up_to(
        &self,
        alloc: Global,
        bank: &Bank,
        given: &Premise<'_>,
        bound: usize,
        most: Option<usize>,
        found: &mut Vec<Inference>,
    ) -> Mem<()>
        requires members { AreOfBank bank.now self.now }
        requires given_member { IsMemberOf bank.now given.now.member.now }
        requires given_sites { AreSitesFor self.now.mode given.now.member.now given.now.sites.now }
        requires another { is_partner bound self.now given.now.member.now.number ≡ false }
        ensures ok { IfOk result (λ _. AddsMeetingsUpTo most bound self.now given.now.member.now found.old.items found.new.items) }
        ensures err { OnErr result (found.new.items ≡ found.old.items) }
    {
        let count = found.len();
        match self.push_superpositions(alloc, bank, given, bound, most, found) {
            Ok(()) => Ok(()),
            Err(refused) => {
                found.truncate(count);
                Err(refused)
            }
        }
    }

    /// Adds them until the list has enough; after an out-of-memory error some may have been added.
    fn push_superpositions(
        &self,
        alloc: Global,
        bank: &Bank,
        given: &Premise<'_>,
        bound: usize,
        most: Option<usize>,
        found: &mut Vec<Inference>,
    ) -> Mem<()>
        requires members { AreOfBank bank.now self.now }
        requires given_member { IsMemberOf bank.now given.now.member.now }
        requires given_sites { AreSitesFor self.now.mode given.now.member.now given.now.sites.now }
        requires another { is_partner bound self.now given.now.member.now.number ≡ false }
        ensures ok { IfOk result (λ _. AddsMeetingsUpTo most bound self.now given.now.member.now found.old.items found.new.items) }
        ensures begins { Begins found.old.items found.new.items }
    {
        self.push_from(alloc, bank, given, bound, most, found)?;
        if is_enough(most, found.len()) {
            return Ok(());
        }
        self.push_into(alloc, bank, given, bound, most, found)
    }

    /// Adds the superpositions from the sides of a clause into the places of its partners, until the list has enough.
    fn push_from(
        &self,
        alloc: Global,
        bank: &Bank,
        given: &Premise<'_>,
        bound: usize,
        most: Option<usize>,
        found: &mut Vec<Inference>,
    ) -> Mem<()>
        requires members { AreOfBank bank.now self.now }
        requires given_member { IsMemberOf bank.now given.now.member.now }
        requires given_sites { AreSitesFor self.now.mode given.now.member.now given.now.sites.now }
        ensures ok { IfOk result (λ _. MeetsAllPlacesUpTo most bound self.now given.now.member.now
            given.now.sites.now.from.items found.old.items found.new.items) }
        ensures begins { Begins found.old.items found.new.items }
    {
        for from in 0..given.sites.from.len() {
            self.push_from_side(alloc, bank, given, from, bound, most, found)?;
            if is_enough(most, found.len()) {
                return Ok(());
            }
        }
        Ok(())
    }

    /// Adds the superpositions from one side of a clause, until the list has enough.
    fn push_from_side(
        &self,
        alloc: Global,
        bank: &Bank,
        given: &Premise<'_>,
        from: usize,
        bound: usize,
        most: Option<usize>,
        found: &mut Vec<Inference>,
    ) -> Mem<()>
        requires members { AreOfBank bank.now self.now }
        requires given_member { IsMemberOf bank.now given.now.member.now }
        requires given_sites { AreSitesFor self.now.mode given.now.member.now given.now.sites.now }
        requires inside { from < length given.now.sites.now.from.items }
        ensures ok { IfOk result (λ _. (s : LiteralSide) → slice_get given.now.sites.now.from.items from ≡ Some s
            → MeetsPlacesUpTo most bound self.now given.now.member.now s found.old.items found.new.items) }
        ensures begins { Begins found.old.items found.new.items }
    {
        let literals = given.member.clause.lend(bank);
        let Some(side) = given.sites.from[from].term(&literals) else {
            return Ok(());
        };
        let candidates = self.places_for(side)?;
        for candidate in candidates.as_slice() {
            self.try_place(alloc, bank, given, from, *candidate, bound, found)?;
            if is_enough(most, found.len()) {
                return Ok(());
            }
        }
        Ok(())
    }

    /// Adds the superposition from a side of a clause into the place that a number stands for, if its member is a partner.
    fn try_place(
        &self,
        alloc: Global,
        bank: &Bank,
        given: &Premise<'_>,
        from: usize,
        candidate: u64,
        bound: usize,
        found: &mut Vec<Inference>,
    ) -> Mem<()>
        requires members { AreOfBank bank.now self.now }
        requires given_member { IsMemberOf bank.now given.now.member.now }
        requires given_sites { AreSitesFor self.now.mode given.now.member.now given.now.sites.now }
        requires inside { from < length given.now.sites.now.from.items }
        ensures ok { IfOk result (λ _. (s : LiteralSide) → slice_get given.now.sites.now.from.items from ≡ Some s
            → AddsNamed bound self.now given.now.member.now
            (names (name_into bound self.now given.now.member.now.number s) (candidate ∷ [])) found.old.items found.new.items) }
        ensures begins { Begins found.old.items found.new.items }
    {
        let (number, into) = site_of(candidate);
        let Some(partner) = self.partner(number, bound) else {
            return Ok(());
        };
        if into >= partner.sites.into.len() {
            return Ok(());
        }
        let made = superposition(alloc, bank, given, from, &partner, into)?;
        let side = given.sites.from[from];
        let place = &partner.sites.into[into];
        push_made(
            alloc,
            given.member,
            side,
            partner.member,
            place,
            made,
            found,
        )
    }

    /// Adds the superpositions from sides of the partners into the places of a clause, until the list has enough.
    fn push_into(
        &self,
        alloc: Global,
        bank: &Bank,
        given: &Premise<'_>,
        bound: usize,
        most: Option<usize>,
        found: &mut Vec<Inference>,
    ) -> Mem<()>
        requires members { AreOfBank bank.now self.now }
        requires given_member { IsMemberOf bank.now given.now.member.now }
        requires given_sites { AreSitesFor self.now.mode given.now.member.now given.now.sites.now }
        ensures ok { IfOk result (λ _. MeetsAllStartsUpTo most bound self.now given.now.member.now
            given.now.sites.now.into.items found.old.items found.new.items) }
        ensures begins { Begins found.old.items found.new.items }
    {
        for into in 0..given.sites.into.len() {
            self.push_into_place(alloc, bank, given, into, bound, most, found)?;
            if is_enough(most, found.len()) {
                return Ok(());
            }
        }
        Ok(())
    }

    /// Adds the superpositions into one place of a clause, until the list has enough.
    fn push_into_place(
        &self,
        alloc: Global,
        bank: &Bank,
        given: &Premise<'_>,
        into: usize,
        bound: usize,
        most: Option<usize>,
        found: &mut Vec<Inference>,
    ) -> Mem<()>
        requires members { AreOfBank bank.now self.now }
        requires given_member { IsMemberOf bank.now given.now.member.now }
        requires given_sites { AreSitesFor self.now.mode given.now.member.now given.now.sites.now }
        requires inside { into < length given.now.sites.now.into.items }
        ensures ok { IfOk result (λ _. (t : LiteralPlace) → slice_get given.now.sites.now.into.items into ≡ Some t
            → MeetsStartsUpTo most bound self.now given.now.member.now t found.old.items found.new.items) }
        ensures begins { Begins found.old.items found.new.items }
    {
        let literals = given.member.clause.lend(bank);
        let Some(term) = given.sites.into[into].term(&literals) else {
            return Ok(());
        };
        let candidates = self.starts_for(term)?;
        for candidate in candidates.as_slice() {
            self.try_start(alloc, bank, given, into, *candidate, bound, found)?;
            if is_enough(most, found.len()) {
                return Ok(());
            }
        }
        Ok(())
    }

    /// Adds the superposition from the side that a number stands for into a place of a clause, if its member is a partner.
    fn try_start(
        &self,
        alloc: Global,
        bank: &Bank,
        given: &Premise<'_>,
        into: usize,
        candidate: u64,
        bound: usize,
        found: &mut Vec<Inference>,
    ) -> Mem<()>
        requires members { AreOfBank bank.now self.now }
        requires given_member { IsMemberOf bank.now given.now.member.now }
        requires given_sites { AreSitesFor self.now.mode given.now.member.now given.now.sites.now }
        requires inside { into < length given.now.sites.now.into.items }
        ensures ok { IfOk result (λ _. (t : LiteralPlace) → slice_get given.now.sites.now.into.items into ≡ Some t
            → AddsNamed bound self.now given.now.member.now
            (names (name_from bound self.now given.now.member.now.number t) (candidate ∷ [])) found.old.items found.new.items) }
        ensures begins { Begins found.old.items found.new.items }
    {
        let (number, from) = site_of(candidate);
        let Some(partner) = self.partner(number, bound) else {
            return Ok(());
        };
        if from >= partner.sites.from.len() {
            return Ok(());
        }
        let made = superposition(alloc, bank, &partner, from, given, into)?;
        let side = partner.sites.from[from];
        let place = &given.sites.into[into];
        push_made(
            alloc,
            partner.member,
            side,
            given.member,
            place,
            made,
            found,
        )
    }
}
