// Members parted by whether they have one literal. A search for a subsumer can leave out those with one: an index of units finds them sooner.

ghost use Rattle.std.specs.Prelude.{◌≡◌, [], ◌∷◌, IfOk, OnErr, IsTrue, IsPermutation, false};
ghost use Rattle.fol_base.specs.WellFormed.{SymbolUse};
ghost use Rattle.bank_clause.specs.Clause.{AreMembersOf, IsMemberOf, clause_at};
ghost use Rattle.subsume.specs.Editing.{HasNone, IsNumbered};
ghost use Rattle.subsume.specs.Features.{AreFeaturesOf};
ghost use Rattle.subsume.specs.Query.{IsLongerSubsumerOf, IsLowestSubsumer};
ghost use Rattle.subsume.specs.Searching.{AddsSubsumed};
ghost use Rattle.subsume.specs.Tree.{IsEntry};

use crate::entry::Entry;
use crate::lowest::Query;
use crate::tree::FeatureTree;
use crate::vector::Features;
use bank_clause::Member;
use plain_types::Mem;
use std::alloc::Global;
use std::marker::Model;
use term_bank::Bank;

/// Members in two trees. Contracts see them as one list.
#[derive(Drop)]
pub(crate) struct PartedMembers {
    /// Those with one literal.
    units: FeatureTree,
    /// Those with none or several.
    longer: FeatureTree,
}

impl Model for PartedMembers {
    ghost use Rattle.std.specs.Prelude.{List, ◌++◌};
    ghost use Rattle.std.specs.Coded.{coded_list};
    ghost use Rattle.bank_clause.specs.declared.member.Member.{Member};
    ghost use Rattle.subsume.specs.MemberCode.{member_code};

    ghost Value = { List Member };

    ghost coded = { coded_list member_code };

    ghost use Rattle.subsume.specs.Longer.{AreParted};

    ghost view = { λ a. a.units.0 ++ a.longer.0 };

    ghost invariant = { λ a. AreParted a.units.0 a.longer.0 };
}

impl PartedMembers {
    /// No members. It takes no memory.
    pub(crate) fn new(alloc: Global) -> PartedMembers
        ensures { result ≡ [] }
    {
        PartedMembers {
            units: FeatureTree::new(alloc),
            longer: FeatureTree::new(alloc),
        }
    }

    /// Puts an entry in. After an out-of-memory error the members are as before.
    pub(crate) fn insert(&mut self, alloc: Global, entry: Entry) -> Mem<()>
        requires { IsEntry entry }
        ensures ok { IfOk result (λ _. IsPermutation (entry.member ∷ self.old) self.new) }
        ensures err { OnErr result (self.new ≡ self.old) }
    {
        if entry.member.clause.literals().len() == 1 {
            self.units.insert(alloc, entry)
        } else {
            self.longer.insert(alloc, entry)
        }
    }

    /// Takes out a member with a number and these features, and says whether there was one. It takes no memory.
    pub(crate) fn remove(&mut self, features: &Features, number: u32) -> bool
        ensures removed { IsTrue result → IsNumbered number self.old self.new }
        ensures unchanged { result ≡ false → self.new ≡ self.old }
        ensures absent { result ≡ false → HasNone features.now.values number self.old }
    {
        if self.units.remove(features, number) {
            return true;
        }
        self.longer.remove(features, number)
    }

    /// The lowest number of a member that subsumes the query, below a bound. The bound stays where there is none.
    pub(crate) fn lowest(
        &self,
        alloc: Global,
        bank: &Bank,
        query: &Query<'_>,
        bound: Option<u32>,
    ) -> Mem<Option<u32>>
        requires { AreMembersOf bank.now self.now }
        ensures { IfOk result (IsLowestSubsumer query.now self.now bound) }
    {
        let bound = self.units.lowest(alloc, bank, query, bound)?;
        self.longer.lowest(alloc, bank, query, bound)
    }

    /// The number of a member with none or several literals that subsumes the query. None exactly where there is none.
    pub(crate) fn longer_subsumer(
        &self,
        alloc: Global,
        bank: &Bank,
        query: &Query<'_>,
    ) -> Mem<Option<u32>>
        requires { AreMembersOf bank.now self.now }
        ensures { IfOk result (IsLongerSubsumerOf query.now self.now) }
    {
        self.longer.lowest(alloc, bank, query, None)
    }

    /// Adds the numbers of exactly the other members that a member subsumes, in the list's order.
    pub(crate) fn collect(
        &self,
        alloc: Global,
        bank: &Bank,
        by: &Member,
        features: &Features,
        found: &mut Vec<u64>,
    ) -> Mem<()>
        requires members { AreMembersOf bank.now self.now }
        requires by { IsMemberOf bank.now by.now }
        requires features { AreFeaturesOf (clause_at by.now.clause).literals features.now.values }
        ensures { IfOk result (λ _. AddsSubsumed by.now self.now found.old.items found.new.items) }
    {
        self.units.collect(alloc, bank, by, features, found)?;
        self.longer.collect(alloc, bank, by, features, found)
    }
}
