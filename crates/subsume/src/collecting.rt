// The search for the members that a member subsumes.

ghost use Rattle.std.specs.Prelude.{◌≡◌, ◌↔◌, IfOk, IsTrue, All};
ghost use Rattle.fol_base.specs.WellFormed.{SymbolUse};
ghost use Rattle.bank_clause.specs.Clause.{AreMembersOf, IsMemberOf, clause_at};
ghost use Rattle.subsume.specs.Features.{AreFeaturesOf};
ghost use Rattle.subsume.specs.Searching.{AddsSubsumed, IsSubsumedBy};
ghost use Rattle.bank_clause.specs.Members.{IsMemberOfUse};
ghost use Rattle.subsume.specs.Tree.{IsEntry, members_of};

use crate::entry::Entry;
use crate::subsuming::is_subsumed;
use crate::target::{Target, lent_literals};
use crate::tree::{Division, FeatureTree, Node};
use crate::vector::Features;
use bank_clause::Member;
use plain_types::Mem;
use std::alloc::Global;
use term_bank::Bank;

impl FeatureTree {
    /// Adds the numbers of exactly the other members that a member subsumes, in the tree's order.
    pub(crate) fn collect(
        &self,
        alloc: Global,
        bank: &Bank,
        by: &Member,
        features: &Features,
        found: &mut Vec<u64>,
    ) -> Mem<()>
        requires members { AreMembersOf bank.now self.now.0 }
        requires by { IsMemberOf bank.now by.now }
        requires features { AreFeaturesOf (clause_at by.now.clause).literals features.now.values }
        ensures { IfOk result (λ _. AddsSubsumed by.now self.now.0 found.old.items found.new.items) }
    {
        match &self.node {
            Node::Leaf(entries) => {
                collect_entries(alloc, bank, by, features, entries.as_slice(), found)
            }
            Node::Branch(division) => {
                let division: &Division = division;
                if features.value(division.positive, division.measure) <= division.most {
                    division.low.collect(alloc, bank, by, features, found)?;
                }
                if !features.are_at_most(&division.bound) {
                    return Ok(());
                }
                division.high.collect(alloc, bank, by, features, found)
            }
        }
    }
}

/// Adds the numbers of the entries that a member subsumes.
fn collect_entries(
    alloc: Global,
    bank: &Bank,
    by: &Member,
    features: &Features,
    entries: &[Entry],
    found: &mut Vec<u64>,
) -> Mem<()>
    requires members { AreMembersOf bank.now (members_of entries.now) }
    requires entries { All IsEntry entries.now }
    requires by { IsMemberOf bank.now by.now }
    requires features { AreFeaturesOf (clause_at by.now.clause).literals features.now.values }
    ensures { IfOk result (λ _. AddsSubsumed by.now (members_of entries.now) found.old.items found.new.items) }
{
    for entry in entries {
        if does_subsume(alloc, bank, by, features, entry)? {
            found.push(u64::from(entry.member.number))?;
        }
    }
    Ok(())
}

/// Whether a member subsumes an entry, which is another one. Features, which are the cheapest to look at, come first.
fn does_subsume(
    alloc: Global,
    bank: &Bank,
    by: &Member,
    features: &Features,
    entry: &Entry,
) -> Mem<bool>
    requires member { IsMemberOf bank.now entry.now.member }
    requires entry { IsEntry entry.now }
    requires by { IsMemberOf bank.now by.now }
    requires features { AreFeaturesOf (clause_at by.now.clause).literals features.now.values }
    ensures { IfOk result (λ answer. (usage : SymbolUse) → IsMemberOfUse usage by.now → IsMemberOfUse usage entry.now.member
        → IsTrue answer ↔ IsSubsumedBy usage by.now entry.now.member) }
{
    if !features.are_at_most(&entry.features) {
        return Ok(false);
    }
    if by.number == entry.member.number {
        return Ok(false);
    }
    let lender = entry.member.clause.lend(bank);
    let mut assertions = Vec::new(alloc);
    assertions.extend_from_slice(entry.member.clause.names())?;
    let target = Target {
        literals: lent_literals(alloc, &lender)?,
        assertions,
    };
    is_subsumed(alloc, bank, &by.clause, &target)
}
