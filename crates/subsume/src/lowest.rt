// The search for the lowest member that subsumes a clause.

ghost use Rattle.std.specs.Prelude.{◌≡◌, ◌∷◌, [], ◌≤◌, ◌<◌, ◌↔◌, ℕ, Bool, IfOk, IsTrue, All, Some, true};
ghost use Rattle.bank_clause.specs.Clause.{AreMembersOf, IsMemberOf};
ghost use Rattle.subsume.specs.Query.{IsLowering, IsLowestSubsumer};
ghost use Rattle.subsume.specs.Searching.{IsBelow};
ghost use Rattle.subsume.specs.Tree.{IsEntry, members_of};

use crate::entry::Entry;
use crate::subsuming::is_subsumed;
use crate::target::Target;
use crate::tree::{Division, FeatureTree, Node};
use crate::vector::Features;
use plain_types::Mem;
use std::alloc::Global;
use term_bank::Bank;

/// A clause that may be subsumed, with its features, and the number of a member that is left out.
#[derive(Drop)]
pub(crate) struct Query<'a> {
    pub(crate) target: Target<'a>,
    pub(crate) features: Features,
    pub(crate) except: Option<u32>,
}

impl FeatureTree {
    /// The lowest number of a member that subsumes the query, below a bound. The bound stays where there is none.
    pub(crate) fn lowest(
        &self,
        alloc: Global,
        bank: &Bank,
        query: &Query<'_>,
        bound: Option<u32>,
    ) -> Mem<Option<u32>>
        requires { AreMembersOf bank.now self.now.0 }
        ensures { IfOk result (IsLowestSubsumer query.now self.now.0 bound) }
    {
        match &self.node {
            Node::Leaf(entries) => lowest_entry(alloc, bank, query, entries.as_slice(), bound),
            Node::Branch(division) => {
                let division: &Division = division;
                let bound = division.low.lowest(alloc, bank, query, bound)?;
                if query.features.value(division.positive, division.measure) <= division.most {
                    return Ok(bound);
                }
                division.high.lowest(alloc, bank, query, bound)
            }
        }
    }
}

/// The lowest subsumer among entries, below a bound.
fn lowest_entry(
    alloc: Global,
    bank: &Bank,
    query: &Query<'_>,
    entries: &[Entry],
    bound: Option<u32>,
) -> Mem<Option<u32>>
    requires members { AreMembersOf bank.now (members_of entries.now) }
    requires entries { All IsEntry entries.now }
    ensures { IfOk result (IsLowestSubsumer query.now (members_of entries.now) bound) }
{
    let mut lowest = bound;
    for entry in entries {
        if does_lower(alloc, bank, query, entry, lowest)? {
            lowest = Some(entry.member.number);
        }
    }
    Ok(lowest)
}

/// Whether an entry is a subsumer below a bound. Its features, which are the cheapest to look at, come first.
fn does_lower(
    alloc: Global,
    bank: &Bank,
    query: &Query<'_>,
    entry: &Entry,
    bound: Option<u32>,
) -> Mem<bool>
    requires member { IsMemberOf bank.now entry.now.member }
    requires entry { IsEntry entry.now }
    ensures { IfOk result (IsLowering query.now entry.now.member bound) }
{
    if !entry.features.are_at_most(&query.features) {
        return Ok(false);
    }
    if !is_below(entry.member.number, bound) {
        return Ok(false);
    }
    if is_left_out(query.except, entry.member.number) {
        return Ok(false);
    }
    is_subsumed(alloc, bank, &entry.member.clause, &query.target)
}

/// Whether a number is below a bound, if there is one.
fn is_below(number: u32, bound: Option<u32>) -> bool
    ensures { IsTrue result ↔ IsBelow number bound }
{
    match bound {
        None => true,
        Some(bound) => number < bound,
    }
}

/// Whether a number is the one that is left out, if one is.
pub(crate) fn is_left_out(except: Option<u32>, number: u32) -> bool
    ensures { IsTrue result ↔ (except ≡ Some number) }
{
    match except {
        None => false,
        Some(other) => other == number,
    }
}
