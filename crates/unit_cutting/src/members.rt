// The members of a list that a unit cuts.

ghost use Rattle.std.specs.Prelude.{IfOk, MatchBool};
ghost use Rattle.fol_base.specs.WellFormed.{SymbolUse};
ghost use Rattle.bank_clause.specs.Clause.{AreMembersOf, IsMemberOf};
ghost use Rattle.bank_clause.specs.Members.{IsMemberOfUse};
ghost use Rattle.unit_cutting.specs.Cuttable.{AreCuttable, IsCutBy};

use crate::cuts;
use bank_clause::{Member, Members};
use plain_types::{Mem, Numbers};
use std::alloc::Global;
use term_bank::Bank;

/// The numbers of exactly the members of which a unit cuts a literal, rising. The unit doesn't cut itself: a member with its number is left
/// out.
pub fn cuttable(alloc: Global, bank: &Bank, unit: &Member, clauses: &Members) -> Mem<Numbers>
    requires unit { IsMemberOf bank.now unit.now }
    requires clauses { AreMembersOf bank.now clauses.now }
    ensures { IfOk result (AreCuttable unit.now clauses.now) }
{
    let mut found = Vec::new(alloc);
    for member in clauses.as_slice() {
        if is_cut(alloc, bank, unit, member)? {
            found.push(u64::from(member.number))?;
        }
    }
    found.sort_unstable();
    found.dedup();
    Ok(Numbers::from_vec(found))
}

/// Whether a unit cuts a literal of another member.
fn is_cut(alloc: Global, bank: &Bank, unit: &Member, member: &Member) -> Mem<bool>
    requires unit { IsMemberOf bank.now unit.now }
    requires member { IsMemberOf bank.now member.now }
    ensures { IfOk result (λ answer. (usage : SymbolUse) → IsMemberOfUse usage unit.now → IsMemberOfUse usage member.now
        → MatchBool answer (IsCutBy usage.is_predicate unit.now member.now) (IsCutBy usage.is_predicate unit.now member.now → ⊥)) }
{
    if member.number == unit.number {
        return Ok(false);
    }
    cuts(alloc, bank, unit, &member.clause)
}
