// Clauses that are subsumed by those that may be used.

ghost use Rattle.std.specs.Prelude.{IfOk};
ghost use Rattle.fol_base.specs.Literal.{clause_of};
ghost use Rattle.bank_clause.specs.Clause.{AreMembersOf};
ghost use Rattle.rewriting.specs.Units.{AreClausesOf};
ghost use Rattle.demodulate.specs.Subsuming.{IsSubsumedBySome};

use crate::simplifiers::Simplifiers;
use fol_base::Clause;
use plain_types::Mem;
use std::alloc::Global;
use subsume::forward_longer;

/// The number of a clause that subsumes another one, but for the one that is left out. None exactly where no other one does. Those with one
/// literal are looked up by its sides, the rest by their features.
pub fn subsumer(alloc: Global, by: &Simplifiers<'_>, clause: &Clause) -> Mem<Option<u32>>
    requires units { AreClausesOf by.now.bank.now by.now.units.now }
    requires members { AreMembersOf by.now.bank.now by.now.members.now }
    ensures { IfOk result (IsSubsumedBySome by.now.equations.now by.now.units.now by.now.members.now by.now.left_out (clause_of clause.now)) }
{
    let unit = by.units.subsumer(alloc, by.bank, by.left_out, clause)?;
    if let Some(number) = unit {
        return Ok(Some(number));
    }
    let longer = forward_longer(alloc, by.bank, by.members, clause, by.left_out)?;
    Ok(longer)
}
