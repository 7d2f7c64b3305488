// Clauses simplified by all rules: reduced, and told where they aren't needed.

ghost use Rattle.std.specs.Prelude.{◌≡◌, ◌≤◌, IfOk, IsTrue};
ghost use Rattle.fol_base.specs.Canonical.{IsCanonical};
ghost use Rattle.fol_base.specs.Clause.{clause_size};
ghost use Rattle.fol_base.specs.Literal.{clause_of};
ghost use Rattle.fol_base.specs.declared.limits.TheConstants.{MOST_SYMBOLS};
ghost use Rattle.kernel_steps.specs.Names.{are_sorted};
ghost use Rattle.bank_clause.specs.Clause.{AreMembersOf};
ghost use Rattle.rewriting.specs.Units.{AreClausesOf};
ghost use Rattle.demodulate.specs.Memory.{Remembers};
ghost use Rattle.demodulate.specs.Simplified.{IsSimplified, ResultKeepsForm};

use crate::memory::Memory;
use crate::reducing::{Reduction, reduce};
use crate::simplifiers::Simplifiers;
use crate::subsuming::subsumer;
use fol_base::Clause;
use kernel_steps::Reduced;
use plain_types::Mem;
use reduced_clause::unreduced_copy;
use std::alloc::Global;
use unit_cutting::is_tautology;

/// The result of simplifying a clause.
#[derive(Drop)]
pub enum Simplified {
    /// Reducing steps lead to a tautology.
    Tautology,
    /// Reducing steps lead to a clause that the clause with this number subsumes.
    Subsumed(u32),
    /// It is reduced, and the result is irreducible.
    Reduced(Reduced),
}

/// Simplifies a clause by those that may be used: it is reduced until no reducing step applies, unless it is or becomes a tautology, and
/// then looked up among the clauses that subsume it.
pub fn simplify(
    alloc: Global,
    by: &Simplifiers<'_>,
    clause: &Clause,
    memory: &mut Memory,
) -> Mem<Simplified>
    requires equations { AreClausesOf by.now.bank.now by.now.equations.now }
    requires units { AreClausesOf by.now.bank.now by.now.units.now }
    requires members { AreMembersOf by.now.bank.now by.now.members.now }
    requires canonical { IsCanonical (clause_of clause.now) }
    requires names { IsTrue (are_sorted clause.now.names) }
    requires size { clause_size (clause_of clause.now) ≤ MOST_SYMBOLS }
    requires memory { Remembers by.now.equations.now by.now.left_out memory.old }
    ensures outcome { IfOk result (IsSimplified by.now.equations.now by.now.units.now by.now.members.now by.now.left_out (clause_of clause.now)) }
    ensures form { IfOk result (ResultKeepsForm (clause_of clause.now)) }
    ensures memory { Remembers by.now.equations.now by.now.left_out memory.new }
{
    if is_tautology(clause) {
        return Ok(Simplified::Tautology);
    }
    let mut reduced = unreduced_copy(alloc, clause)?;
    match reduce(alloc, by, &mut reduced, memory)? {
        Reduction::Tautology => Ok(Simplified::Tautology),
        Reduction::Irreducible => match subsumer(alloc, by, &reduced.clause)? {
            Some(number) => Ok(Simplified::Subsumed(number)),
            None => Ok(Simplified::Reduced(reduced)),
        },
    }
}
