// Told clauses that go: they are reduced by the others, or aren't needed beside them.

ghost use Rattle.std.specs.Prelude.{◌≡◌, Some, IfOk};
ghost use Rattle.fol_base.specs.Clause.{TreeClause};
ghost use Rattle.bank_clause.specs.Clause.{IsMemberOf, clause_at};
ghost use Rattle.kernel_steps.specs.ParentNumbers.{with_parents};
ghost use Rattle.pool_history.specs.declared.batch.Fate.TheVariants.{Dropped};
ghost use Rattle.given_work.specs.Telling.{AreSetsOfBank, AreToldWith};
ghost use Rattle.given_work.specs.Going.{IsReducedBy, IsRemovalOf, IsReplacedOrSame, batch_lines, number_beside};

use crate::results::handed_back;
use bank_clause::Member;
use demodulate::{Memory, Simplifiers, reduce, subsumer};
use kernel_steps::{CLAUSE_NUMBERS, Derivation, Line, Reduced, Step};
use plain_types::{Mem, Numbers};
use pool_history::{Fate, Redundancy, Removal};
use reduced_clause::{put_used, unreduced};
use std::alloc::Global;
use unit_cutting::is_tautology;

/// How a told clause goes: it is reduced by the others, or it is redundant beside them, once it is reduced. None exactly where no reducing
/// step applies to it and it isn't redundant. It is the clause that is left out. Its result is split or not.
pub(crate) fn removal_of(
    alloc: Global,
    by: &Simplifiers<'_>,
    split: bool,
    member: &Member,
) -> Mem<Option<Removal>>
    requires of_bank { AreSetsOfBank by.now.bank.now by.now.equations.now by.now.units.now by.now.members.now }
    requires member { IsMemberOf by.now.bank.now member.now }
    requires itself { by.now.left_out ≡ Some member.now.number }
    requires told { AreToldWith by.now.equations.now by.now.units.now by.now.members.now member.now.number (clause_at member.now.clause) }
    ensures { IfOk result
        (IsRemovalOf split by.now.equations.now by.now.units.now by.now.members.now member.now.number (clause_at member.now.clause)) }
{
    let reduced = reduced_member(alloc, by, member)?;
    removal_by(alloc, by, split, member.number, reduced)
}

/// A told clause reduced by the others.
fn reduced_member(alloc: Global, by: &Simplifiers<'_>, member: &Member) -> Mem<Reduced>
    requires of_bank { AreSetsOfBank by.now.bank.now by.now.equations.now by.now.units.now by.now.members.now }
    requires member { IsMemberOf by.now.bank.now member.now }
    requires told { AreToldWith by.now.equations.now by.now.units.now by.now.members.now member.now.number (clause_at member.now.clause) }
    ensures { IfOk result (IsReducedBy by.now.equations.now by.now.units.now by.now.left_out (clause_at member.now.clause)) }
{
    let clause = member.clause.to_clause(by.bank)?;
    let mut reduced = unreduced(alloc, clause);
    let mut memory = Memory::new(alloc);
    reduce(alloc, by, &mut reduced, &mut memory)?;
    Ok(reduced)
}

/// The removal of a clause that was reduced.
fn removal_by(
    alloc: Global,
    by: &Simplifiers<'_>,
    split: bool,
    number: u32,
    reduced: Reduced,
) -> Mem<Option<Removal>>
    requires of_bank { AreSetsOfBank by.now.bank.now by.now.equations.now by.now.units.now by.now.members.now }
    requires itself { by.now.left_out ≡ Some number }
    ensures { IfOk result (λ gone. (c : TreeClause) → IsReducedBy by.now.equations.now by.now.units.now (Some number) c reduced
        → IsRemovalOf split by.now.equations.now by.now.units.now by.now.members.now number c gone) }
{
    if is_tautology(&reduced.clause) {
        let removal = dropped(number, reduced.used, Redundancy::Tautology);
        return Ok(Some(removal));
    }
    match subsumer(alloc, by, &reduced.clause)? {
        Some(other) => {
            let mut justifiers = reduced.used;
            put_used(&mut justifiers, other)?;
            let removal = dropped(number, justifiers, Redundancy::Subsumed(other));
            Ok(Some(removal))
        }
        None => {
            let gone = replaced(alloc, split, number, reduced)?;
            Ok(gone)
        }
    }
}

/// A clause that is redundant.
fn dropped(victim: u32, justifiers: Numbers, redundancy: Redundancy) -> Removal
    ensures { result ≡ record { victim = victim; justifiers = justifiers; fate = Dropped redundancy } }
{
    Removal {
        victim,
        justifiers,
        fate: Fate::Dropped(redundancy),
    }
}

/// A clause with the result of its reduction in its place. None where nothing was reduced.
fn replaced(alloc: Global, split: bool, victim: u32, reduced: Reduced) -> Mem<Option<Removal>>
    ensures { IfOk result (IsReplacedOrSame split victim reduced) }
{
    if reduced.lines.is_empty() {
        return Ok(None);
    }
    let Reduced {
        clause,
        lines,
        used,
    } = reduced;
    let lines = lines_of_victim(alloc, victim, lines)?;
    let results = handed_back(alloc, split, clause)?;
    Ok(Some(Removal {
        victim,
        justifiers: used,
        fate: Fate::Kept { lines, results },
    }))
}

/// Lines of a reduced clause, by the numbers of a batch.
fn lines_of_victim(alloc: Global, victim: u32, lines: Derivation) -> Mem<Derivation>
    ensures { IfOk result (λ renumbered. renumbered ≡ batch_lines victim lines) }
{
    let mut renumbered = Vec::with_capacity(alloc, lines.len())?;
    for line in lines.into_vec() {
        let Line { step, clause } = line;
        let step = beside_victim(victim, step);
        renumbered.push(Line { step, clause })?;
    }
    Ok(Derivation::from_vec(renumbered))
}

/// The number in a batch of a parent of a line of a reduced clause: the clause that was handed in is the victim, and each line has the
/// number before.
fn parent_beside(victim: u32, parent: u64) -> u64
    ensures { result ≡ number_beside victim parent }
{
    if parent < CLAUSE_NUMBERS {
        parent
    } else if parent == CLAUSE_NUMBERS {
        u64::from(victim)
    } else {
        parent - 1
    }
}

/// A step of a reduction with the numbers of a batch.
fn beside_victim(victim: u32, step: Step) -> Step
    ensures { result ≡ with_parents (number_beside victim) step }
{
    step.map_parents(|parent| parent_beside(victim, parent))
}
