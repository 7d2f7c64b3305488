// The entries of a given clause's inferences, one for each.

ghost use Rattle.std.specs.Prelude.{◌≡◌, List, None, All, IfOk};
ghost use Rattle.fol_base.specs.Literal.{clause_of};
ghost use Rattle.bank_clause.specs.declared.member.Member.{Member};
ghost use Rattle.demodulate.specs.Memory.{Remembers};
ghost use Rattle.demodulate.specs.Simplified.{IsSimplified};
ghost use Rattle.pool_history.specs.declared.batch.Fate.TheVariants.{Dropped};
ghost use Rattle.given_work.specs.Dropped.{AreDropped, outcome_by};
ghost use Rattle.given_work.specs.Telling.{AreSetsOfBank};
ghost use Rattle.given_work.specs.Meeting.{AreFirstEntries, IsConcludedWith, IsEntryOf, IsFateBy, IsFateOf, IsKeptWith, IsMadeWith};

use crate::dropped::DroppedConclusions;
use crate::results::handed_back;
use demodulate::{Memory, Simplified, Simplifiers, simplify};
use fol_base::Clause;
use kernel_steps::{Derivation, Line, Reduced, Step};
use plain_types::Mem;
use pool_history::{Entry, Fate, MetEntries, Redundancy};
use std::alloc::Global;
use superpose::{Inference, Made};

/// The entries of inferences, in order, whose results are split or not. It stops once `left` of them are there.
pub(crate) fn entries_of(
    alloc: Global,
    by: &Simplifiers<'_>,
    split: bool,
    inferences: Vec<Inference>,
    left: u32,
) -> Mem<MetEntries>
    requires of_bank { AreSetsOfBank by.now.bank.now by.now.equations.now by.now.units.now by.now.members.now }
    requires all { by.now.left_out ≡ None }
    requires made { All (IsMadeWith by.now.equations.now by.now.units.now by.now.members.now) inferences.items }
    ensures { IfOk result (AreFirstEntries split by.now.equations.now by.now.units.now by.now.members.now inferences.items left) }
{
    let mut entries = Vec::new(alloc);
    let mut dropped = DroppedConclusions::new(alloc);
    let mut memory = Memory::new(alloc);
    for inference in inferences {
        if entries.len() >= left as usize {
            return Ok(MetEntries::from_vec(entries));
        }
        entries.push(entry_of(alloc, by, split, &mut dropped, &mut memory, inference)?)?;
    }
    Ok(MetEntries::from_vec(entries))
}

/// The entry of an inference.
fn entry_of(
    alloc: Global,
    by: &Simplifiers<'_>,
    split: bool,
    dropped: &mut DroppedConclusions,
    memory: &mut Memory,
    inference: Inference,
) -> Mem<Entry>
    requires of_bank { AreSetsOfBank by.now.bank.now by.now.equations.now by.now.units.now by.now.members.now }
    requires all { by.now.left_out ≡ None }
    requires made { IsMadeWith by.now.equations.now by.now.units.now by.now.members.now inference }
    requires dropped { AreDropped by.now.equations.now by.now.units.now by.now.members.now dropped.old }
    requires memory { Remembers by.now.equations.now by.now.left_out memory.old }
    ensures entry { IfOk result (IsEntryOf split by.now.equations.now by.now.units.now by.now.members.now inference) }
    ensures dropped { IfOk result (λ _. AreDropped by.now.equations.now by.now.units.now by.now.members.now dropped.new) }
    ensures memory { Remembers by.now.equations.now by.now.left_out memory.new }
{
    let Inference { key, result } = inference;
    match result {
        Made::Heavy => Ok(Entry {
            key,
            fate: Fate::Heavy,
        }),
        Made::Conclusion(step, clause) => {
            let fate = fate_of(alloc, by, split, dropped, memory, step, clause)?;
            Ok(Entry { key, fate })
        }
    }
}

/// The fate of a conclusion. One that is equal to a dropped one is dropped, too.
fn fate_of(
    alloc: Global,
    by: &Simplifiers<'_>,
    split: bool,
    dropped: &mut DroppedConclusions,
    memory: &mut Memory,
    step: Step,
    clause: Clause,
) -> Mem<Fate>
    requires of_bank { AreSetsOfBank by.now.bank.now by.now.equations.now by.now.units.now by.now.members.now }
    requires all { by.now.left_out ≡ None }
    requires concluded { IsConcludedWith by.now.equations.now by.now.units.now by.now.members.now step (clause_of clause) }
    requires dropped { AreDropped by.now.equations.now by.now.units.now by.now.members.now dropped.old }
    requires memory { Remembers by.now.equations.now by.now.left_out memory.old }
    ensures fate { IfOk result (IsFateOf split by.now.equations.now by.now.units.now by.now.members.now step (clause_of clause)) }
    ensures dropped { IfOk result (λ _. AreDropped by.now.equations.now by.now.units.now by.now.members.now dropped.new) }
    ensures memory { Remembers by.now.equations.now by.now.left_out memory.new }
{
    match dropped.cause(&clause) {
        Some(cause) => Ok(Fate::Dropped(cause)),
        None => {
            let outcome = simplify(alloc, by, &clause, memory)?;
            let fate = fate_by(alloc, split, dropped, step, clause, outcome)?;
            Ok(fate)
        }
    }
}

/// The fate of a conclusion that was simplified. One that is dropped is noted.
fn fate_by(
    alloc: Global,
    split: bool,
    dropped: &mut DroppedConclusions,
    step: Step,
    clause: Clause,
    outcome: Simplified,
) -> Mem<Fate>
    ensures fate { IfOk result (IsFateBy split step clause outcome) }
    ensures dropped { IfOk result (λ _. (es us ms : List Member) → AreDropped es us ms dropped.old
        → IsSimplified es us ms None (clause_of clause) outcome → AreDropped es us ms dropped.new) }
{
    match outcome {
        Simplified::Tautology => drop_as(dropped, clause, Redundancy::Tautology),
        Simplified::Subsumed(number) => drop_as(dropped, clause, Redundancy::Subsumed(number)),
        Simplified::Reduced(reduced) => kept(alloc, split, step, clause, reduced),
    }
}

/// A conclusion that is dropped, which is noted.
fn drop_as(dropped: &mut DroppedConclusions, clause: Clause, cause: Redundancy) -> Mem<Fate>
    ensures fate { IfOk result (λ fate. fate ≡ Dropped cause) }
    ensures dropped { IfOk result (λ _. (es us ms : List Member) → AreDropped es us ms dropped.old
        → IsSimplified es us ms None (clause_of clause) (outcome_by cause) → AreDropped es us ms dropped.new) }
{
    dropped.put(clause, cause)?;
    Ok(Fate::Dropped(cause))
}

/// A conclusion that is kept, reduced. The line of the inference has the number that the clause that was handed in has in the lines of its
/// reduction, so these stay as they are.
fn kept(alloc: Global, split: bool, step: Step, clause: Clause, reduced: Reduced) -> Mem<Fate>
    ensures { IfOk result (IsKeptWith split step clause reduced) }
{
    let Reduced {
        clause: result,
        lines,
        used: _,
    } = reduced;
    let mut lines = lines.into_vec();
    lines.insert(0, Line { step, clause })?;
    let lines = Derivation::from_vec(lines);
    let results = handed_back(alloc, split, result)?;
    Ok(Fate::Kept { lines, results })
}
