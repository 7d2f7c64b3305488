// The members of a list that a unit rewrites.

ghost use Rattle.std.specs.Prelude.{◌≡◌, ◌==◌, ◌++◌, ◌∷◌, [], ℕ, None, Some, IfOk, MatchBool, if◌then◌else◌};
ghost use Rattle.fol_base.specs.WellFormed.{SymbolUse};
ghost use Rattle.bank_clause.specs.Clause.{AreMembersOf, IsMemberOf, clause_at};
ghost use Rattle.bank_clause.specs.declared.member.Member.{Member};
ghost use Rattle.rewriting.specs.Units.{IsUnit, clause_numbered};
ghost use Rattle.rewriting.specs.Rewritable.{AreRewritable, IsRewrittenBy};
ghost use Rattle.bank_clause.specs.Members.{IsMemberOfUse};

use crate::normal_terms::NormalTerms;
use crate::searching::Rewriters;
use crate::units::Units;
use bank_clause::{Member, Members};
use fol_base::SIZE_LIMIT;
use plain_types::{Mem, Numbers};
use std::alloc::Global;
use term_bank::Bank;

/// The numbers of exactly the members that a unit rewrites, rising. The unit doesn't rewrite itself: a member with its number is left out.
pub fn rewritable(alloc: Global, bank: &Bank, unit: &Member, clauses: &Members) -> Mem<Numbers>
    requires member { IsMemberOf bank.now unit.now }
    requires unit { IsUnit (clause_at unit.now.clause) }
    requires clauses { AreMembersOf bank.now clauses.now }
    ensures { IfOk result (AreRewritable unit.now clauses.now) }
{
    let mut units = Units::new(alloc)?;
    units.insert(bank, unit)?;
    let mut found = Vec::new(alloc);
    for member in clauses.as_slice() {
        let rewritten = is_rewritten(alloc, bank, &units, unit, member)?;
        push_where(&mut found, member.number, rewritten)?;
    }
    found.sort_unstable();
    found.dedup();
    Ok(Numbers::from_vec(found))
}

/// Adds a number at the end, or leaves the list as it is.
fn push_where(numbers: &mut Vec<u64>, number: u32, added: bool) -> Mem<()>
    ensures { IfOk result (λ _. numbers.new.items ≡ (if added then numbers.old.items ++ number ∷ [] else numbers.old.items)) }
{
    if added {
        numbers.push(u64::from(number))?;
    }
    Ok(())
}

/// Whether a unit, which stands alone in a set, rewrites another member.
fn is_rewritten(
    alloc: Global,
    bank: &Bank,
    units: &Units,
    unit: &Member,
    member: &Member,
) -> Mem<bool>
    requires alone { (n : ℕ) → clause_numbered n units.now ≡ (if unit.now.number == n then Some unit.now.clause else None) }
    requires of_bank { IsMemberOf bank.now unit.now }
    requires member { IsMemberOf bank.now member.now }
    ensures { IfOk result (λ answer. (usage : SymbolUse) → IsMemberOfUse usage unit.now → IsMemberOfUse usage member.now
        → MatchBool answer (IsRewrittenBy usage.is_predicate unit.now member.now) (IsRewrittenBy usage.is_predicate unit.now member.now → ⊥)) }
{
    let is_small = u64::from(member.clause.size()) < SIZE_LIMIT;
    prove!(is_small);
    let by = Rewriters {
        units,
        bank,
        asserted: member.clause.names(),
        left_out: Some(member.number),
    };
    let literals = member.clause.lend(bank);
    let mut normal = NormalTerms::new(alloc);
    let found = by.find(alloc, &literals, &mut normal)?;
    Ok(found.is_some())
}
