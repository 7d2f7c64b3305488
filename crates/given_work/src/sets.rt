// The told clauses in the sets in which they are looked for when others are simplified.

ghost use Rattle.std.specs.Prelude.{◌≡◌, ◌==◌, ◌++◌, [], ◌∷◌, None, List, not, filter, IfOk};
ghost use Rattle.bank_clause.specs.Clause.{IsMemberOf};
ghost use Rattle.bank_clause.specs.declared.member.Member.{Member};
ghost use Rattle.rewriting.specs.Units.{AreClausesOf, IsUnit, clause_numbered};
ghost use Rattle.subsume.specs.Editing.{HasNoNumber};
ghost use Rattle.unit_cutting.specs.Indexed.{HasOneLiteral};
ghost use Rattle.given_work.specs.Sets.{AreSetsOf, FindsThose, HasMembers};

use bank_clause::Member;
use plain_types::Mem;
use rewriting::{Units, is_unit};
use std::alloc::Global;
use subsume::Subsumers;
use term_bank::Bank;
use unit_cutting::{UnitIndex, has_one_literal};

/// The sets of told clauses by which others are simplified.
#[derive(Drop)]
pub(crate) struct Sets {
    /// Those that are one equation.
    pub(crate) equations: Units,
    /// Those with one literal.
    pub(crate) units: UnitIndex,
    /// All of them.
    pub(crate) subsumers: Subsumers,
}

impl Sets {
    /// No clauses.
    pub(crate) fn new(alloc: Global) -> Mem<Sets>
        ensures { IfOk result (AreSetsOf []) }
    {
        Ok(Sets {
            equations: Units::new(alloc)?,
            units: UnitIndex::new(alloc)?,
            subsumers: Subsumers::new(alloc)?,
        })
    }

    /// Adds a clause. None with its number is there.
    pub(crate) fn insert(&mut self, bank: &Bank, member: &Member) -> Mem<()>
        requires member { IsMemberOf bank.now member.now }
        requires new_equation { clause_numbered member.now.number self.old.equations ≡ None }
        requires new_unit { clause_numbered member.now.number self.old.units ≡ None }
        requires new_member { HasNoNumber member.now.number self.old.subsumers }
        ensures { IfOk result (λ _. (ms : List Member) → HasNoNumber member.now.number ms → AreSetsOf ms self.old
            → AreSetsOf (ms ++ member.now ∷ []) self.new) }
    {
        put_equation(&mut self.equations, bank, member)?;
        put_unit(&mut self.units, bank, member)?;
        self.subsumers.insert(bank, member)?;
        Ok(())
    }

    /// Takes away the clause with a number, if it is there.
    pub(crate) fn remove(&mut self, bank: &Bank, number: u32)
        requires equations { AreClausesOf bank.now self.old.equations }
        requires units { AreClausesOf bank.now self.old.units }
        ensures { (ms : List Member) → AreSetsOf ms self.old
            → AreSetsOf (filter (λ (m : Member). not (m.number == number)) ms) self.new }
    {
        self.equations.remove(bank, number);
        self.units.remove(bank, number);
        take_member(&mut self.subsumers, number);
    }
}

/// Adds a clause if it is one equation.
fn put_equation(equations: &mut Units, bank: &Bank, member: &Member) -> Mem<()>
    requires member { IsMemberOf bank.now member.now }
    requires new { clause_numbered member.now.number equations.old ≡ None }
    ensures { IfOk result (λ _. (ms : List Member) → HasNoNumber member.now.number ms → FindsThose IsUnit ms equations.old
        → FindsThose IsUnit (ms ++ member.now ∷ []) equations.new) }
{
    if is_unit(&member.clause) {
        equations.insert(bank, member)?;
    }
    Ok(())
}

/// Adds a clause if it has one literal.
fn put_unit(units: &mut UnitIndex, bank: &Bank, member: &Member) -> Mem<()>
    requires member { IsMemberOf bank.now member.now }
    requires new { clause_numbered member.now.number units.old ≡ None }
    ensures { IfOk result (λ _. (ms : List Member) → HasNoNumber member.now.number ms → FindsThose HasOneLiteral ms units.old
        → FindsThose HasOneLiteral (ms ++ member.now ∷ []) units.new) }
{
    if has_one_literal(&member.clause) {
        units.insert(bank, member)?;
    }
    Ok(())
}

/// Takes away the clause with a number, if it is there.
fn take_member(subsumers: &mut Subsumers, number: u32)
    ensures { (ms : List Member) → HasMembers ms subsumers.old
        → HasMembers (filter (λ (m : Member). not (m.number == number)) ms) subsumers.new }
{
    let _ = subsumers.remove(number);
}
