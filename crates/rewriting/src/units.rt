// The set of units: by their numbers, and by the sides by which they may rewrite.

ghost use Rattle.std.specs.Prelude.{◌≡◌, ◌↔◌, ◌==◌, ◌<◌, ◌^◌, ℕ, [], None, Some, IfOk, IfSome, OnErr, IsTrue, if◌then◌else◌};
ghost use Rattle.std.specs.Option.{is_some, option_map};
ghost use Rattle.bank_clause.specs.Clause.{clause_at, IsClauseOf, IsMemberOf};
ghost use Rattle.fol_base.specs.Term.{tree_of};
ghost use Rattle.term_bank.specs.declared.bank.Bank.{Bank};
ghost use Rattle.rewriting.specs.Units.{AreClausesOf, HasCandidates, IsRecorded, IsUnit, clause_numbered};

use crate::descent::{Descent, descent_of};
use crate::index::{Orientation, orient, put_sides, take_sides};
use bank_clause::{BankClause, Member};
use disc_tree::DiscTree;
use fol_base::{LendsLiterals, SIZE_LIMIT, Term};
use indexmap::IndexMap;
use plain_types::{Mem, Numbers};
use std::alloc::Global;
use std::marker::Model;
use term_bank::Bank;

/// Clauses of a bank that are one equation each, with different numbers. Contracts see them as a list of members, and look them up by
/// their numbers.
#[derive(Drop)]
pub struct Units {
    alloc: Global,
    clauses: IndexMap<u64, Unit>,
    /// The sides by which units may rewrite, with the numbers of these sides.
    sides: DiscTree,
}

/// A unit, by which of its sides it may rewrite, and how these compare with the other ones.
#[derive(Drop)]
pub(crate) struct Unit {
    pub(crate) clause: BankClause,
    pub(crate) by: Orientation,
    pub(crate) descent: Descent,
}

/// Whether a clause is one equation.
pub fn is_unit(clause: &BankClause) -> bool
    ensures { IsTrue result ↔ IsUnit (clause_at clause.now) }
{
    let literals = clause.literals();
    literals.len() == 1 && literals[0].positive
}

impl Model for Units {
    ghost use Rattle.std.specs.Prelude.{◌≡◌, ℕ, List, map, nat_eq, Some};
    ghost use Rattle.indexmap.specs.IndexMap.{get};
    ghost use Rattle.bank_clause.specs.declared.member.Member.{Member};
    ghost use Rattle.rewriting.specs.Units.{IsUnitAt, member_of, members_code};
    ghost use Rattle.rewriting.specs.declared.units.Unit.{Unit};

    ghost Value = { List Member };

    ghost coded = { members_code };

    ghost view = { λ units. map member_of units.clauses.entries };

    ghost invariant = { λ units. (n : ℕ) (u : Unit) → get nat_eq units.clauses n ≡ Some u → IsUnitAt units.sides n u };
}

impl Units {
    /// No units.
    pub fn new(alloc: Global) -> Mem<Units>
        ensures none { IfOk result (λ units. units ≡ []) }
        ensures of_bank { IfOk result (λ units. (bank : Bank) → AreClausesOf bank units) }
    {
        let sides = DiscTree::new(alloc)?;
        Ok(Units {
            alloc,
            clauses: IndexMap::new(alloc),
            sides,
        })
    }

    /// Adds a unit, of which a copy is kept. After an out-of-memory error the set is as before.
    pub fn insert(&mut self, bank: &Bank, member: &Member) -> Mem<()>
        requires member { IsMemberOf bank.now member.now }
        requires unit { IsUnit (clause_at member.now.clause) }
        requires number { clause_numbered member.now.number self.old ≡ None }
        ensures ok { IfOk result (λ _. (n : ℕ) → clause_numbered n self.new
            ≡ (if member.now.number == n then Some member.now.clause else clause_numbered n self.old)) }
        ensures of_bank { IfOk result (λ _. AreClausesOf bank.now self.old → AreClausesOf bank.now self.new) }
        ensures err { OnErr result (self.new ≡ self.old) }
    {
        let is_small = u64::from(member.clause.size()) < SIZE_LIMIT;
        prove!(is_small);
        let alloc = self.alloc;
        let clause = member.clause.copied()?;
        self.clauses.reserve(1)?;
        let literals = member.clause.lend(bank);
        let equation = literals.literal(0);
        let by = orient(alloc, equation)?;
        let descent = descent_of(alloc, equation)?;
        put_sides(&mut self.sides, member.number, equation, by)?;
        let unit = Unit {
            clause,
            by,
            descent,
        };
        self.clauses.insert(u64::from(member.number), unit).unwrap();
        Ok(())
    }

    /// Takes away the unit with a number. True exactly where there is one. It takes no memory.
    pub fn remove(&mut self, bank: &Bank, number: u32) -> bool
        requires { AreClausesOf bank.now self.old }
        ensures there { result ≡ is_some (clause_numbered number self.old) }
        ensures removed { (n : ℕ) → clause_numbered n self.new ≡ (if number == n then None else clause_numbered n self.old) }
        ensures of_bank { AreClausesOf bank.now self.new }
    {
        match self.clauses.swap_remove(&u64::from(number)) {
            None => false,
            Some(unit) => {
                let literals = unit.clause.lend(bank);
                take_sides(&mut self.sides, number, literals.literal(0));
                true
            }
        }
    }

    /// The clause of the unit with a number.
    pub fn clause(&self, number: u64) -> Option<&BankClause>
        ensures clause { option_map (λ c. c.now) result ≡ clause_numbered number self.now }
        ensures numbered { IfSome result (λ _. number < 2 ^ 32) }
    {
        match self.unit(number) {
            None => None,
            Some(unit) => Some(&unit.clause),
        }
    }

    /// The unit with a number.
    pub(crate) fn unit(&self, number: u64) -> Option<&Unit>
        ensures clause { option_map (λ u. u.now.clause) result ≡ clause_numbered number self.now }
        ensures recorded { IfSome result (λ u. IsRecorded u.now) }
        ensures numbered { IfSome result (λ _. number < 2 ^ 32) }
    {
        self.clauses.get(&number)
    }

    /// The numbers of sides that may be generalisations of a term, each side of a unit that is one and by which it may rewrite among them.
    pub(crate) fn candidates(&self, term: &Term) -> Mem<Numbers>
        ensures { IfOk result (λ numbers. HasCandidates self.now (tree_of term.now) numbers) }
    {
        let found = self.sides.generalisations(term)?;
        Ok(found)
    }
}
