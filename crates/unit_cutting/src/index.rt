// The set of units: by their numbers, and by the left sides of their literals.

ghost use Rattle.std.specs.Prelude.{◌≡◌, ◌↔◌, ◌==◌, ◌<◌, ◌^◌, ℕ, [], None, Some, IfOk, IfSome, OnErr, IsTrue, if◌then◌else◌};
ghost use Rattle.std.specs.Option.{is_some, option_map};
ghost use Rattle.bank_clause.specs.Clause.{clause_at, IsMemberOf};
ghost use Rattle.fol_base.specs.Lent.{lent_of};
ghost use Rattle.term_bank.specs.declared.bank.Bank.{Bank};
ghost use Rattle.rewriting.specs.Units.{AreClausesOf, clause_numbered};
ghost use Rattle.unit_cutting.specs.Indexed.{HasCandidates, HasOneLiteral};

use bank_clause::{BankClause, Member};
use disc_tree::DiscTree;
use fol_base::{LendsLiterals, LiteralRef};
use indexmap::IndexMap;
use plain_types::{Mem, Numbers};
use std::alloc::Global;
use std::marker::Model;
use term_bank::Bank;

/// Clauses of a bank with one literal each, of either sign, with different numbers. Contracts see them as a list of members, and look them
/// up by their numbers.
#[derive(Drop)]
pub struct UnitIndex {
    pub(crate) units: IndexMap<u64, Member>,
    /// The left side of each unit, with the unit's number.
    lefts: DiscTree,
}

/// Whether a clause has one literal.
pub fn has_one_literal(clause: &BankClause) -> bool
    ensures { IsTrue result ↔ HasOneLiteral (clause_at clause.now) }
{
    clause.literals().len() == 1
}

impl Model for UnitIndex {
    ghost use Rattle.std.specs.Prelude.{◌≡◌, ℕ, List, map, nat_eq, Some};
    ghost use Rattle.indexmap.specs.IndexMap.{get};
    ghost use Rattle.bank_clause.specs.declared.member.Member.{Member};
    ghost use Rattle.rewriting.specs.Units.{members_code};
    ghost use Rattle.unit_cutting.specs.Indexed.{IsIndexedAt, member_of};

    ghost Value = { List Member };

    ghost coded = { members_code };

    ghost view = { λ index. map member_of index.units.entries };

    ghost invariant = { λ index. (n : ℕ) (m : Member) → get nat_eq index.units n ≡ Some m → IsIndexedAt index.lefts n m };
}

impl UnitIndex {
    /// No units.
    pub fn new(alloc: Global) -> Mem<UnitIndex>
        ensures none { IfOk result (λ units. units ≡ []) }
        ensures of_bank { IfOk result (λ units. (bank : Bank) → AreClausesOf bank units) }
    {
        let lefts = DiscTree::new(alloc)?;
        Ok(UnitIndex {
            units: IndexMap::new(alloc),
            lefts,
        })
    }

    /// Adds a unit, of which a copy is kept. After an out-of-memory error the set is as before.
    pub fn insert(&mut self, bank: &Bank, member: &Member) -> Mem<()>
        requires member { IsMemberOf bank.now member.now }
        requires one { HasOneLiteral (clause_at member.now.clause) }
        requires number { clause_numbered member.now.number self.old ≡ None }
        ensures ok { IfOk result (λ _. (n : ℕ) → clause_numbered n self.new
            ≡ (if member.now.number == n then Some member.now.clause else clause_numbered n self.old)) }
        ensures of_bank { IfOk result (λ _. AreClausesOf bank.now self.old → AreClausesOf bank.now self.new) }
        ensures err { OnErr result (self.new ≡ self.old) }
    {
        let number = member.number;
        let clause = member.clause.copied()?;
        self.units.reserve(1)?;
        let literals = member.clause.lend(bank);
        self.lefts
            .insert(literals.literal(0).left, u64::from(number))?;
        self.units
            .insert(u64::from(number), Member { number, clause })
            .unwrap();
        Ok(())
    }

    /// Takes away the unit with a number. True exactly where there is one. It takes no memory.
    pub fn remove(&mut self, bank: &Bank, number: u32) -> bool
        requires { AreClausesOf bank.now self.old }
        ensures there { result ≡ is_some (clause_numbered number self.old) }
        ensures removed { (n : ℕ) → clause_numbered n self.new ≡ (if number == n then None else clause_numbered n self.old) }
        ensures of_bank { AreClausesOf bank.now self.new }
    {
        match self.units.swap_remove(&u64::from(number)) {
            None => false,
            Some(unit) => {
                let literals = unit.clause.lend(bank);
                self.lefts
                    .remove(literals.literal(0).left, u64::from(number));
                true
            }
        }
    }

    /// The unit with a number.
    pub fn unit(&self, number: u64) -> Option<&Member>
        ensures clause { option_map (λ m. m.now.clause) result ≡ clause_numbered number self.now }
        ensures number { IfSome result (λ m. m.now.number ≡ number) }
        ensures low { IfSome result (λ _. number < 2 ^ 32) }
        ensures one { IfSome result (λ m. HasOneLiteral (clause_at m.now.clause)) }
    {
        self.units.get(&number)
    }

    /// The numbers of units of which a literal may have a side that is an instance of the left one, each unit whose left side has such an
    /// instance among them.
    pub(crate) fn candidates(&self, literal: LiteralRef<'_>) -> Mem<Numbers>
        ensures { IfOk result (λ numbers. HasCandidates self.now (lent_of literal.entry) numbers) }
    {
        let mut found = self.lefts.generalisations(literal.left)?.into_vec();
        self.lefts.push_generalisations(literal.right, &mut found)?;
        Ok(Numbers::from_vec(found))
    }
}
