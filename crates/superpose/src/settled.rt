// Sides that are in order under every substitution, as the clause alone tells: greater is kept by substitutions, so the order need not be
// asked again for each partner.

ghost use Rattle.std.specs.Prelude.{◌≡◌, ◌↔◌, ◌<◌, true, length, sum_by, IfOk};
ghost use Rattle.fol_base.specs.Clause.{literal_size};
ghost use Rattle.bank_clause.specs.Clause.{clause_at, IsMemberOf};
ghost use Rattle.superpose.specs.Settled.{AreSettled, IsGreatest, IsSettled, Outdoes};

use crate::sites::{left_of, right_of};
use bank_clause::{BankLiterals, Member};
use eq_rules::LiteralSide;
use fol_base::LendsLiterals;
use kbo_order::{COMPARED_SIZE_LIMIT, compare, compare_literals};
use plain_types::Mem;
use std::alloc::Global;
use term_bank::Bank;

/// Which sides of a literal are in order under every substitution.
#[derive(Clone, Copy)]
pub struct SettledSides {
    pub left: bool,
    pub right: bool,
}

/// Which sides of the literals of a clause, with the choice made before, are in order under every substitution.
pub fn settled_sides(
    alloc: Global,
    bank: &Bank,
    member: &Member,
    choice: Option<usize>,
) -> Mem<Vec<SettledSides>>
    requires { IsMemberOf bank.now member.now }
    ensures { IfOk result (λ settled. AreSettled (clause_at member.now.clause).literals choice settled.items) }
{
    let count = member.clause.literals().len();
    let mut settled = Vec::with_capacity(alloc, count)?;
    for literal in 0..count {
        let left = is_settled(bank, member, choice, left_of(literal));
        let right = is_settled(bank, member, choice, right_of(literal));
        settled.push(SettledSides { left, right })?;
    }
    Ok(settled)
}

/// Whether a side is greater than the other one, and its literal the chosen one, or, where none is chosen, greater than each other.
fn is_settled(bank: &Bank, member: &Member, choice: Option<usize>, at: LiteralSide) -> bool
    requires member { IsMemberOf bank.now member.now }
    requires inside { at.literal < length (clause_at member.now.clause).literals }
    ensures { (result ≡ true) ↔ IsSettled (clause_at member.now.clause).literals choice at }
{
    let is_small = u64::from(member.clause.size()) < COMPARED_SIZE_LIMIT;
    prove!(is_small);
    let literals = member.clause.lend(bank);
    let literal = literals.literal(at.literal);
    compare(literal.side(at.side), literal.other_side(at.side)).is_greater()
        && outdoes_others(&literals, at.literal, choice)
}

/// Whether a literal is the chosen one, or, where none is chosen, greater than each other.
fn outdoes_others(literals: &BankLiterals<'_>, index: usize, choice: Option<usize>) -> bool
    requires inside { index < length literals.now }
    requires size { sum_by literal_size literals.now < COMPARED_SIZE_LIMIT }
    ensures { (result ≡ true) ↔ Outdoes literals.now choice index }
{
    match choice {
        Some(chosen) => index == chosen,
        None => is_greatest(literals, index),
    }
}

/// Whether a literal is greater than each other.
fn is_greatest(literals: &BankLiterals<'_>, index: usize) -> bool
    requires inside { index < length literals.now }
    requires size { sum_by literal_size literals.now < COMPARED_SIZE_LIMIT }
    ensures { (result ≡ true) ↔ IsGreatest literals.now index }
{
    let literal = literals.literal(index);
    for other in 0..literals.count() {
        if other != index && !compare_literals(literal, literals.literal(other)).is_greater() {
            return false;
        }
    }
    true
}
