// The four features of a clause that everybody may know.

ghost use mathlib.Core.Bool.{beq};
ghost use Rattle.std.specs.Prelude.{◌≡◌, ◌^◌, ◌-◌, IfOk, min};
ghost use Rattle.fol_base.specs.Clause.{literal_size};
ghost use Rattle.bank_clause.specs.Clause.{clause_at, IsClauseOf};
ghost use Rattle.subsume.specs.Features.{clause_features, measured};

use bank_clause::BankClause;
use fol_base::{LendsLiterals, SIZE_LIMIT};
use plain_types::{Mem, Numbers};
use std::alloc::Global;
use term_bank::Bank;

/// How many literals there are, and their sizes together, each stopping at u64's last value.
#[derive(Clone, Copy)]
struct Counts {
    literals: u64,
    symbols: u64,
}

/// The features of a clause: the number of its positive literals, that of its negative ones, the size of the positive ones and that of the
/// negative ones. Where a clause subsumes another, none of its features is greater.
pub fn features(alloc: Global, bank: &Bank, clause: &BankClause) -> Mem<Numbers>
    requires { IsClauseOf bank.now clause.now }
    ensures { IfOk result (λ numbers. numbers ≡ clause_features (clause_at clause.now).literals) }
{
    let is_small = u64::from(clause.size()) < SIZE_LIMIT;
    prove!(is_small);
    let literals = clause.lend(bank);
    let positive = counts_of(&literals, true);
    let negative = counts_of(&literals, false);
    let mut features = Vec::with_capacity(alloc, 4)?;
    features.push(positive.literals)?;
    features.push(negative.literals)?;
    features.push(positive.symbols)?;
    features.push(negative.symbols)?;
    Ok(Numbers::from_vec(features))
}

/// Counts the literals of a sign.
fn counts_of<L: LendsLiterals>(literals: &L, positive: bool) -> Counts
    ensures literals { result.literals ≡ min (measured positive (λ l. 1) (L.meaning literals.now)) (2 ^ 64 - 1) }
    ensures symbols { result.symbols ≡ min (measured positive literal_size (L.meaning literals.now)) (2 ^ 64 - 1) }
{
    let mut counts = Counts {
        literals: 0,
        symbols: 0,
    };
    for index in 0..literals.count() {
        let literal = literals.literal(index);
        if literal.positive == positive {
            counts.literals = counts.literals.saturating_add(1);
            counts.symbols = counts.symbols.saturating_add(literal.size());
        }
    }
    counts
}
