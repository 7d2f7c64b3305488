// The reduced clause with which a reduction begins, and the note of the clauses that it used.

ghost use Rattle.std.specs.Prelude.{◌≡◌, ℕ, Bool, [], IfOk, OnErr, Option};
ghost use Rattle.fol_base.specs.Clause.{TreeClause};
ghost use Rattle.fol_base.specs.Literal.{clause_of};
ghost use Rattle.kernel_steps.specs.Split.{has_number};
ghost use Rattle.reduced_clause.specs.Reduced.{IsReduced, with_number};

use fol_base::Clause;
use kernel_steps::{Derivation, Reduced};
use plain_types::{Mem, Numbers};
use std::alloc::Global;

/// A clause to which nothing was done, as a reduced one: the clause itself, without lines. It takes no memory.
pub fn unreduced(alloc: Global, clause: Clause) -> Reduced
    ensures reduced { (is_predicate : ℕ → Bool) (clauses : ℕ → Option TreeClause) → IsReduced is_predicate clauses (clause_of clause) result }
    ensures same { result.clause ≡ clause }
    ensures no_lines { result.lines ≡ [] }
{
    Reduced {
        clause,
        lines: Derivation::new(alloc),
        used: Numbers::new(alloc),
    }
}

/// The unreduced clause by a copy, for a caller that doesn't own it.
pub fn unreduced_copy(alloc: Global, clause: &Clause) -> Mem<Reduced>
    ensures reduced { IfOk result (λ made. (is_predicate : ℕ → Bool) (clauses : ℕ → Option TreeClause)
        → IsReduced is_predicate clauses (clause_of clause.now) made) }
    ensures same { IfOk result (λ made. clause_of made.clause ≡ clause_of clause.now) }
    ensures no_lines { IfOk result (λ made. made.lines ≡ []) }
{
    let copied = clause.copy(alloc)?;
    Ok(unreduced(alloc, copied))
}

/// Notes a clause that was used, by its number, unless it is there. After an out-of-memory error the list is as before.
pub fn put_used(used: &mut Numbers, number: u32) -> Mem<()>
    ensures ok { IfOk result (λ _. used.new ≡ with_number number used.old) }
    ensures err { OnErr result (used.new ≡ used.old) }
{
    let number = u64::from(number);
    if is_listed(used.as_slice(), number) {
        return Ok(());
    }
    used.push(number)
}

/// Whether a number stands in a list.
pub(crate) fn is_listed(numbers: &[u64], number: u64) -> bool
    ensures { result ≡ has_number number numbers.now }
{
    numbers.iter().any(|known| number == *known)
}
