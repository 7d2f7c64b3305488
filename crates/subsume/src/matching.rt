// Matching of literals, side by side.

ghost use Rattle.std.specs.Prelude.{◌≡◌, ◌↔◌, ◌||◌, ℕ, Bool, true, map, IfOk, IfSome, IsTrue, MatchOption};
ghost use Rattle.fol_base.specs.Tree.{tree_eq, variable, VariablesBelow};
ghost use Rattle.fol_base.specs.Term.{tree_of};
ghost use Rattle.fol_base.specs.Instance.{Substitution, instance};
ghost use Rattle.fol_base.specs.Clause.{LiteralVariablesBelow};
ghost use Rattle.fol_base.specs.Lent.{lent_of};
ghost use Rattle.fol_base.specs.Subsumption.{all_different};
ghost use Rattle.unifier.specs.Matching.{HasPairs, are_below, variables_of};
ghost use Rattle.unifier.specs.Laws.{AreFunctionPairs, are_of_one_kind};
ghost use Rattle.subsume.specs.Kinds.{TurnsInto, are_alike};
ghost use Rattle.subsume.specs.Choosing.{MayBecome, MayTurn};

use fol_base::{LendsTerms, LiteralRef, Term, same_term};
use plain_types::Mem;
use std::alloc::Global;
use unifier::{Matched, match_onto};

/// Whether two literals have one sign and are of one kind: an atom has `$true` on its right side, an equation between function terms
/// hasn't.
pub fn are_alike(pattern: LiteralRef<'_>, target: LiteralRef<'_>) -> bool
    ensures { result ≡ are_alike (lent_of pattern.entry) (lent_of target.entry) }
{
    pattern.positive == target.positive && pattern.right.is_truth() == target.right.is_truth()
}

/// Whether the pairs leave it open that a substitution which has them turns a term into another one. False only where none does; that one
/// variable without a pair would have to become two terms isn't looked at. Memory is taken only where a variable stands for itself.
#[cycle(may_become)]
fn may_become(alloc: Global, pattern: &Term, target: &Term, so_far: &Matched<'_>) -> Mem<bool>
    ensures { IfOk result (MayBecome so_far.now (tree_of pattern.now) (tree_of target.now)) }
{
    match pattern {
        Term::Var(variable) => variable_may_become(alloc, *variable, pattern, target, so_far),
        Term::App(symbol, arguments) => match target {
            Term::Var(_) => Ok(false),
            Term::App(other, others) => {
                if *symbol == *other {
                    all_may_become(alloc, arguments.as_slice(), others.as_slice(), so_far)
                } else {
                    Ok(false)
                }
            }
        },
    }
}

/// Whether the terms at each place of two lists may match.
#[cycle(may_become)]
fn all_may_become(
    alloc: Global,
    patterns: &[Term],
    targets: &[Term],
    so_far: &Matched<'_>,
) -> Mem<bool>
    ensures { IfOk result (λ found. (σ : Substitution) → HasPairs so_far.now σ
        → map (instance σ) (map tree_of patterns.now) ≡ map tree_of targets.now → found ≡ true) }
{
    if patterns.len() != targets.len() {
        return Ok(false);
    }
    for index in 0..patterns.len() {
        let fits = may_become(alloc, &patterns[index], &targets[index], so_far)?;
        if !fits {
            return Ok(false);
        }
    }
    Ok(true)
}

/// Whether a variable may match. One that is lent as itself has a pair or none: that is found out by a match.
fn variable_may_become(
    alloc: Global,
    number: u32,
    pattern: &Term,
    target: &Term,
    so_far: &Matched<'_>,
) -> Mem<bool>
    requires { tree_of pattern.now ≡ variable number }
    ensures { IfOk result (MayBecome so_far.now (tree_of pattern.now) (tree_of target.now)) }
{
    match so_far.term(number) {
        None => Ok(true),
        Some(term) => {
            if same_term(term, target) {
                return Ok(true);
            }
            if !same_term(term, pattern) {
                return Ok(false);
            }
            let found = match_onto(alloc, pattern, target, so_far)?;
            Ok(found.is_some())
        }
    }
}

/// Whether the pairs leave it open that a substitution which has them turns each side of a literal into the same side of another one.
pub(crate) fn may_turn(
    alloc: Global,
    pattern: LiteralRef<'_>,
    target: LiteralRef<'_>,
    so_far: &Matched<'_>,
) -> Mem<bool>
    ensures { IfOk result (MayTurn so_far.now (lent_of pattern.entry) (lent_of target.entry)) }
{
    let fits = may_become(alloc, pattern.left, target.left, so_far)?;
    if !fits {
        return Ok(false);
    }
    may_become(alloc, pattern.right, target.right, so_far)
}

/// The pairs handed in and those that turn each side of a literal into the same side of another one. None exactly where no substitution
/// has all of them.
pub fn match_sides<'a>(
    alloc: Global,
    pattern: LiteralRef<'_>,
    target: LiteralRef<'a>,
    so_far: &Matched<'a>,
) -> Mem<Option<Matched<'a>>>
    ensures found { IfOk result (λ found. MatchOption found
        ((σ : Substitution) → HasPairs so_far.now σ → TurnsInto σ (lent_of pattern.entry) (lent_of target.entry) → ⊥)
        (λ pairs. (σ : Substitution) → HasPairs pairs σ
        ↔ (HasPairs so_far.now σ × TurnsInto σ (lent_of pattern.entry) (lent_of target.entry)))) }
    ensures below { IfOk result (λ found. (count : ℕ) → LiteralVariablesBelow count (lent_of pattern.entry)
        → are_below count so_far.now ≡ true → IfSome found (λ pairs. are_below count pairs ≡ true)) }
    ensures once { IfOk result (λ found. all_different (variables_of so_far.now) ≡ true
        → IfSome found (λ pairs. all_different (variables_of pairs) ≡ true)) }
    ensures function_terms { IfOk result (λ found. (is_predicate : ℕ → Bool)
        → IsTrue (are_of_one_kind is_predicate (tree_of pattern.entry.left.now) (tree_of target.entry.left.now))
        → IsTrue (are_of_one_kind is_predicate (tree_of pattern.entry.right.now) (tree_of target.entry.right.now))
        → AreFunctionPairs is_predicate so_far.now → IfSome found (AreFunctionPairs is_predicate)) }
{
    let fits = may_turn(alloc, pattern, target, so_far)?;
    if !fits {
        return Ok(None);
    }
    match match_onto(alloc, pattern.left, target.left, so_far)? {
        None => Ok(None),
        Some(mut pairs) => {
            let fits = pairs.extend(pattern.right, target.right)?;
            if fits { Ok(Some(pairs)) } else { Ok(None) }
        }
    }
}
