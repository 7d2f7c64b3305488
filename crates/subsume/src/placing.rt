// The search for different literals of a clause onto which those of another one are mapped: backtracking, with marks at the literals
// that are taken.

ghost use Rattle.std.specs.Prelude.{◌≡◌, ◌<◌, ◌+◌, ◌∷◌, ◌++◌, ℕ, Bool, true, drop, length, map, take, IfOk, IfSome, IsTrue, MatchOption, All, ⊤};
ghost use Rattle.fol_base.specs.Clause.{LiteralVariablesBelow, literal_instance};
ghost use Rattle.fol_base.specs.Kind.{is_literal};
ghost use Rattle.fol_base.specs.Order.{equivalent_literals};
ghost use Rattle.fol_base.specs.Subsumption.{all_different};
ghost use Rattle.fol_base.specs.Lent.{lent_of};
ghost use Rattle.fol_base.specs.Term.{tree_of};
ghost use Rattle.unifier.specs.Matching.{are_below, variables_of};
ghost use Rattle.unifier.specs.Laws.{AreFunctionPairs, are_of_one_kind};
ghost use Rattle.subsume.specs.Kinds.{AreLiterals, TurnsInto, are_alike};
ghost use Rattle.subsume.specs.Placing.{IsFoundFor, Places};

use crate::choosing::choose;
use crate::matching::{are_alike, match_sides};
use fol_base::LiteralRef;
use plain_types::Mem;
use std::alloc::Global;
use unifier::Matched;

/// The pairs handed in and those that map the patterns to different targets that are free. None exactly where no substitution by
/// function terms maps them so, and then the marks are as before.
#[cycle(place)]
pub(crate) fn place<'a>(
    alloc: Global,
    patterns: &[LiteralRef<'_>],
    targets: &[LiteralRef<'a>],
    used: &mut [bool],
    so_far: Matched<'a>,
) -> Mem<Option<Matched<'a>>>
    requires { length used.old ≡ length targets.now }
    ensures found { IfOk result (λ found. IsFoundFor (map lent_of patterns.now) (map lent_of targets.now)
        (Places used.old (map lent_of patterns.now) (map lent_of targets.now) so_far.entry) found) }
    ensures marks { IfOk result (λ found. MatchOption found (used.new ≡ used.old) (λ _. ⊤)) }
    ensures below { IfOk result (λ found. (count : ℕ) → All (LiteralVariablesBelow count) (map lent_of patterns.now)
        → are_below count so_far.entry ≡ true → IfSome found (λ pairs. are_below count pairs ≡ true)) }
    ensures once { IfOk result (λ found. all_different (variables_of so_far.entry) ≡ true
        → IfSome found (λ pairs. all_different (variables_of pairs) ≡ true)) }
    ensures function_terms { IfOk result (λ found. (is_predicate : ℕ → Bool)
        → AreLiterals is_predicate (map lent_of patterns.now) → AreLiterals is_predicate (map lent_of targets.now)
        → AreFunctionPairs is_predicate so_far.entry → IfSome found (AreFunctionPairs is_predicate)) }
{
    if patterns.is_empty() {
        return Ok(Some(so_far));
    }
    let Some(chosen) = choose(alloc, patterns, targets, used, &so_far)? else {
        return Ok(None);
    };
    let pattern = patterns[chosen];
    let others = all_but(alloc, patterns, chosen)?;
    let rest = others.as_slice();
    for at in 0..targets.len() {
        let target = targets[at];
        if !used[at] && are_alike(pattern, target) {
            used[at] = true;
            let found = place_onto(alloc, rest, targets, used, pattern, target, &so_far)?;
            if found.is_some() {
                return Ok(found);
            }
            used[at] = false;
        }
    }
    Ok(None)
}

/// All literals but that of an index.
fn all_but<'a>(alloc: Global, literals: &[LiteralRef<'a>], index: usize) -> Mem<Vec<LiteralRef<'a>>>
    requires { index < length literals.now }
    ensures { IfOk result (λ rest. rest.items ≡ take index literals.now ++ drop (index + 1) literals.now) }
{
    let mut rest = Vec::with_capacity(alloc, literals.len() - 1)?;
    rest.extend_from_slice(&literals[..index])?;
    rest.extend_from_slice(&literals[index + 1..])?;
    Ok(rest)
}

/// Places the rest after a pattern was mapped to a target, by either order of its sides. Of an atom's sides only one order comes
/// into question.
#[cycle(place)]
fn place_onto<'a>(
    alloc: Global,
    rest: &[LiteralRef<'_>],
    targets: &[LiteralRef<'a>],
    used: &mut [bool],
    pattern: LiteralRef<'_>,
    target: LiteralRef<'a>,
    so_far: &Matched<'a>,
) -> Mem<Option<Matched<'a>>>
    requires marks { length used.old ≡ length targets.now }
    requires alike { are_alike (lent_of pattern) (lent_of target) ≡ true }
    ensures found { IfOk result (λ found. IsFoundFor (lent_of pattern.entry ∷ map lent_of rest.now) (map lent_of targets.now)
        (λ σ. IsTrue (equivalent_literals (literal_instance σ (lent_of pattern.entry)) (lent_of target.entry)) × Places used.old (map lent_of rest.now) (map lent_of targets.now) so_far.now σ) found) }
    ensures marks { IfOk result (λ found. MatchOption found (used.new ≡ used.old) (λ _. ⊤)) }
    ensures below { IfOk result (λ found. (count : ℕ) → LiteralVariablesBelow count (lent_of pattern.entry) → All (LiteralVariablesBelow count) (map lent_of rest.now)
        → are_below count so_far.now ≡ true → IfSome found (λ pairs. are_below count pairs ≡ true)) }
    ensures once { IfOk result (λ found. all_different (variables_of so_far.now) ≡ true
        → IfSome found (λ pairs. all_different (variables_of pairs) ≡ true)) }
    ensures function_terms { IfOk result (λ found. (is_predicate : ℕ → Bool)
        → AreLiterals is_predicate (map lent_of rest.now) → AreLiterals is_predicate (map lent_of targets.now)
        → IsTrue (is_literal is_predicate (lent_of pattern.entry)) → IsTrue (is_literal is_predicate (lent_of target.entry))
        → AreFunctionPairs is_predicate so_far.now → IfSome found (AreFunctionPairs is_predicate)) }
{
    let found = place_sides(alloc, rest, targets, used, pattern, target, so_far)?;
    if found.is_some() || target.right.is_truth() {
        return Ok(found);
    }
    place_sides(
        alloc,
        rest,
        targets,
        used,
        pattern,
        target.exchanged(),
        so_far,
    )
}

/// Places the rest where each side of a pattern becomes the same side of the target.
#[cycle(place)]
fn place_sides<'a>(
    alloc: Global,
    rest: &[LiteralRef<'_>],
    targets: &[LiteralRef<'a>],
    used: &mut [bool],
    pattern: LiteralRef<'_>,
    target: LiteralRef<'a>,
    so_far: &Matched<'a>,
) -> Mem<Option<Matched<'a>>>
    requires { length used.old ≡ length targets.now }
    ensures found { IfOk result (λ found. IsFoundFor (lent_of pattern.entry ∷ map lent_of rest.now) (map lent_of targets.now)
        (λ σ. TurnsInto σ (lent_of pattern.entry) (lent_of target.entry) × Places used.old (map lent_of rest.now) (map lent_of targets.now) so_far.now σ) found) }
    ensures marks { IfOk result (λ found. MatchOption found (used.new ≡ used.old) (λ _. ⊤)) }
    ensures below { IfOk result (λ found. (count : ℕ) → LiteralVariablesBelow count (lent_of pattern.entry) → All (LiteralVariablesBelow count) (map lent_of rest.now)
        → are_below count so_far.now ≡ true → IfSome found (λ pairs. are_below count pairs ≡ true)) }
    ensures once { IfOk result (λ found. all_different (variables_of so_far.now) ≡ true
        → IfSome found (λ pairs. all_different (variables_of pairs) ≡ true)) }
    ensures function_terms { IfOk result (λ found. (is_predicate : ℕ → Bool)
        → AreLiterals is_predicate (map lent_of rest.now) → AreLiterals is_predicate (map lent_of targets.now)
        → IsTrue (are_of_one_kind is_predicate (tree_of pattern.entry.left.now) (tree_of target.entry.left.now))
        → IsTrue (are_of_one_kind is_predicate (tree_of pattern.entry.right.now) (tree_of target.entry.right.now))
        → AreFunctionPairs is_predicate so_far.now → IfSome found (AreFunctionPairs is_predicate)) }
{
    match match_sides(alloc, pattern, target, so_far)? {
        None => Ok(None),
        Some(pairs) => place(alloc, rest, targets, used, pairs),
    }
}
