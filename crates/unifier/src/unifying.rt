// Unifying: the most general instance that two terms have in common.

ghost use Rattle.std.specs.Prelude.{◌≡◌, ◌≤◌, ℕ, max, true, false, None, IfOk, IfSome, MatchOption};
ghost use Rattle.fol_base.specs.Tree.{VariablesBelow};
ghost use Rattle.fol_base.specs.Term.{tree_of};
ghost use Rattle.unifier.specs.Solution.{solved_form};
ghost use Rattle.unifier.specs.Bindings.{IsFound, IsUnified, LeavesOthers};
ghost use Rattle.unifier.specs.Renaming.{fits, CountsVariables};

use crate::attempt::{Attempt, unify_by_equations};
use crate::bindings::Bindings;
use crate::clash::clash;
use crate::solution::Solution;
use crate::solving::unify_by_classes;
use fol_base::Term;
use plain_types::Mem;
use std::alloc::Global;

/// A most general unifier (Robinson 1965). None exactly where no unifier exists. With `apart` the
/// variables of the two sides are different ones, whatever their numbers. Only variables of the two terms
/// are bound, and `Bindings::fits` asks for just these. A count for each side above its term's variables, and
/// not above `fol_base::SIZE_LIMIT`, meets the condition of `Bindings::substs`; so does, where the sides aren't taken apart, one
/// such count above the variables of both terms, whatever the other is.
///
/// Terms of usual size are solved by the equations that a walk down both of them finds. Larger ones, and those
/// with many variables, are solved by classes, in a time that no terms blow up.
pub fn unify(alloc: Global, left: &Term, right: &Term, apart: bool) -> Mem<Option<Bindings>>
    ensures unified { IfOk result (IsUnified apart (tree_of left.now) (tree_of right.now)) }
    ensures others { IfOk result (λ found. IfSome found (LeavesOthers apart (tree_of left.now) (tree_of right.now))) }
    ensures counted { IfOk result (λ found. IfSome found (CountsVariables apart (tree_of left.now) (tree_of right.now))) }
    ensures fits { IfOk result (λ found. (left_vars right_vars : ℕ) → VariablesBelow left_vars (tree_of left.now)
        → VariablesBelow right_vars (tree_of right.now) → IfSome found (λ b. fits b left_vars right_vars ≡ true)) }
    ensures fits_together { IfOk result (λ found. apart ≡ false → (count : ℕ) → VariablesBelow count (tree_of left.now)
        → VariablesBelow count (tree_of right.now) → IfSome found (λ b. (left_vars right_vars : ℕ)
        → count ≤ max left_vars right_vars → fits b left_vars right_vars ≡ true)) }
{
    match solved(alloc, left, right, apart)? {
        Some(solution) => Ok(Some(Bindings::of_solution(solution))),
        None => Ok(None),
    }
}

/// A most general unifier as it is kept. None exactly where there is none.
fn solved(alloc: Global, left: &Term, right: &Term, apart: bool) -> Mem<Option<Solution>>
    ensures { IfOk result (λ found. MatchOption found
        (IsUnified apart (tree_of left.now) (tree_of right.now) None)
        (λ solution. IsFound apart (tree_of left.now) (tree_of right.now) (solved_form solution))) }
{
    match unify_by_equations(alloc, left, right, apart)? {
        Attempt::Unified(solution) => return Ok(Some(solution)),
        Attempt::NoUnifier => return Ok(None),
        Attempt::Undecided => {}
    }
    if clash(left, right) {
        return Ok(None);
    }
    unify_by_classes(alloc, left, right, apart)
}
