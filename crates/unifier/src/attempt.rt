// Solving by equations, for terms of usual size.

ghost use Rattle.std.specs.Prelude.{◌≡◌, None, length, IfOk, IfSome};
ghost use Rattle.fol_base.specs.Term.{tree_of};
ghost use Rattle.fol_base.specs.Tree.{Tree};
ghost use Rattle.unifier.specs.Solution.{solved_form};
ghost use Rattle.unifier.specs.Bindings.{IsFound};
ghost use Rattle.unifier.specs.Agreeing.{AreForced};
ghost use Rattle.unifier.specs.Attempt.{IsAttempt};

use crate::agreeing::{Walk, Walked};
use crate::equation::{Equations, SideTerm};
use crate::layout::Layout;
use crate::solution::{FEW_PLACES, Solution};
use fol_base::{Side, Term};
use plain_types::Mem;
use std::alloc::Global;

/// The result of an attempt.
#[derive(Drop)]
pub enum Attempt {
    /// A most general unifier.
    Unified(Solution),
    /// There is none.
    NoUnifier,
    /// Nothing: the terms are too large, or bind too many variables, or a variable may contain itself.
    Undecided,
}

/// A most general unifier, from the equations that a walk down both terms finds. Each of them is forced: every
/// unifier meets it. The walk takes no memory. Only what variables are equal to is laid out, so terms without
/// variables take none at all.
pub fn unify_by_equations(alloc: Global, left: &Term, right: &Term, apart: bool) -> Mem<Attempt>
    ensures { IfOk result (IsAttempt apart (tree_of left.now) (tree_of right.now)) }
{
    let one = SideTerm {
        side: Side::Left,
        term: left,
    };
    let other = SideTerm {
        side: Side::Right,
        term: right,
    };
    let mut walk = Walk::new(one);
    match walk.walk(apart, one, other) {
        Walked::Agreed => match resolved(alloc, &walk.equations, apart)? {
            Some(solution) => Ok(Attempt::Unified(solution)),
            None => Ok(Attempt::Undecided),
        },
        Walked::Clashed => Ok(Attempt::NoUnifier),
        Walked::Stopped => Ok(Attempt::Undecided),
    }
}

/// The unifier that equations give which two terms' being equal forces. None where it isn't found: a tree is too
/// deep, the variables are many, or one contains itself.
fn resolved<'a>(alloc: Global, equations: &Equations<'a>, apart: bool) -> Mem<Option<Solution>>
    ensures { IfOk result (λ found. IfSome found (λ solution. (s t : Tree) → AreForced apart equations.now s t → IsFound apart s t (solved_form solution))) }
{
    let mut layout = Layout {
        cells: Vec::new(alloc),
        places: Vec::new(alloc),
    };
    if !layout.resolve_equations(equations, apart)? {
        return Ok(None);
    }
    if !layout.resolve_noted(equations, apart)? {
        return Ok(None);
    }
    if layout.places.len() > FEW_PLACES {
        return Ok(None);
    }
    Ok(Some(Solution {
        apart,
        cells: layout.cells,
        places: layout.places,
    }))
}
