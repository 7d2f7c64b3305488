// Trivial disequations `t != t`, and literals that stand in a clause twice.

ghost use Rattle.std.specs.Prelude.{◌≡◌, ◌<◌, IfOk, OnErr, length};
ghost use Rattle.fol_base.specs.Literal.{clause_of, literal_of};
ghost use Rattle.unit_cutting.specs.Fit.{HasNoEqual, HasNoTrivial, IsMadeOrNone};
ghost use Rattle.unit_cutting.specs.Removing.{AreFoundEqual, IsFoundBefore, IsFoundTrivial, is_trivial};

use crate::removing::{equal_line, trivial_line};
use fol_base::{Clause, Literal, equivalent_literals, same_term};
use kernel_steps::Reduced;
use plain_types::Mem;
use reduced_clause::{extend, last_number};
use std::alloc::Global;

/// A literal `t != t` of a clause that is reduced goes, by a line of equality resolution. False exactly where there is none, and then
/// nothing has changed, as after an out-of-memory error.
pub fn drop_trivial(alloc: Global, reduced: &mut Reduced) -> Mem<bool>
    ensures step { IfOk result (IsMadeOrNone reduced.old reduced.new HasNoTrivial) }
    ensures err { OnErr result (reduced.new ≡ reduced.old) }
{
    let Some(index) = find_trivial(&reduced.clause) else {
        return Ok(false);
    };
    let parent = last_number(reduced)?;
    let line = trivial_line(alloc, &reduced.clause, parent, index)?;
    extend(alloc, reduced, None, line, None)?;
    Ok(true)
}

/// The second of two literals that are the same, sides in either order, goes from a clause that is reduced, by a line of merging. False
/// exactly where there are no two, and then nothing has changed, as after an out-of-memory error.
pub fn merge_equal(alloc: Global, reduced: &mut Reduced) -> Mem<bool>
    ensures step { IfOk result (IsMadeOrNone reduced.old reduced.new HasNoEqual) }
    ensures err { OnErr result (reduced.new ≡ reduced.old) }
{
    let Some(places) = find_equal(&reduced.clause) else {
        return Ok(false);
    };
    let parent = last_number(reduced)?;
    let line = equal_line(alloc, &reduced.clause, parent, places.stays, places.goes)?;
    extend(alloc, reduced, None, line, None)?;
    Ok(true)
}

/// The first literal `t != t`.
fn find_trivial(clause: &Clause) -> Option<usize>
    ensures { IsFoundTrivial (clause_of clause.now) result }
{
    let literals = clause.literals.as_slice();
    for index in 0..literals.len() {
        if is_trivial(&literals[index]) {
            return Some(index);
        }
    }
    None
}

/// Whether a literal is `t != t`.
fn is_trivial(literal: &Literal) -> bool
    ensures { result ≡ is_trivial (literal_of literal.now) }
{
    !literal.positive && same_term(&literal.left, &literal.right)
}

/// The places of two literals that are the same.
#[derive(Clone, Copy)]
struct EqualPlaces {
    stays: usize,
    goes: usize,
}

/// The first two literals that are the same.
fn find_equal(clause: &Clause) -> Option<EqualPlaces>
    ensures { AreFoundEqual (clause_of clause.now) result }
{
    let literals = clause.literals.as_slice();
    for goes in 0..literals.len() {
        if let Some(stays) = find_before(clause, goes) {
            return Some(EqualPlaces { stays, goes });
        }
    }
    None
}

/// The first literal before an index that is the same as the one there.
fn find_before(clause: &Clause, goes: usize) -> Option<usize>
    requires { goes < length (clause_of clause.now).literals }
    ensures { IsFoundBefore (clause_of clause.now) goes result }
{
    let literals = clause.literals.as_slice();
    let literal = literals[goes].lend();
    for stays in 0..goes {
        if equivalent_literals(literals[stays].lend(), literal) {
            return Some(stays);
        }
    }
    None
}
