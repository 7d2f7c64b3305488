// Pairs of nodes that have to be in one class and aren't.

ghost use Rattle.std.specs.Prelude.{◌≡◌, ◌<◌, ◌≤◌, ◌^◌, ◌++◌, ◌∷◌, [], length, slice_index, IfOk, IfSome, IfNone, IsTrue, IsFalse};
ghost use Rattle.congruence.specs.Congruence.{class_in, equation_at, joins, joins_all, are_between, are_nodes, IsCongruence};
ghost use Rattle.congruence.specs.Joined.{AreSound, AreAlike, IsGap};

use crate::keys::Keys;
use crate::node::{Equation, Node, are_joined, signature_of};
use plain_types::Mem;
use std::alloc::Global;

/// The number of an equation whose sides are in two classes.
fn open_equation(equations: &[Equation], classes: &[u32]) -> Option<usize>
    ensures within { IfSome result (λ k. k < length equations.now) }
    ensures apart { IfSome result (λ k. IsFalse (joins (class_in classes.now) (equation_at equations.now k))) }
    ensures none { IfNone result (IsTrue (joins_all (class_in classes.now) equations.now)) }
{
    for index in 0..equations.len() {
        if !are_joined(classes, equations[index]) {
            return Some(index);
        }
    }
    None
}

/// Two nodes with one signature and two classes.
fn open_nodes(alloc: Global, nodes: &[Node], classes: &[u32]) -> Mem<Option<Equation>>
    requires few { length nodes.now ≤ 2 ^ 32 }
    ensures alike { IfOk result (λ found. IfSome found (AreAlike nodes.now (class_in classes.now))) }
    ensures apart { IfOk result (λ found. IfSome found (λ e. IsFalse (joins (class_in classes.now) e))) }
    ensures none { IfOk result (λ found. IfNone found (IsCongruence nodes.now (class_in classes.now))) }
{
    let mut signatures = Keys::new(alloc);
    let mut firsts: Vec<u32> = Vec::new(alloc);
    for number in 0..nodes.len() {
        let key = signature_of(alloc, &nodes[number], classes)?;
        let place = signatures.meet(key)?;
        let right = number as u32;
        let left = first_at(&mut firsts, place, right)?;
        let pair = Equation { left, right };
        if !are_joined(classes, pair) {
            return Ok(Some(pair));
        }
    }
    Ok(None)
}

/// The number at a place. Where there is none, the given one is added at the end, and is the answer.
fn first_at(firsts: &mut Vec<u32>, place: usize, number: u32) -> Mem<u32>
    ensures known { IfOk result (λ first. place < length firsts.old.items
        → (first ≡ slice_index firsts.old.items place) × (firsts.new.items ≡ firsts.old.items)) }
    ensures added { IfOk result (λ first. length firsts.old.items ≤ place
        → (first ≡ number) × (firsts.new.items ≡ firsts.old.items ++ number ∷ [])) }
{
    if place < firsts.len() {
        return Ok(firsts[place]);
    }
    firsts.push(number)?;
    Ok(number)
}

/// Two nodes that are one by the equations and in two classes. There are none only where the classes are a congruence that contains
/// the equations.
pub(crate) fn find_gap(
    alloc: Global,
    nodes: &[Node],
    equations: &[Equation],
    classes: &[u32],
) -> Mem<Option<Equation>>
    requires nodes { IsTrue (are_nodes nodes.now) }
    requires few { length nodes.now ≤ 2 ^ 32 }
    requires between { IsTrue (are_between nodes.now equations.now) }
    requires sound { AreSound nodes.now equations.now classes.now }
    ensures gap { IfOk result (λ found. IfSome found (IsGap nodes.now equations.now classes.now)) }
    ensures contains { IfOk result (λ found. IfNone found (IsTrue (joins_all (class_in classes.now) equations.now))) }
    ensures congruence { IfOk result (λ found. IfNone found (IsCongruence nodes.now (class_in classes.now))) }
{
    match open_equation(equations, classes) {
        Some(index) => Ok(Some(equations[index])),
        None => open_nodes(alloc, nodes, classes),
    }
}
