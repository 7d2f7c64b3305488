// What breaks equality in a model of propositional clauses over equations.

ghost use Rattle.std.specs.Prelude.{◌≡◌, ℕ, ◌<◌, ◌≤◌, ◌^◌, ◌==◌, nat_lt, length, map, IfOk, IsTrue, IsFalse};
ghost use Rattle.std.specs.List.{list_any, list_all};
ghost use Rattle.sat_core.specs.Clause.{valuation_of, names_below, clauses_true};
ghost use Rattle.congruence.specs.Congruence.{equation_at, are_nodes, are_between, class_in};
ghost use Rattle.congruence.specs.Models.{values_by, AreExtended, KeepEquality, IsConflict, AreReasons, conflict_clause};

use crate::closing::closed;
use crate::joining::Joined;
use crate::node::{Equation, Node, are_joined};
use plain_types::{Mem, NameLit};
use sat_core::PropClauses;
use std::alloc::Global;

/// Adds clauses that each congruence makes true and of which one at least is false under the values. Each name that breaks equality gets one,
/// up to `most` of them, where 0 counts as 1. False where no name breaks it; then the values are those of a congruence. The clauses that were
/// added before an out-of-memory error stay.
pub(crate) fn add_conflicts(
    alloc: Global,
    nodes: &[Node],
    atoms: &[Equation],
    truths: &[bool],
    most: u32,
    clauses: &mut PropClauses,
) -> Mem<bool>
    requires nodes { IsTrue (are_nodes nodes.now) }
    requires few { length nodes.now ≤ 2 ^ 32 }
    requires between { IsTrue (are_between nodes.now atoms.now) }
    requires few_atoms { length atoms.now < 2 ^ 32 }
    requires below { IsTrue (names_below (length atoms.now) clauses.old) }
    ensures extended { AreExtended nodes.now atoms.now clauses.old clauses.new }
    ensures broken { IfOk result (λ found. IsTrue found → IsFalse (clauses_true (valuation_of truths.now) clauses.new)) }
    ensures none { IfOk result (λ found. IsFalse found → KeepEquality nodes.now atoms.now (valuation_of truths.now)) }
{
    let names = true_names(alloc, truths, atoms.len() as u32)?;
    let equations = equations_of(alloc, atoms, names.as_slice())?;
    let joined = closed(alloc, nodes, equations.as_slice())?;
    let mut left = most;
    let mut found = false;
    for name in 0..atoms.len() as u32 {
        if is_broken(atoms, truths, joined.classes.as_slice(), name) {
            let clause = conflict(alloc, nodes, atoms, truths, &joined, names.as_slice(), name)?;
            clauses.push(clause.as_slice())?;
            found = true;
            left = left.saturating_sub(1);
            if left == 0 {
                return Ok(true);
            }
        }
    }
    Ok(found)
}

/// The clause of a name that is false and whose sides are in one class, where all names that are true are given.
fn conflict(
    alloc: Global,
    nodes: &[Node],
    atoms: &[Equation],
    truths: &[bool],
    joined: &Joined,
    names: &[u32],
    name: u32,
) -> Mem<Vec<NameLit>>
    requires nodes { IsTrue (are_nodes nodes.now) }
    requires few { length nodes.now ≤ 2 ^ 32 }
    requires between { IsTrue (are_between nodes.now atoms.now) }
    requires below { name < length atoms.now }
    requires is_false { IsFalse (valuation_of truths.now name) }
    requires reasons { AreReasons nodes.now atoms.now (valuation_of truths.now) name names.now }
    ensures { IfOk result (λ clause. IsConflict nodes.now atoms.now (valuation_of truths.now) clause.items) }
{
    let places = joined
        .forest
        .reasons_of(alloc, nodes, equation_of(atoms, name))?;
    let few = names_at(alloc, names, places.as_slice())?;
    if are_reasons(alloc, nodes, atoms, truths, name, few.as_slice())? {
        clause_of(alloc, few.as_slice(), name)
    } else {
        clause_of(alloc, names, name)
    }
}

/// The names that are true.
fn true_names(alloc: Global, truths: &[bool], count: u32) -> Mem<Vec<u32>>
    ensures below { IfOk result (λ names. IsTrue (list_all (λ n. nat_lt n count) names.items)) }
    ensures true_ones { IfOk result (λ names. IsTrue (list_all (valuation_of truths.now) names.items)) }
    ensures each { IfOk result (λ names. (name : ℕ) → name < count → IsTrue (valuation_of truths.now name)
        → IsTrue (list_any (λ n. n == name) names.items)) }
{
    let mut names = Vec::new(alloc);
    for name in 0..count {
        if value_of(truths, name) {
            names.push(name)?;
        }
    }
    Ok(names)
}

/// The value of a name; one that has none is false.
fn value_of(truths: &[bool], name: u32) -> bool
    ensures { result ≡ valuation_of truths.now name }
{
    truths.get(name as usize).copied().unwrap_or(false)
}

/// The equations of names.
fn equations_of(alloc: Global, atoms: &[Equation], names: &[u32]) -> Mem<Vec<Equation>>
    ensures { IfOk result (λ equations. equations.items ≡ map (equation_at atoms.now) names.now) }
{
    let mut equations = Vec::with_capacity(alloc, names.len())?;
    for name in names {
        equations.push(equation_of(atoms, *name))?;
    }
    Ok(equations)
}

fn equation_of(atoms: &[Equation], name: u32) -> Equation
    ensures { result ≡ equation_at atoms.now name }
{
    let none = Equation { left: 0, right: 0 };
    atoms.get(name as usize).copied().unwrap_or(none)
}

/// Whether a name is false and its sides are in one class.
fn is_broken(atoms: &[Equation], truths: &[bool], classes: &[u32], name: u32) -> bool
    ensures is_false { IsTrue result → IsFalse (valuation_of truths.now name) }
    ensures joined { IsTrue result → IsTrue (values_by (class_in classes.now) atoms.now name) }
    ensures none { IsFalse result → IsFalse (valuation_of truths.now name) → IsFalse (values_by (class_in classes.now) atoms.now name) }
{
    !value_of(truths, name) && are_joined(classes, equation_of(atoms, name))
}

/// The names at these places.
fn names_at(alloc: Global, names: &[u32], places: &[u32]) -> Mem<Vec<u32>> {
    let mut found = Vec::with_capacity(alloc, places.len())?;
    for place in places {
        if let Some(name) = names.get(*place as usize) {
            found.push(*name)?;
        }
    }
    Ok(found)
}

/// Whether names are known to be reasons for a name.
fn are_reasons(
    alloc: Global,
    nodes: &[Node],
    atoms: &[Equation],
    truths: &[bool],
    name: u32,
    names: &[u32],
) -> Mem<bool>
    requires nodes { IsTrue (are_nodes nodes.now) }
    requires few { length nodes.now ≤ 2 ^ 32 }
    requires between { IsTrue (are_between nodes.now atoms.now) }
    requires below { name < length atoms.now }
    ensures { IfOk result (λ yes. IsTrue yes → AreReasons nodes.now atoms.now (valuation_of truths.now) name names.now) }
{
    if !are_true_names(truths, atoms.len(), names) {
        return Ok(false);
    }
    let equations = equations_of(alloc, atoms, names)?;
    let joined = closed(alloc, nodes, equations.as_slice())?;
    Ok(are_joined(joined.classes.as_slice(), equation_of(atoms, name)))
}

/// Whether names are below a bound and true.
fn are_true_names(truths: &[bool], bound: usize, names: &[u32]) -> bool
    ensures below { IsTrue result → IsTrue (list_all (λ n. nat_lt n bound) names.now) }
    ensures true_ones { IsTrue result → IsTrue (list_all (valuation_of truths.now) names.now) }
{
    for name in names {
        if *name as usize >= bound || !value_of(truths, *name) {
            return false;
        }
    }
    true
}

/// Not all of these names, or this one.
fn clause_of(alloc: Global, reasons: &[u32], name: u32) -> Mem<Vec<NameLit>>
    ensures { IfOk result (λ clause. clause.items ≡ conflict_clause reasons.now name) }
{
    let mut clause = Vec::new(alloc);
    for reason in reasons {
        clause.push(NameLit {
            positive: false,
            name: *reason,
        })?;
    }
    clause.push(NameLit {
        positive: true,
        name,
    })?;
    Ok(clause)
}
