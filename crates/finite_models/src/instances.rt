// Flat clauses written out over the values of a size.

ghost use Rattle.std.specs.Prelude.{◌≡◌, ◌≤◌, IfOk, IsTrue};
ghost use Rattle.std.specs.List.{list_all, AllByRecursion};
ghost use Rattle.fol_base.specs.Interpretation.{sides_true};
ghost use Rattle.finite_models.specs.EntryNames.{entries_of, flat_fits};
ghost use Rattle.finite_models.specs.Flattening.{flat_clause_true, some_true};
ghost use Rattle.finite_models.specs.Translation.{Adds, ClauseFits, IsUnder, flat_clauses_true};

use crate::digits::{fill_digits, power};
use crate::entry_names::{EntryNames, value_in};
use crate::flat::{FlatClause, FlatLiteral};
use plain_types::{Mem, NameLit};
use sat_core::PropClauses;
use std::alloc::Global;

/// What is left of a flat literal under values.
#[derive(Clone, Copy)]
enum Instance {
    Truth(bool),
    Name(NameLit),
}

impl FlatLiteral {
    /// The literal under the values in slots.
    fn under(&self, values: &[u32], names: &EntryNames) -> Instance
        requires fits { IsTrue (flat_fits names.now values.now self.now) }
        requires size { 1 ≤ names.now.size }
        ensures { IsUnder names.now values.now self.now result }
    {
        match self {
            FlatLiteral::Entry {
                positive,
                symbol,
                slots,
            } => {
                let name = names.name(*symbol, slots.as_slice(), values);
                let positive = *positive;
                Instance::Name(NameLit { positive, name })
            }
            FlatLiteral::Same {
                positive,
                left,
                right,
            } => {
                let left = value_in(values, *left);
                let right = value_in(values, *right);
                Instance::Truth(sides_true(*positive, left, right))
            }
            FlatLiteral::Constant(truth) => Instance::Truth(*truth),
        }
    }
}

/// Whether two sides have one value, or two for a negative sign.
fn sides_true(positive: bool, left: u32, right: u32) -> bool
    ensures { result ≡ sides_true positive left right }
{
    (left == right) == positive
}

/// Adds the clause of flat literals under values, unless it is true whatever the entries are.
fn add_instance(
    literals: &[FlatLiteral],
    values: &[u32],
    names: &EntryNames,
    buffer: &mut Vec<NameLit>,
    clauses: &mut PropClauses,
) -> Mem<()>
    requires fits { IsTrue (list_all (flat_fits names.now values.now) literals.now) }
    requires size { 1 ≤ names.now.size }
    ensures { IfOk result (λ _. Adds names.now.count clauses.old clauses.new
        (λ valuation. some_true (entries_of valuation names.now) literals.now values.now)) }
{
    buffer.clear();
    for literal in literals {
        match literal.under(values, names) {
            Instance::Truth(true) => return Ok(()),
            Instance::Truth(false) => {}
            Instance::Name(name) => buffer.push(name)?,
        }
    }
    clauses.push(buffer.as_slice())?;
    Ok(())
}

/// Adds the clauses of a flat clause under all values.
fn add_instances(
    alloc: Global,
    clause: &FlatClause,
    names: &EntryNames,
    clauses: &mut PropClauses,
) -> Mem<()>
    requires fits { ClauseFits names.now clause.now }
    requires size { 1 ≤ names.now.size }
    ensures { IfOk result (λ _. Adds names.now.count clauses.old clauses.new
        (λ valuation. flat_clause_true names.now.size (entries_of valuation names.now) clause.now)) }
{
    let count = power(names.size, clause.slots)?;
    let mut values = Vec::new(alloc);
    let mut buffer = Vec::new(alloc);
    for number in 0..count {
        fill_digits(&mut values, names.size, clause.slots, count, number)?;
        let literals = clause.literals.as_slice();
        add_instance(literals, values.as_slice(), names, &mut buffer, clauses)?;
    }
    Ok(())
}

/// Adds the clauses of flat clauses under all values.
pub(crate) fn add_all_instances(
    alloc: Global,
    flat: &[FlatClause],
    names: &EntryNames,
    clauses: &mut PropClauses,
) -> Mem<()>
    requires fits { AllByRecursion (ClauseFits names.now) flat.now }
    requires size { 1 ≤ names.now.size }
    ensures { IfOk result (λ _. Adds names.now.count clauses.old clauses.new (flat_clauses_true flat.now names.now)) }
{
    for clause in flat {
        add_instances(alloc, clause, names, clauses)?;
    }
    Ok(())
}
