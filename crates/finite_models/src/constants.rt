// Clauses that ask the constants for the first values, in order. They say nothing of whether there is a model, since values can be exchanged.

ghost use Rattle.std.specs.Prelude.{◌≡◌, ◌<◌, ◌+◌, ◌^◌, ◌∷◌, [], ◌++◌, if◌then◌else◌, IfOk};
ghost use Rattle.plain_types.specs.Names.{negative_of};
ghost use Rattle.signature.specs.Form.{is_constant};
ghost use Rattle.finite_models.specs.EntryNames.{entry_count, AreEntryNames};
ghost use Rattle.finite_models.specs.Translation.{Adds};
ghost use Rattle.finite_models.specs.Constants.{has_none_above, one_constant_true, constants_true};

use crate::entry_names::EntryNames;
use plain_types::{Mem, NameLit, NoMemory};
use sat_core::PropClauses;
use signature::{Signature, Symbol, SymbolKind};

/// Adds the clauses that the first constant of a signature has the value 0, the second 0 or 1, and so on.
pub(crate) fn add_constants(
    signature: &Signature,
    names: &EntryNames,
    clauses: &mut PropClauses,
) -> Mem<()>
    requires names { AreEntryNames signature.now names.now }
    ensures { IfOk result (λ _. Adds names.now.count clauses.old clauses.new (constants_true signature.now names.now)) }
{
    let symbols = signature.as_slice();
    let mut before = 0;
    for number in 0..symbols.len() {
        let first = names.firsts[number];
        before = add_constant(&symbols[number], first, before, names.size, clauses)?;
    }
    Ok(())
}

/// Adds the clauses of a symbol whose names begin at `first`, after so many constants. The answer is how many constants there are with it.
fn add_constant(
    symbol: &Symbol,
    first: u32,
    before: u32,
    size: u32,
    clauses: &mut PropClauses,
) -> Mem<u32>
    requires { first + entry_count size symbol.now < 2 ^ 32 }
    ensures clauses { IfOk result (λ _. Adds (first + entry_count size symbol.now) clauses.old clauses.new (one_constant_true size first before symbol.now)) }
    ensures count { IfOk result (λ count. count ≡ before + (if is_constant symbol.now then 1 else 0)) }
{
    if !is_constant(symbol) {
        return Ok(before);
    }
    add_none_above(first, before, size, clauses)?;
    before.checked_add(1).ok_or(NoMemory)
}

fn is_constant(symbol: &Symbol) -> bool
    ensures { result ≡ is_constant symbol.now }
{
    match symbol.kind {
        SymbolKind::Predicate => false,
        SymbolKind::Function => symbol.arity == 0,
    }
}

/// Adds the clauses that the constant whose names begin at `first` has no value above `most`.
fn add_none_above(first: u32, most: u32, size: u32, clauses: &mut PropClauses) -> Mem<()>
    requires fits { first + size < 2 ^ 32 }
    ensures { IfOk result (λ _. Adds (first + size) clauses.old clauses.new (has_none_above size first most)) }
{
    for value in 0..size {
        if value > most {
            add_not(first + value, clauses)?;
        }
    }
    Ok(())
}

/// Adds the clause that a name is false.
fn add_not(name: u32, clauses: &mut PropClauses) -> Mem<()>
    ensures { IfOk result (λ _. clauses.new ≡ clauses.old ++ (negative_of name ∷ []) ∷ []) }
{
    let not = [NameLit {
        positive: false,
        name,
    }];
    clauses.push(&not)?;
    Ok(())
}
