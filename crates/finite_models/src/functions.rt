// The clauses that make entries the table of a function: a value, and no two, at each list of arguments.

ghost use Rattle.std.specs.Prelude.{◌≡◌, ◌<◌, ◌≤◌, ◌+◌, ◌*◌, ◌^◌, ◌∷◌, [], ◌++◌, IfOk};
ghost use Rattle.plain_types.specs.Names.{negative_of};
ghost use Rattle.finite_models.specs.EntryNames.{entry_count, AreEntryNames};
ghost use Rattle.finite_models.specs.Translation.{Adds, value_name, has_value, has_no_two, has_no_lower, is_function, one_symbol_true, symbols_true};

use crate::digits::power;
use crate::entry_names::EntryNames;
use plain_types::{Mem, NameLit};
use sat_core::PropClauses;
use signature::{Signature, Symbol, SymbolKind};
use std::alloc::Global;

/// The names of a function's entries: where they begin, for how many lists of arguments, and how many values there are.
#[derive(Clone, Copy)]
pub(crate) struct FunctionNames {
    pub first: u32,
    pub rows: u32,
    pub size: u32,
}

impl FunctionNames {
    /// The name of the entry with a value at the arguments with a number.
    pub fn name(self, number: u32, value: u32) -> u32
        requires number { number < self.rows }
        requires value { value < self.size }
        requires fits { self.first + self.size * self.rows < 2 ^ 32 }
        ensures value { result ≡ value_name self.first self.rows number value }
        ensures below { result < self.first + self.size * self.rows }
    {
        self.first + (value * self.rows + number)
    }

    /// Adds the clause that there is a value at the arguments with a number.
    fn add_some_value(
        self,
        number: u32,
        buffer: &mut Vec<NameLit>,
        clauses: &mut PropClauses,
    ) -> Mem<()>
        requires number { number < self.rows }
        requires fits { self.first + self.size * self.rows < 2 ^ 32 }
        ensures { IfOk result (λ _. Adds (self.first + self.size * self.rows) clauses.old clauses.new
            (has_value self.size self.first self.rows number)) }
    {
        buffer.clear();
        for value in 0..self.size {
            let name = self.name(number, value);
            buffer.push(NameLit {
                positive: true,
                name,
            })?;
        }
        clauses.push(buffer.as_slice())?;
        Ok(())
    }

    /// Adds the clauses that there aren't two values at the arguments with a number.
    fn add_no_two_values(self, number: u32, clauses: &mut PropClauses) -> Mem<()>
        requires number { number < self.rows }
        requires fits { self.first + self.size * self.rows < 2 ^ 32 }
        ensures { IfOk result (λ _. Adds (self.first + self.size * self.rows) clauses.old clauses.new
            (has_no_two self.size self.first self.rows number)) }
    {
        for value in 0..self.size {
            self.add_no_lower_value(number, value, clauses)?;
        }
        Ok(())
    }

    /// Adds the clauses that with this value there is no lower one at the arguments with a number.
    fn add_no_lower_value(self, number: u32, value: u32, clauses: &mut PropClauses) -> Mem<()>
        requires number { number < self.rows }
        requires value { value < self.size }
        requires fits { self.first + self.size * self.rows < 2 ^ 32 }
        ensures { IfOk result (λ _. Adds (self.first + self.size * self.rows) clauses.old clauses.new
            (has_no_lower self.first self.rows number value)) }
    {
        let name = self.name(number, value);
        for lower in 0..value {
            let other = self.name(number, lower);
            add_not_both(other, name, clauses)?;
        }
        Ok(())
    }

    /// Adds the clauses of the function.
    fn add(self, alloc: Global, clauses: &mut PropClauses) -> Mem<()>
        requires fits { self.first + self.size * self.rows < 2 ^ 32 }
        ensures { IfOk result (λ _. Adds (self.first + self.size * self.rows) clauses.old clauses.new
            (is_function self.size self.first self.rows)) }
    {
        let mut buffer = Vec::new(alloc);
        for number in 0..self.rows {
            self.add_some_value(number, &mut buffer, clauses)?;
            self.add_no_two_values(number, clauses)?;
        }
        Ok(())
    }
}

/// Adds the clause that two names aren't both true.
fn add_not_both(first: u32, second: u32, clauses: &mut PropClauses) -> Mem<()>
    ensures { IfOk result (λ _. clauses.new ≡ clauses.old ++ (negative_of first ∷ negative_of second ∷ []) ∷ []) }
{
    let both = [
        NameLit {
            positive: false,
            name: first,
        },
        NameLit {
            positive: false,
            name: second,
        },
    ];
    clauses.push(&both)?;
    Ok(())
}

/// Adds the clauses of a symbol whose names begin at `first`; a predicate has none.
fn add_symbol(
    alloc: Global,
    symbol: &Symbol,
    first: u32,
    size: u32,
    clauses: &mut PropClauses,
) -> Mem<()>
    requires { first + entry_count size symbol.now < 2 ^ 32 }
    ensures { IfOk result (λ _. Adds (first + entry_count size symbol.now) clauses.old clauses.new (one_symbol_true size first symbol.now)) }
{
    match symbol.kind {
        SymbolKind::Predicate => Ok(()),
        SymbolKind::Function => {
            let rows = power(size, symbol.arity)?;
            let function = FunctionNames { first, rows, size };
            function.add(alloc, clauses)?;
            Ok(())
        }
    }
}

/// Adds the clauses of the symbols of a signature.
pub(crate) fn add_symbols(
    alloc: Global,
    signature: &Signature,
    names: &EntryNames,
    clauses: &mut PropClauses,
) -> Mem<()>
    requires names { AreEntryNames signature.now names.now }
    ensures { IfOk result (λ _. Adds names.now.count clauses.old clauses.new (symbols_true signature.now names.now)) }
{
    let symbols = signature.as_slice();
    for number in 0..symbols.len() {
        let first = names.firsts[number];
        add_symbol(alloc, &symbols[number], first, names.size, clauses)?;
    }
    Ok(())
}
