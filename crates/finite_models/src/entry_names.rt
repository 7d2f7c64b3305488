// The propositional names of the entries of tables.

ghost use Rattle.std.specs.Prelude.{◌≡◌, ◌<◌, ◌≤◌, ◌+◌, length, map, slice_index_or, IfOk};
ghost use Rattle.signature.specs.Symbol.{IsSignature};
ghost use Rattle.finite_models.specs.EntryNames.{entry_width, entry_count, entry_name, AreEntryNames};
ghost use Rattle.finite_models.specs.Flattening.{value_in};

use crate::digits::power;
use plain_types::{Mem, NoMemory};
use signature::{Signature, Symbol, SymbolKind};
use std::alloc::Global;

/// The names of a size: where each symbol's begin, and how many there are in all.
#[derive(Drop)]
pub(crate) struct EntryNames {
    pub size: u32,
    pub firsts: Vec<u32>,
    pub count: u32,
}

impl EntryNames {
    /// The names for the symbols of a signature. More than 32 bits number are out of memory.
    pub fn new(alloc: Global, signature: &Signature, size: u32) -> Mem<EntryNames>
        ensures names { IfOk result (AreEntryNames signature.now) }
        ensures size { IfOk result (λ names. names.size ≡ size) }
        ensures signature { IsSignature signature.now }
    {
        let symbols = signature.as_slice();
        let mut firsts = Vec::with_capacity(alloc, signature.len() as usize)?;
        let mut count = 0;
        for symbol in symbols {
            firsts.push(count)?;
            count = count_with(count, symbol, size)?;
        }
        Ok(EntryNames {
            size,
            firsts,
            count,
        })
    }

    /// Where a symbol's names begin.
    pub fn first(&self, symbol: u32) -> u32
        requires { symbol < length self.now.firsts.items }
        ensures { result ≡ slice_index_or self.now.firsts.items symbol 0 }
    {
        self.firsts[symbol as usize]
    }

    /// The name of the entry with the values in slots.
    pub fn name(&self, symbol: u32, slots: &[u32], values: &[u32]) -> u32
        requires symbol { symbol < length self.now.firsts.items }
        requires fits { entry_name self.now symbol (map (value_in values.now) slots.now) < self.now.count }
        requires size { 1 ≤ self.now.size }
        ensures { result ≡ entry_name self.now symbol (map (value_in values.now) slots.now) }
    {
        let mut place = 0;
        for slot in slots {
            place = place * self.size + value_in(values, *slot);
        }
        self.first(symbol) + place
    }
}

/// The value in a slot.
pub(crate) fn value_in(values: &[u32], slot: u32) -> u32
    ensures { result ≡ value_in values.now slot }
{
    values.get(slot as usize).copied().unwrap_or(0)
}

/// How many names there are with those of one more symbol.
fn count_with(count: u32, symbol: &Symbol, size: u32) -> Mem<u32>
    ensures { IfOk result (λ total. total ≡ count + entry_count size symbol.now) }
{
    let entries = power(size, entry_width(symbol)?)?;
    count.checked_add(entries).ok_or(NoMemory)
}

/// How many values an entry of the symbol has.
fn entry_width(symbol: &Symbol) -> Mem<u32>
    ensures { IfOk result (λ width. width ≡ entry_width symbol.now) }
{
    match symbol.kind {
        SymbolKind::Predicate => Ok(symbol.arity),
        SymbolKind::Function => symbol.arity.checked_add(1).ok_or(NoMemory),
    }
}
