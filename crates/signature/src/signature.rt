// The symbols of a problem by their numbers.

ghost use Rattle.std.specs.Fmt.{decimal};
ghost use Rattle.std.specs.Prelude.{◌≡◌, ◌<◌, ◌≤◌, ◌^◌, ◌++◌, ◌∷◌, [], IfOk, OnErr, Some, is_some, List, length, map, fold, position, take, slice_get, IsFalse};
ghost use Rattle.signature.specs.Symbol.{same_symbol, has_symbol, with_symbol, symbol_of, IsSignature};
ghost use Rattle.signature.specs.Form.{AreUnused, numbered_symbol};
ghost use Rattle.signature.specs.Occurrences.{problem_symbols};
ghost use Rattle.tptp_tree.specs.ProblemSize.{HasProblemSize};

use crate::meeting::meet_problem;
use crate::symbol::{Symbol, SymbolKind, SymbolRef, SymbolSet};
use name_hash::NameHash;
use plain_types::{Mem, NoMemory, Text};
use std::alloc::Global;
use std::marker::Model;
use tptp_tree::Problem;

/// Different symbols, which contracts see as their list: the number of a symbol is its place. The first is `$true`.
#[derive(Drop)]
pub struct Signature {
    symbols: SymbolSet,
}

impl Model for Signature {
    ghost use Rattle.std.specs.Prelude.{List};
    ghost use Rattle.signature.specs.Symbol.{IsSignature};
    ghost use Rattle.signature.specs.declared.symbol.Symbol.{Symbol};

    ghost Value = { List Symbol };

    ghost view = { λ a. a.symbols.keys };

    ghost invariant = { λ a. IsSignature a.symbols.keys };
}

impl Signature {
    /// The symbols of a problem: `$true`, and the others by first occurrence in reading order, a head before its arguments. A
    /// name that is used in two ways is two symbols.
    pub fn of_problem(alloc: Global, problem: &Problem) -> Mem<Signature>
        requires { HasProblemSize problem.now.formulas }
        ensures { IfOk result (λ signature. signature ≡ problem_symbols problem.now.formulas) }
    {
        Ok(Signature {
            symbols: meet_problem(alloc, problem)?,
        })
    }

    /// An equal signature.
    pub fn copy(&self, alloc: Global) -> Mem<Signature>
        ensures { IfOk result (λ copy. copy ≡ self.now) }
    {
        let count = self.symbols.len();
        let mut symbols = SymbolSet::with_capacity_and_hasher(alloc, count, NameHash::new())?;
        for symbol in self.symbols.as_slice() {
            symbols.insert_full(symbol.lend().copy(alloc)?)?;
        }
        Ok(Signature { symbols })
    }

    /// The number of a symbol; none where it isn't there.
    pub fn number(&self, symbol: &Symbol) -> Option<u32>
        ensures value { result ≡ position (same_symbol symbol.now) self.now }
        ensures found { is_some result ≡ has_symbol symbol.now self.now }
    {
        self.find(symbol.lend())
    }

    /// The number of a symbol whose name is lent; none where it isn't there.
    pub fn find(&self, symbol: SymbolRef<'_>) -> Option<u32>
        ensures value { result ≡ position (same_symbol (symbol_of symbol.entry)) self.now }
        ensures found { is_some result ≡ has_symbol (symbol_of symbol.entry) self.now }
    {
        let place = self.symbols.get_index_of(symbol)?;
        Some(place as u32)
    }

    /// How many symbols there are. Their numbers are those below it.
    pub fn len(&self) -> u64
        ensures value { result ≡ length self.now }
        ensures signature { IsSignature self.now }
    {
        self.symbols.len() as u64
    }

    /// The symbol of a number.
    pub fn symbol(&self, number: u32) -> &Symbol
        requires { number < length self.now }
        ensures { slice_get self.now number ≡ Some result.now }
    {
        &self.symbols.as_slice()[number as usize]
    }

    /// The symbols, lent in the order of their numbers.
    pub fn as_slice(&self) -> &[Symbol]
        ensures { result.now ≡ self.now }
    {
        self.symbols.as_slice()
    }

    /// Adds a new symbol, and gives its number. A symbol over 2^32 is out of memory. After an out-of-memory error the signature is as before.
    pub fn add(&mut self, symbol: Symbol) -> Mem<u32>
        requires new { IsFalse (has_symbol symbol self.old) }
        ensures number { IfOk result (λ number. number ≡ length self.old) }
        ensures added { IfOk result (λ _. self.new ≡ self.old ++ symbol ∷ []) }
        ensures unchanged { OnErr result (self.new ≡ self.old) }
    {
        if self.len() > u64::from(u32::MAX) {
            return Err(NoMemory);
        }
        let (place, _) = self.symbols.insert_full(symbol)?;
        Ok(place as u32)
    }

    /// Adds a symbol whose name is the prefix followed by the number; with it and later numbers no symbol is named. After an out-of-memory error the
    /// signature is as before.
    pub fn add_numbered(
        &mut self,
        alloc: Global,
        kind: SymbolKind,
        prefix: &Text,
        number: u32,
        arity: u32,
    ) -> Mem<()>
        requires unused { AreUnused self.old prefix.now number }
        ensures added { IfOk result (λ _. self.new ≡ self.old ++ numbered_symbol kind prefix.now number arity ∷ []) }
        ensures unchanged { OnErr result (self.new ≡ self.old) }
    {
        let symbol = Symbol {
            kind,
            name: numbered_name(alloc, prefix, number)?,
            arity,
        };
        self.add(symbol)?;
        Ok(())
    }

    /// Drops the symbols from that number on. `$true` stays.
    pub fn truncate(&mut self, len: u64)
        requires { 1 ≤ len }
        ensures { self.new ≡ take len self.old }
    {
        self.symbols.truncate(len as usize);
    }
}

/// The prefix followed by a number.
fn numbered_name(alloc: Global, prefix: &Text, number: u32) -> Mem<Text>
    ensures { IfOk result (λ name. name ≡ prefix.now ++ decimal number) }
{
    let digits = number.to_string(alloc)?;
    let mut name = Vec::new(alloc);
    name.extend_from_slice(prefix.as_slice())?;
    name.extend_from_slice(digits.as_bytes())?;
    Ok(Text::from_vec(name))
}
