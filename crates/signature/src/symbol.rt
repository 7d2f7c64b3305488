// Symbols, owned and lent, and when two are the same.

ghost use Rattle.std.specs.Prelude.{◌≡◌, ◌∷◌, ◌++◌, IfOk};
ghost use Rattle.std.specs.Cmp.{on_equiv, partial_equiv_from_equiv};
ghost use Rattle.std.specs.Hash as fed;
ghost use Rattle.std.specs.Ordering.{on};
ghost use Rattle.signature.specs.Symbol.{same_symbol, symbol_of};
ghost use Rattle.signature.specs.SymbolLaws.{same_symbols, same_symbols_hash_alike};

use indexmap::{Equivalent, IndexSet};
use name_hash::NameHash;
use plain_types::{Mem, NoMemory, Text};
use std::alloc::Global;
use std::hash::{Hash, Hasher};

/// Whether a symbol makes atoms or terms.
#[derive(Clone, Copy, Debug, PartialEq, Eq)]
pub enum SymbolKind {
    Predicate,
    Function,
}

/// A symbol: its kind, its name, and how many arguments it takes. `$true` is the predicate under the empty name, which no text
/// can spell.
#[derive(Drop)]
pub struct Symbol {
    pub kind: SymbolKind,
    pub name: Text,
    pub arity: u32,
}

/// A symbol whose name is lent.
#[derive(Clone, Copy)]
pub struct SymbolRef<'a> {
    pub kind: SymbolKind,
    pub name: &'a [u8],
    pub arity: u32,
}

/// Different symbols, in the order in which they were added, found in the time of reading the name.
pub type SymbolSet = IndexSet<Symbol, NameHash>;

/// `$true`.
pub(crate) const TRUE: SymbolRef<'static> = SymbolRef {
    kind: SymbolKind::Predicate,
    name: b"",
    arity: 0,
};

impl Symbol {
    /// The symbol, with its name lent.
    pub fn lend(&self) -> SymbolRef<'_>
        ensures { symbol_of result ≡ self.now }
    {
        SymbolRef {
            kind: self.kind,
            name: self.name.as_slice(),
            arity: self.arity,
        }
    }
}

impl<'a> SymbolRef<'a> {
    /// An equal symbol with a name of its own.
    pub fn copy(self, alloc: Global) -> Mem<Symbol>
        ensures { IfOk result (λ symbol. symbol ≡ symbol_of self.entry) }
    {
        Ok(Symbol {
            kind: self.kind,
            name: Text::from_slice(alloc, self.name)?,
            arity: self.arity,
        })
    }
}

impl PartialEq for Symbol {
    ghost eq = { same_symbol };

    ghost laws = { partial_equiv_from_equiv same_symbols };

    fn eq(&self, other: &Symbol) -> bool {
        self.lend() == other.lend()
    }
}

impl Eq for Symbol {
    ghost laws = { same_symbols };
}

impl Hash for Symbol {
    ghost hash_input = { λ s. s.name ∷ fed.u32 s.arity };

    ghost respects_eq = { same_symbols_hash_alike };

    fn hash<H: Hasher>(&self, state: &mut H) {
        state.write(self.name.as_slice());
        state.write_u32(self.arity);
    }
}

impl<'a> PartialEq for SymbolRef<'a> {
    ghost eq = { on symbol_of same_symbol };

    ghost laws = { partial_equiv_from_equiv (on_equiv symbol_of same_symbols) };

    fn eq(&self, other: &SymbolRef<'a>) -> bool {
        self.kind == other.kind && self.name == other.name && self.arity == other.arity
    }
}

impl<'a> Eq for SymbolRef<'a> {
    ghost laws = { on_equiv symbol_of same_symbols };
}

impl<'a> Hash for SymbolRef<'a> {
    ghost hash_input = { λ s. s.name.now ∷ fed.u32 s.arity };

    ghost respects_eq = { λ s t. same_symbols_hash_alike (symbol_of s) (symbol_of t) };

    fn hash<H: Hasher>(&self, state: &mut H) {
        state.write(self.name);
        state.write_u32(self.arity);
    }
}

impl<'a> Equivalent<Symbol> for SymbolRef<'a> {
    ghost equivalent = { λ q s. same_symbol (symbol_of q) s };

    ghost respects_hash = { λ q s. same_symbols_hash_alike (symbol_of q) s };

    ghost respects_eq = { λ q s t. same_symbols.congr (symbol_of q) s t };

    fn equivalent(&self, key: &Symbol) -> bool {
        *self == key.lend()
    }
}

/// How many arguments there are, as a symbol has it; else out of memory, since no such symbol fits.
pub fn arity_of(arguments: usize) -> Mem<u32>
    ensures { IfOk result (λ arity. arity ≡ arguments) }
{
    u32::try_from(arguments).map_err(|_| NoMemory)
}
