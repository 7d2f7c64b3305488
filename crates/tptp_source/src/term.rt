// General terms.

ghost use Rattle.std.specs.Prelude.{◌≡◌, ◌<◌, ◌^◌, ◌↔◌, ◌++◌, [], ◌∷◌, length, map, IfOk, OnErr, IsTrue};
ghost use Rattle.std.specs.Slice.Iter.{iter_rest};
ghost use Rattle.std.specs.Iterator.Adapters.{IterYieldsInOrder, IterYieldsInReverse};
ghost use Rattle.tptp_source.specs.Shape.{tree_of};

use crate::sign::NumberSign;
use plain_types::{Mem, Text};
use std::alloc::Global;
use std::marker::Model;
use std::slice::Iter;

/// A general term, as annotations have them (Sutcliffe 2017). `Joined` holds at least two terms where a text spells it.
#[derive(Drop)]
#[cycle(general_terms)]
pub enum GeneralTerm {
    /// A variable by its name.
    Variable(Text),
    /// A word by its name, which doesn't depend on quotes, and its arguments.
    Word(Text, GeneralTerms),
    /// A dollar word with its dollar signs, and its arguments.
    Dollar(Text, GeneralTerms),
    /// A number by its sign and its bytes.
    Number(NumberSign, Text),
    /// A distinct object with its quotes.
    Distinct(Text),
    /// `~` before a word, by the word's name.
    Negated(Text),
    /// The terms in square brackets.
    Listed(GeneralTerms),
    /// The terms between `:`.
    Joined(GeneralTerms),
}

/// A list of general terms, which contracts see as the list of their trees.
#[derive(Drop)]
#[cycle(general_terms)]
pub struct GeneralTerms {
    items: Vec<GeneralTerm>,
}

impl Model for GeneralTerms {
    ghost use Rattle.std.specs.Prelude.{List, map};
    ghost use Rattle.std.specs.Coded.{coded_list};
    ghost use Rattle.tptp_source.specs.General.{GeneralTree, trees_size, trees_of};
    ghost use Rattle.tptp_source.specs.GeneralCodes.{general_code};

    ghost Value = { List GeneralTree };

    ghost coded = { coded_list general_code };

    ghost use Rattle.tptp_source.specs.Shape.{tree_of};

    ghost view = { λ a. map tree_of a.items.items };

    ghost size = { λ ts. trees_size (trees_of ts) };

    ghost use Rattle.std.proofs.Common.{arith};
    ghost use Rattle.tptp_source.specs.Falls.{most-deep-GeneralTerm-≤};

    ghost size_decreases = { λ a h. Prim.omega (arith, most-deep-GeneralTerm-≤ a.items.items) };
}

impl GeneralTerms {
    /// The empty list. It takes no memory.
    pub fn new(alloc: Global) -> GeneralTerms
        ensures { result ≡ [] }
    {
        GeneralTerms {
            items: Vec::new(alloc),
        }
    }

    /// The list of a vector's terms. It takes no memory.
    pub fn from_vec(items: Vec<GeneralTerm>) -> GeneralTerms
        ensures { result ≡ map tree_of items.items }
    {
        GeneralTerms { items }
    }

    /// The vector of the list's terms. It takes no memory.
    pub fn into_vec(self) -> Vec<GeneralTerm>
        ensures { map tree_of result.items ≡ self }
    {
        self.items
    }

    /// The terms, lent.
    pub fn as_slice(&self) -> &[GeneralTerm]
        ensures { map tree_of result.now ≡ self.now }
    {
        self.items.as_slice()
    }

    /// The terms, lent one after another.
    pub fn iter(&self) -> Iter<'_, GeneralTerm>
        ensures rest { map tree_of (iter_rest result) ≡ self.now }
        ensures len { length (iter_rest result) ≡ length self.now }
        ensures bound { length (iter_rest result) < 2 ^ 64 }
        ensures runs { IterYieldsInOrder GeneralTerm }
        ensures runs_back { IterYieldsInReverse GeneralTerm }
    {
        self.items.iter()
    }

    /// How many terms there are.
    pub fn len(&self) -> usize
        ensures { result ≡ length self.now }
    {
        self.items.len()
    }

    /// Whether there are none.
    pub fn is_empty(&self) -> bool
        ensures { IsTrue result ↔ (self.now ≡ []) }
    {
        self.items.is_empty()
    }

    /// Adds a term at the end. After an out-of-memory error the list is as before.
    pub fn push(&mut self, term: GeneralTerm) -> Mem<()>
        ensures ok { IfOk result (λ _. self.new ≡ self.old ++ tree_of term ∷ []) }
        ensures err { OnErr result (self.new ≡ self.old) }
    {
        self.items.push(term)?;
        Ok(())
    }
}
