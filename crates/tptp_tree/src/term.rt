// Terms over names.

ghost use Rattle.std.specs.Prelude.{◌≡◌, ◌<◌, ◌^◌, ◌↔◌, ◌++◌, [], ◌∷◌, length, map, IfOk, OnErr, IsTrue};
ghost use Rattle.std.specs.Slice.Iter.{iter_rest};
ghost use Rattle.std.specs.Iterator.Adapters.{IterYieldsInOrder, IterYieldsInReverse};
ghost use Rattle.tptp_tree.specs.Shape.{term_of};

use plain_types::{Mem, Text};
use std::alloc::Global;
use std::marker::Model;
use std::slice::Iter;

/// A term: a variable by its name, or a name applied to terms.
#[derive(Drop)]
#[cycle(terms)]
pub enum TreeTerm {
    Var(Text),
    App(Text, TreeTerms),
}

/// A list of terms, which contracts see as the list of their trees.
#[derive(Drop)]
#[cycle(terms)]
pub struct TreeTerms {
    items: Vec<TreeTerm>,
}

impl Model for TreeTerms {
    ghost use Rattle.std.specs.Prelude.{List, map};
    ghost use Rattle.std.specs.Coded.{coded_list};
    ghost use Rattle.tptp_tree.specs.Term.{TermTree, terms_size, terms_of};
    ghost use Rattle.tptp_tree.specs.TermCodes.{term_code};

    ghost Value = { List TermTree };

    ghost coded = { coded_list term_code };

    ghost use Rattle.tptp_tree.specs.Shape.{term_of};

    ghost view = { λ a. map term_of a.items.items };

    ghost size = { λ ts. terms_size (terms_of ts) };

    ghost use Rattle.std.proofs.Common.{arith};
    ghost use Rattle.tptp_tree.specs.Falls.{most-deep-TreeTerm-≤};

    ghost size_decreases = { λ a h. Prim.omega (arith, most-deep-TreeTerm-≤ a.items.items) };
}

impl TreeTerm {
    /// An equal term.
    #[cycle(copy)]
    pub fn copy(&self, alloc: Global) -> Mem<TreeTerm>
        ensures { IfOk result (λ term. term_of term ≡ term_of self.now) }
    {
        match self {
            TreeTerm::Var(name) => Ok(TreeTerm::Var(name.copy(alloc)?)),
            TreeTerm::App(name, arguments) => Ok(TreeTerm::App(
                name.copy(alloc)?,
                arguments.copy(alloc)?,
            )),
        }
    }
}

impl TreeTerms {
    /// The empty list. It takes no memory.
    pub fn new(alloc: Global) -> TreeTerms
        ensures { result ≡ [] }
    {
        TreeTerms {
            items: Vec::new(alloc),
        }
    }

    /// The list of a vector's terms. It takes no memory.
    pub fn from_vec(items: Vec<TreeTerm>) -> TreeTerms
        ensures { result ≡ map term_of items.items }
    {
        TreeTerms { items }
    }

    /// The vector of the list's terms. It takes no memory.
    pub fn into_vec(self) -> Vec<TreeTerm>
        ensures { map term_of result.items ≡ self }
    {
        self.items
    }

    /// The terms, lent.
    pub fn as_slice(&self) -> &[TreeTerm]
        ensures { map term_of result.now ≡ self.now }
    {
        self.items.as_slice()
    }

    /// The terms, lent one after another.
    pub fn iter(&self) -> Iter<'_, TreeTerm>
        ensures rest { map term_of (iter_rest result) ≡ self.now }
        ensures len { length (iter_rest result) ≡ length self.now }
        ensures bound { length (iter_rest result) < 2 ^ 64 }
        ensures runs { IterYieldsInOrder TreeTerm }
        ensures runs_back { IterYieldsInReverse TreeTerm }
    {
        self.items.iter()
    }

    /// How many terms there are.
    pub fn len(&self) -> usize
        ensures { result ≡ length self.now }
    {
        self.items.len()
    }

    /// Whether there are none.
    pub fn is_empty(&self) -> bool
        ensures { IsTrue result ↔ (self.now ≡ []) }
    {
        self.items.is_empty()
    }

    /// Adds a term at the end. After an out-of-memory error the list is as before.
    pub fn push(&mut self, term: TreeTerm) -> Mem<()>
        ensures ok { IfOk result (λ _. self.new ≡ self.old ++ term_of term ∷ []) }
        ensures err { OnErr result (self.new ≡ self.old) }
    {
        self.items.push(term)?;
        Ok(())
    }
    /// An equal list.
    #[cycle(copy)]
    pub fn copy(&self, alloc: Global) -> Mem<TreeTerms>
        ensures { IfOk result (λ terms. terms ≡ self.now) }
    {
        let mut items = Vec::with_capacity(alloc, self.items.len())?;
        for term in &self.items {
            items.push(term.copy(alloc)?)?;
        }
        Ok(TreeTerms { items })
    }
}
