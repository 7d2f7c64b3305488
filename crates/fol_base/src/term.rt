// Terms, which contracts see as trees.

ghost use Rattle.std.specs.Prelude.{◌≡◌, ◌<◌, ◌^◌, ◌↔◌, ◌++◌, [], ◌∷◌, length, map, IfOk, OnErr, IsTrue};
ghost use Rattle.std.specs.Slice.Iter.{iter_rest};
ghost use Rattle.std.specs.Iterator.Adapters.{IterYieldsInOrder, IterYieldsInReverse};
ghost use Rattle.fol_base.specs.Term.{tree_of};
ghost use Rattle.fol_base.specs.Tree.{is_truth, true_tree};

use plain_types::Mem;
use std::alloc::Global;
use std::marker::Model;
use std::slice::Iter;

/// The number of the reserved symbol `$true`.
pub const TRUE_SYMBOL: u32 = 0;

/// A first-order term: a variable by its number, or a symbol by its number, applied to terms.
#[derive(Drop)]
#[cycle(terms)]
pub enum Term {
    Var(u32),
    App(u32, Terms),
}

/// A list of terms, which contracts see as the list of their trees.
#[derive(Drop)]
#[cycle(terms)]
pub struct Terms {
    items: Vec<Term>,
}

impl Model for Terms {
    ghost use Rattle.std.specs.Prelude.{List, map};
    ghost use Rattle.std.specs.Coded.{coded_list};
    ghost use Rattle.fol_base.specs.Tree.{Tree, trees_size, trees_of};
    ghost use Rattle.fol_base.specs.TreeCode.{tree_code};

    ghost Value = { List Tree };

    ghost coded = { coded_list tree_code };

    ghost use Rattle.fol_base.specs.Term.{tree_of};

    ghost view = { λ a. map tree_of a.items.items };

    ghost size = { λ ts. trees_size (trees_of ts) };

    ghost use Rattle.std.proofs.Common.{arith};
    ghost use Rattle.fol_base.specs.Falls.{most-deep-Term-≤};

    ghost size_decreases = { λ a h. Prim.omega (arith, most-deep-Term-≤ a.items.items) };
}

impl Term {
    /// `$true`. It takes no memory.
    pub fn truth(alloc: Global) -> Term
        ensures { tree_of result ≡ true_tree }
    {
        Term::App(TRUE_SYMBOL, Terms::new(alloc))
    }

    /// Whether this is `$true`, the reserved symbol without arguments.
    pub fn is_truth(&self) -> bool
        ensures { result ≡ is_truth (tree_of self.now) }
    {
        match self {
            Term::App(symbol, arguments) => *symbol == TRUE_SYMBOL && arguments.is_empty(),
            Term::Var(_) => false,
        }
    }

    /// An equal term.
    #[cycle(copy)]
    pub fn copy(&self, alloc: Global) -> Mem<Term>
        ensures { IfOk result (λ term. tree_of term ≡ tree_of self.now) }
    {
        match self {
            Term::Var(variable) => Ok(Term::Var(*variable)),
            Term::App(symbol, arguments) => Ok(Term::App(*symbol, arguments.copy(alloc)?)),
        }
    }
}

impl Terms {
    /// The empty list. It takes no memory.
    pub fn new(alloc: Global) -> Terms
        ensures { result ≡ [] }
    {
        Terms {
            items: Vec::new(alloc),
        }
    }

    /// The list of a vector's terms. It takes no memory.
    pub fn from_vec(items: Vec<Term>) -> Terms
        ensures { result ≡ map tree_of items.items }
    {
        Terms { items }
    }

    /// The vector of the list's terms. It takes no memory.
    pub fn into_vec(self) -> Vec<Term>
        ensures { map tree_of result.items ≡ self }
    {
        self.items
    }

    /// The terms, lent.
    pub fn as_slice(&self) -> &[Term]
        ensures { map tree_of result.now ≡ self.now }
    {
        self.items.as_slice()
    }

    /// The terms, lent one after another.
    pub fn iter(&self) -> Iter<'_, Term>
        ensures rest { map tree_of (iter_rest result) ≡ self.now }
        ensures len { length (iter_rest result) ≡ length self.now }
        ensures bound { length (iter_rest result) < 2 ^ 64 }
        ensures runs { IterYieldsInOrder Term }
        ensures runs_back { IterYieldsInReverse Term }
    {
        self.items.iter()
    }

    /// Whether there are none.
    pub fn is_empty(&self) -> bool
        ensures { IsTrue result ↔ (self.now ≡ []) }
    {
        self.items.is_empty()
    }

    /// How many terms there are.
    pub fn len(&self) -> usize
        ensures { result ≡ length self.now }
    {
        self.items.len()
    }

    /// Adds a term at the end. After an out-of-memory error the list is as before.
    pub fn push(&mut self, term: Term) -> Mem<()>
        ensures ok { IfOk result (λ _. self.new ≡ self.old ++ tree_of term ∷ []) }
        ensures err { OnErr result (self.new ≡ self.old) }
    {
        self.items.push(term)?;
        Ok(())
    }

    /// An equal list.
    #[cycle(copy)]
    pub fn copy(&self, alloc: Global) -> Mem<Terms>
        ensures { IfOk result (λ terms. terms ≡ self.now) }
    {
        let mut items = Vec::with_capacity(alloc, self.items.len())?;
        for term in &self.items {
            items.push(term.copy(alloc)?)?;
        }
        Ok(Terms { items })
    }
}
