// The symbols and variables of a line, as a walk over its terms meets them.

ghost use Rattle.std.specs.Prelude.{◌≡◌, ◌∷◌, [], IfOk, map};
ghost use Rattle.tptp_tree.specs.Term.{terms_of};
ghost use Rattle.tptp_tree.specs.Shape.{term_of};
ghost use Rattle.fol_base.specs.Tree.{trees_of};
ghost use Rattle.fol_base.specs.Term.{tree_of};
ghost use Rattle.signature.specs.Symbol.{number_of};
ghost use Rattle.signature.specs.Occurrences.{term_symbols, terms_symbols};
ghost use Rattle.signature.specs.Environment.{term_names, terms_names};
ghost use Rattle.tstp_lines.specs.Numbers.{Meets, IsTerm, AreTerms, symbol_for};

use crate::names::NameTable;
use fol_base::{Term, Terms};
use plain_types::Mem;
use signature::{Signature, SymbolKind, SymbolRef, arity_of};
use std::alloc::Global;
use tptp_tree::TreeTerm;

/// The numbers of a line's symbols and variables: the symbols of the form, after them the others that were met, and the variables
/// that were met. More symbols or variables than there are numbers are answered by out of memory; after an out-of-memory error, what was met until then
/// stands.
#[derive(Drop)]
pub struct LineNumbers {
    pub symbols: Signature,
    pub variables: NameTable,
}

impl LineNumbers {
    /// The number of a symbol, which is added where it is new.
    pub(crate) fn symbol(
        &mut self,
        alloc: Global,
        kind: SymbolKind,
        name: &[u8],
        arguments: usize,
    ) -> Mem<u32>
        ensures met { IfOk result (λ _. Meets self.old self.new (symbol_for kind name.now arguments ∷ []) []) }
        ensures number { IfOk result (λ number. number ≡ number_of self.new.symbols (symbol_for kind name.now arguments)) }
    {
        let arity = arity_of(arguments)?;
        let symbol = SymbolRef { kind, name, arity };
        if let Some(number) = self.symbols.find(symbol) {
            return Ok(number);
        }
        self.symbols.add(symbol.copy(alloc)?)
    }

    /// The term by numbers. It stays the right one whatever is met later.
    #[cycle(term)]
    pub(crate) fn term(&mut self, alloc: Global, term: &TreeTerm) -> Mem<Term>
        ensures met { IfOk result (λ _. Meets self.old self.new (term_symbols (term_of term.now)) (term_names (term_of term.now))) }
        ensures tree { IfOk result (λ tree. IsTerm self.new (term_of term.now) (tree_of tree)) }
    {
        match term {
            TreeTerm::Var(name) => Ok(Term::Var(self.variables.meet(alloc, name.as_slice())?)),
            TreeTerm::App(name, arguments) => {
                let arguments = arguments.as_slice();
                let symbol = self.symbol(
                    alloc,
                    SymbolKind::Function,
                    name.as_slice(),
                    arguments.len(),
                )?;
                Ok(Term::App(symbol, self.terms(alloc, arguments)?))
            }
        }
    }

    /// The terms by numbers. They stay the right ones whatever is met later.
    #[cycle(term)]
    pub(crate) fn terms(&mut self, alloc: Global, terms: &[TreeTerm]) -> Mem<Terms>
        ensures met { IfOk result (λ _.
            Meets self.old self.new (terms_symbols (terms_of (map term_of terms.now))) (terms_names (terms_of (map term_of terms.now)))) }
        ensures trees { IfOk result (λ trees. AreTerms self.new (terms_of (map term_of terms.now)) (trees_of trees)) }
    {
        let mut trees = Terms::new(alloc);
        for term in terms {
            trees.push(self.term(alloc, term)?)?;
        }
        Ok(trees)
    }
}
