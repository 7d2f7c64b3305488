// The bindings of a line: the terms of its `bind` items.

ghost use Rattle.std.specs.Prelude.{◌≡◌, IfOk, IsTrue, option_map, map, flat_map};
ghost use Rattle.std.specs.List.{list_all};
ghost use Rattle.fol_base.specs.Term.{tree_of};
ghost use Rattle.tptp_source.specs.Shape.{tree_of as general_of};
ghost use Rattle.clausal_form.specs.DerivationItems.{arguments, only_one};
ghost use Rattle.tstp_lines.specs.Numbers.{Meets};
ghost use Rattle.tstp_lines.specs.Bindings.{is_bind, is_term, symbols_of, names_of, IsGeneralTerm, AreGeneralTerms, list_at, list_of_item, symbols_of_item, names_of_item, symbols_bound, names_bound, IsBinding, AreBindings};

use crate::numbers::LineNumbers;
use fol_base::{Term, Terms};
use plain_types::{Mem, Sequence};
use signature::SymbolKind;
use std::alloc::Global;
use tptp_source::GeneralTerm;

/// For each item with the word `bind`, the terms that it binds; none where its argument is no list of terms.
pub type Bindings = Sequence<Option<Terms>>;

impl LineNumbers {
    /// The bindings of the `bind` items, by the numbers, which stay the right ones whatever is met later.
    pub(crate) fn bindings(&mut self, alloc: Global, items: &[GeneralTerm]) -> Mem<Bindings>
        ensures met { IfOk result (λ _. Meets self.old self.new (symbols_bound (map general_of items.now)) (names_bound (map general_of items.now))) }
        ensures bindings { IfOk result (λ bindings. AreBindings self.new (map general_of items.now) bindings) }
    {
        let mut made = Bindings::new(alloc);
        for item in items {
            if !is_bind(item) {
                continue;
            }
            made.push(self.binding(alloc, item)?)?;
        }
        Ok(made)
    }

    /// The bindings of an item.
    fn binding(&mut self, alloc: Global, item: &GeneralTerm) -> Mem<Option<Terms>>
        ensures met { IfOk result (λ _. Meets self.old self.new (symbols_of_item (general_of item.now)) (names_of_item (general_of item.now))) }
        ensures binding { IfOk result (λ bound. IsBinding self.new (general_of item.now) bound) }
    {
        let Some(terms) = bound_list(item) else {
            return Ok(None);
        };
        if !are_terms(terms) {
            return Ok(None);
        }
        Ok(Some(self.general_terms(alloc, terms)?))
    }

    /// The term that a general term is, by the numbers.
    #[cycle(general_term)]
    fn general_term(&mut self, alloc: Global, term: &GeneralTerm) -> Mem<Term>
        requires { IsTrue (is_term (general_of term.now)) }
        ensures met { IfOk result (λ _. Meets self.old self.new (symbols_of (general_of term.now)) (names_of (general_of term.now))) }
        ensures tree { IfOk result (λ tree. IsGeneralTerm self.new (general_of term.now) (tree_of tree)) }
    {
        match term {
            GeneralTerm::Word(name, arguments) => {
                let arguments = arguments.as_slice();
                let symbol = self.symbol(
                    alloc,
                    SymbolKind::Function,
                    name.as_slice(),
                    arguments.len(),
                )?;
                Ok(Term::App(symbol, self.general_terms(alloc, arguments)?))
            }
            GeneralTerm::Variable(name) => Ok(Term::Var(
                self.variables.meet(alloc, name.as_slice())?,
            )),
            _ => Ok(Term::truth(alloc)),
        }
    }

    /// The terms that general terms are, by the numbers.
    #[cycle(general_term)]
    fn general_terms(&mut self, alloc: Global, terms: &[GeneralTerm]) -> Mem<Terms>
        requires { IsTrue (list_all is_term (map general_of terms.now)) }
        ensures met { IfOk result (λ _.
            Meets self.old self.new (flat_map symbols_of (map general_of terms.now)) (flat_map names_of (map general_of terms.now))) }
        ensures trees { IfOk result (λ trees. AreGeneralTerms self.new (map general_of terms.now) trees) }
    {
        let mut trees = Terms::new(alloc);
        for term in terms {
            trees.push(self.general_term(alloc, term)?)?;
        }
        Ok(trees)
    }
}

/// Whether an item has the word `bind`.
fn is_bind(item: &GeneralTerm) -> bool
    ensures { result ≡ is_bind (general_of item.now) }
{
    matches!(item, GeneralTerm::Word(word, _) if word.as_slice() == b"bind".as_slice())
}

/// The list in square brackets that is an item's only argument.
fn bound_list(item: &GeneralTerm) -> Option<&[GeneralTerm]>
    ensures { option_map (λ terms. map general_of terms.now) result ≡ list_of_item (general_of item.now) }
{
    list_at(only_argument(item)?)
}

/// A list's terms, where a general term is a list.
pub(crate) fn list_at(term: &GeneralTerm) -> Option<&[GeneralTerm]>
    ensures { option_map (λ terms. map general_of terms.now) result ≡ list_at (general_of term.now) }
{
    match term {
        GeneralTerm::Listed(terms) => Some(terms.as_slice()),
        _ => None,
    }
}

/// The only argument of a word.
fn only_argument(item: &GeneralTerm) -> Option<&GeneralTerm>
    ensures { option_map (λ term. general_of term.now) result ≡ only_one (arguments (general_of item.now)) }
{
    match item {
        GeneralTerm::Word(_, arguments) => only_one(arguments.as_slice()),
        _ => None,
    }
}

/// The only one of general terms.
pub(crate) fn only_one(terms: &[GeneralTerm]) -> Option<&GeneralTerm>
    ensures { option_map (λ term. general_of term.now) result ≡ only_one (map general_of terms.now) }
{
    match terms {
        [term] => Some(term),
        _ => None,
    }
}

/// Whether a general term is a variable or a function term.
#[cycle(is_term)]
fn is_term(term: &GeneralTerm) -> bool
    ensures { result ≡ is_term (general_of term.now) }
{
    match term {
        GeneralTerm::Variable(_) => true,
        GeneralTerm::Word(_, arguments) => are_terms(arguments.as_slice()),
        _ => false,
    }
}

/// Whether all general terms are variables or function terms.
#[cycle(is_term)]
fn are_terms(terms: &[GeneralTerm]) -> bool
    ensures { result ≡ list_all is_term (map general_of terms.now) }
{
    for term in terms {
        if !is_term(term) {
            return false;
        }
    }
    true
}
