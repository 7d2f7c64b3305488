// Literals of a matrix. Their sizes and variables are known before their terms are made, which is when they are written into a clause: a
// formula that passes a limit is refused before any of its terms is made.

ghost use Rattle.std.specs.Prelude.{◌≡◌, ◌-◌, ◌^◌, ◌∷◌, ◌++◌, min, map, flat_map, IfOk, OnErr};
ghost use Rattle.tptp_tree.specs.Term.{terms_of};
ghost use Rattle.fol_base.specs.Tree.{application, tree_variables};
ghost use Rattle.fol_base.specs.Term.{tree_of};
ghost use Rattle.fol_base.specs.Clause.{literal_size, literal_variables};
ghost use Rattle.fol_base.specs.Literal.{literal_of};
ghost use Rattle.signature.specs.Symbol.{predicate_symbol, number_of};
ghost use Rattle.signature.specs.Occurrences.{terms_count, terms_symbols};
ghost use Rattle.signature.specs.Clausal.{applied, atom_literal};
ghost use Rattle.skolem.specs.BoundTerm.{bound_tree};
ghost use Rattle.skolem.specs.Literal.{terms_in_force, filled_terms, atom_symbols, atom_names, atom_size, atom_under, bound_literal, IsBound};
ghost use Rattle.skolem.specs.Skolemized.{AreKnown};
ghost use Rattle.skolem.specs.Progress.{environment_of};

use crate::bindings::Bindings;
use crate::bound_term::BoundTerm;
use crate::filling::{BoundTerms, filled, filled_terms, push_all_bound, push_bound};
use crate::terms::number_in;
use fol_base::{Literal, Term};
use plain_types::{Mem, Text};
use signature::{Signature, SymbolKind};
use std::alloc::Global;
use std::marker::Model;
use std::rc::Rc;
use tptp_tree::{TreeTerm, TreeTerms};

/// The symbols of a predicate's literal beside its arguments: the predicate and `$true`.
const ATOM_SYMBOLS: u64 = 2;

/// An atom of a formula, lent.
#[derive(Clone, Copy)]
pub(crate) enum Atom<'a> {
    Pred(&'a Text, &'a TreeTerms),
    Equal(&'a TreeTerm, &'a TreeTerm),
}

/// An atom or its negation, with the terms to which its variables are bound in the order in which these stand in it, and its size.
#[derive(Drop)]
pub(crate) struct BoundLiteral<'a> {
    pub signature: &'a Signature,
    pub positive: bool,
    pub atom: Atom<'a>,
    pub terms: Vec<BoundTerm>,
    pub size: u64,
}

/// Where a literal comes from: a formula, or a name.
#[derive(Drop)]
pub(crate) enum Source<'a> {
    Bound(BoundLiteral<'a>),
    Named(bool, BoundTerm),
}

/// A literal of a matrix, which contracts see as the literal that is made of it.
#[derive(Drop)]
pub struct MatrixLiteral<'a> {
    source: Source<'a>,
}

impl<'a> Model for MatrixLiteral<'a> {
    ghost use Rattle.std.specs.Coded.{codes};
    ghost use Rattle.fol_base.specs.TreeCode.{tree_code};
    ghost use Rattle.fol_base.specs.Clause.{TreeLiteral};
    ghost use Rattle.skolem.specs.Literal.{source_literal, IsSource};

    ghost Value = { TreeLiteral };

    ghost coded = { Prim.hlevel (codes, tree_code) };

    ghost view = { λ a. source_literal a.source };

    ghost invariant = { λ a. IsSource a.source };
}

impl<'a> MatrixLiteral<'a> {
    /// The literal of an atom, or of its negation, under the variables in force.
    pub(crate) fn of_atom(
        alloc: Global,
        signature: &'a Signature,
        bindings: &Bindings,
        positive: bool,
        atom: Atom<'a>,
    ) -> Mem<MatrixLiteral<'a>>
        requires known { AreKnown signature.now (atom_symbols atom) }
        ensures { IfOk result (λ literal. literal ≡ atom_under signature.now (environment_of bindings.now) positive atom.entry) }
    {
        let bound = bound_terms(alloc, bindings, atom)?;
        Ok(MatrixLiteral {
            source: Source::Bound(BoundLiteral {
                signature,
                positive,
                atom,
                terms: bound.terms,
                size: bound.size,
            }),
        })
    }

    /// The literal of a name, or of its negation: its symbol, applied to variables.
    pub fn of_name(positive: bool, symbol: u32, arguments: Rc<Vec<u32>>) -> MatrixLiteral<'a>
        ensures { result ≡ atom_literal positive (applied symbol arguments.value.items) }
    {
        let atom = BoundTerm::Skolem { symbol, arguments };
        MatrixLiteral {
            source: Source::Named(positive, atom),
        }
    }

    /// The occurrences of symbols and variables, stopping at u64's last value.
    pub fn size(&self) -> u64
        ensures { result ≡ min (literal_size self.now) (2 ^ 64 - 1) }
    {
        match &self.source {
            Source::Bound(literal) => literal.size,
            Source::Named(_, atom) => atom.size().saturating_add(1),
        }
    }

    /// Adds the numbers of the literal's variables at the end, with repetitions, from left to right; after an out-of-memory error none is added.
    pub fn push_variables(&self, found: &mut Vec<u32>) -> Mem<()>
        ensures added { IfOk result (λ _. found.new.items ≡ found.old.items ++ literal_variables self.now) }
        ensures unchanged { OnErr result (found.new.items ≡ found.old.items) }
    {
        match &self.source {
            Source::Bound(literal) => push_bound_variables(literal.terms.as_slice(), found),
            Source::Named(_, atom) => atom.push_variables(found),
        }
    }

    /// The literal.
    pub fn to_literal(&self, alloc: Global) -> Mem<Literal>
        ensures { IfOk result (λ literal. literal_of literal ≡ self.now) }
    {
        match &self.source {
            Source::Bound(literal) => literal.to_literal(alloc),
            Source::Named(positive, atom) => Ok(Literal {
                positive: *positive,
                left: atom.to_term(alloc)?,
                right: Term::truth(alloc),
            }),
        }
    }
}

impl<'a> BoundLiteral<'a> {
    /// The literal, its terms made.
    fn to_literal(&self, alloc: Global) -> Mem<Literal>
        requires { IsBound self.now }
        ensures { IfOk result (λ literal. literal_of literal ≡ bound_literal self.now) }
    {
        let bound = self.terms.as_slice();
        match self.atom {
            Atom::Pred(name, arguments) => Ok(Literal {
                positive: self.positive,
                left: filled_atom(alloc, self.signature, name, arguments, bound)?,
                right: Term::truth(alloc),
            }),
            Atom::Equal(left, right) => {
                let (left, rest) = filled(alloc, self.signature, left, bound)?;
                let (right, _) = filled(alloc, self.signature, right, rest)?;
                Ok(Literal {
                    positive: self.positive,
                    left,
                    right,
                })
            }
        }
    }
}

/// A predicate with arguments, those terms standing for their variables.
fn filled_atom(
    alloc: Global,
    signature: &Signature,
    name: &Text,
    arguments: &TreeTerms,
    bound: &[BoundTerm],
) -> Mem<Term>
    requires known { AreKnown signature.now
        (predicate_symbol name.now (terms_count (terms_of arguments.now)) ∷ terms_symbols (terms_of arguments.now)) }
    ensures { IfOk result (λ term. tree_of term ≡ application
        (number_of signature.now (predicate_symbol name.now (terms_count (terms_of arguments.now))))
        (filled_terms signature.now (terms_of arguments.now) (map bound_tree bound.now))) }
{
    let terms = arguments.as_slice();
    let number = number_in(
        signature,
        SymbolKind::Predicate,
        name.as_slice(),
        terms.len(),
    )?;
    let (filled, _) = filled_terms(alloc, signature, terms, bound)?;
    Ok(Term::App(number, filled))
}

/// The terms to which an atom's variables are bound, and the size of its literal.
fn bound_terms(alloc: Global, bindings: &Bindings, atom: Atom<'_>) -> Mem<BoundTerms>
    ensures terms { IfOk result (λ bound. map bound_tree bound.terms.items ≡ terms_in_force (environment_of bindings.now) (atom_names atom.entry)) }
    ensures size { IfOk result (λ bound. bound.size ≡ min (atom_size (environment_of bindings.now) atom.entry) (2 ^ 64 - 1)) }
{
    let mut bound = BoundTerms {
        terms: Vec::new(alloc),
        size: 0,
    };
    match atom {
        Atom::Pred(_, arguments) => {
            bound.size = ATOM_SYMBOLS;
            push_all_bound(bindings, arguments.as_slice(), &mut bound)?;
        }
        Atom::Equal(left, right) => {
            push_bound(bindings, left, &mut bound)?;
            push_bound(bindings, right, &mut bound)?;
        }
    }
    Ok(bound)
}

/// Adds the variables of terms; after an out-of-memory error none is added.
fn push_bound_variables(terms: &[BoundTerm], found: &mut Vec<u32>) -> Mem<()>
    ensures added { IfOk result (λ _. found.new.items ≡ found.old.items ++ flat_map tree_variables (map bound_tree terms.now)) }
    ensures unchanged { OnErr result (found.new.items ≡ found.old.items) }
{
    let before = found.len();
    for term in terms {
        if let Err(error) = term.push_variables(found) {
            found.truncate(before);
            return Err(error);
        }
    }
    Ok(())
}
