// The clause of a line.

ghost use Rattle.std.specs.Prelude.{◌≡◌, ◌∷◌, IfOk, IsTrue, true, map, filter_map, flat_map};
ghost use Rattle.std.specs.List.{list_all};
ghost use Rattle.tptp_tree.specs.Term.{terms_of};
ghost use Rattle.tptp_tree.specs.Formula.{predicate, equation};
ghost use Rattle.tptp_tree.specs.Shape.{term_of, formula_of};
ghost use Rattle.fol_base.specs.Literal.{literal_of, clause_of};
ghost use Rattle.signature.specs.Occurrences.{formula_symbols};
ghost use Rattle.signature.specs.Environment.{free_names};
ghost use Rattle.clausal_form.specs.DerivationClause.{is_atom, is_literal, literal_name, ordinary_literals, is_written_clause};
ghost use Rattle.tstp_lines.specs.Numbers.{Meets};
ghost use Rattle.tstp_lines.specs.LineClause.{IsAtom, IsLiteral, AreLiterals, IsClause, ordinary};

use crate::names::NameTable;
use crate::numbers::LineNumbers;
use crate::written::{atom_of, is_positive, literal_name, literals_of};
use fol_base::{Clause, Literal, Literals, Term};
use plain_types::{Mem, Names};
use signature::SymbolKind;
use std::alloc::Global;
use tptp_tree::{Formula, TreeTerm};

/// The names among literals.
fn clause_names(alloc: Global, names: &NameTable, literals: &[Formula]) -> Mem<Names>
    ensures { IfOk result (λ made. made ≡ filter_map (literal_name names.now) (map formula_of literals.now)) }
{
    let mut made = Names::new(alloc);
    for literal in literals {
        if let Some(name) = literal_name(names, literal) {
            made.push(name)?;
        }
    }
    Ok(made)
}

impl LineNumbers {
    /// The clause that a formula is written as: its ordinary literals by the numbers, which stay the right ones whatever is met
    /// later, and its names as they stand. The formula is to be written as a clause.
    pub(crate) fn clause(
        &mut self,
        alloc: Global,
        names: &NameTable,
        formula: &Formula,
    ) -> Mem<Clause>
        requires { IsTrue (is_written_clause names.now (formula_of formula.now)) }
        ensures met { IfOk result (λ _. Meets self.old self.new
            (flat_map formula_symbols (ordinary_literals names.now (formula_of formula.now)))
            (flat_map free_names (ordinary_literals names.now (formula_of formula.now)))) }
        ensures clause { IfOk result (λ clause. IsClause self.new names.now (formula_of formula.now) (clause_of clause)) }
    {
        let written = literals_of(formula);
        Ok(Clause {
            literals: self.literals(alloc, names, written)?,
            names: clause_names(alloc, names, written)?,
        })
    }

    /// The ordinary ones of literals, by the numbers.
    fn literals(&mut self, alloc: Global, names: &NameTable, literals: &[Formula]) -> Mem<Literals>
        requires { IsTrue (list_all is_literal (map formula_of literals.now)) }
        ensures met { IfOk result (λ _. Meets self.old self.new
            (flat_map formula_symbols (ordinary names.now (map formula_of literals.now)))
            (flat_map free_names (ordinary names.now (map formula_of literals.now)))) }
        ensures literals { IfOk result (λ made. AreLiterals self.new (ordinary names.now (map formula_of literals.now)) (map literal_of made)) }
    {
        let mut made = Literals::new(alloc);
        for literal in literals {
            if literal_name(names, literal).is_some() {
                continue;
            }
            made.push(self.literal(alloc, literal)?)?;
        }
        Ok(made)
    }

    /// A literal by the numbers.
    fn literal(&mut self, alloc: Global, literal: &Formula) -> Mem<Literal>
        requires { IsTrue (is_literal (formula_of literal.now)) }
        ensures met { IfOk result (λ _. Meets self.old self.new (formula_symbols (formula_of literal.now)) (free_names (formula_of literal.now))) }
        ensures literal { IfOk result (λ made. IsLiteral self.new (formula_of literal.now) (literal_of made)) }
    {
        self.atom(alloc, is_positive(literal), atom_of(literal))
    }

    /// The literal that affirms or negates an atom.
    fn atom(&mut self, alloc: Global, positive: bool, atom: &Formula) -> Mem<Literal>
        requires { IsTrue (is_atom (formula_of atom.now)) }
        ensures met { IfOk result (λ _. Meets self.old self.new (formula_symbols (formula_of atom.now)) (free_names (formula_of atom.now))) }
        ensures literal { IfOk result (λ made. IsAtom self.new positive (formula_of atom.now) (literal_of made)) }
    {
        match atom {
            Formula::Pred(name, arguments) => self.predicate(
                alloc,
                positive,
                name.as_slice(),
                arguments.as_slice(),
            ),
            Formula::Equal(left, right) => self.equation(alloc, positive, left, right),
            Formula::NotEqual(left, right) => self.equation(alloc, !positive, left, right),
            _ => Ok(Literal {
                positive,
                left: Term::truth(alloc),
                right: Term::truth(alloc),
            }),
        }
    }

    /// The literal that affirms or negates a predicate.
    fn predicate(
        &mut self,
        alloc: Global,
        positive: bool,
        name: &[u8],
        arguments: &[TreeTerm],
    ) -> Mem<Literal>
        ensures met { IfOk result (λ _. Meets self.old self.new
            (formula_symbols (predicate name.now (terms_of (map term_of arguments.now))))
            (free_names (predicate name.now (terms_of (map term_of arguments.now))))) }
        ensures literal { IfOk result (λ made.
            IsAtom self.new positive (predicate name.now (terms_of (map term_of arguments.now))) (literal_of made)) }
    {
        let symbol = self.symbol(alloc, SymbolKind::Predicate, name, arguments.len())?;
        Ok(Literal {
            positive,
            left: Term::App(symbol, self.terms(alloc, arguments)?),
            right: Term::truth(alloc),
        })
    }

    /// An equation or its negation.
    fn equation(
        &mut self,
        alloc: Global,
        positive: bool,
        left: &TreeTerm,
        right: &TreeTerm,
    ) -> Mem<Literal>
        ensures met { IfOk result (λ _. Meets self.old self.new
            (formula_symbols (equation true (term_of left.now) (term_of right.now)))
            (free_names (equation true (term_of left.now) (term_of right.now)))) }
        ensures literal { IfOk result (λ made.
            IsAtom self.new positive (equation true (term_of left.now) (term_of right.now)) (literal_of made)) }
    {
        Ok(Literal {
            positive,
            left: self.term(alloc, left)?,
            right: self.term(alloc, right)?,
        })
    }
}
