// How large the propositional clauses of a size become.

ghost use Rattle.std.specs.Prelude.{◌≡◌, ◌^◌};
ghost use Rattle.plain_types.specs.Capped.{capped};
ghost use Rattle.fol_base.specs.Tree.{trees_of};
ghost use Rattle.fol_base.specs.Term.{tree_of};
ghost use Rattle.fol_base.specs.Literal.{literal_of, clause_of};
ghost use Rattle.clausal_form.specs.Form.{form_of};
ghost use Rattle.finite_models.specs.Measure.{
  occurrences,
  all_occurrences,
  argument_occurrences,
  literal_occurrences,
  clause_measure,
  symbol_measure,
  form_measure,
};

use clausal_form::Clausal;
use fol_base::{Clause, Literal, Term, Terms};
use signature::{Symbol, SymbolKind};

/// A power whose exponent is larger is the one with this exponent, or both are over u64's last value.
const MOST_EXPONENT: u64 = 64;

/// How many literals the propositional clauses of a form may have at a size, stopping at u64's last value.
pub fn measure(form: &Clausal, size: u32) -> u64
    ensures { result ≡ capped (form_measure (form_of form.now) size) }
{
    let mut total: u64 = 0;
    for clause in form.clauses.as_slice() {
        total = total.saturating_add(clause_measure(clause, size));
    }
    let symbols = form.signature.as_slice();
    for number in 1..symbols.len() {
        total = total.saturating_add(symbol_measure(&symbols[number], size));
    }
    total
}

fn clause_measure(clause: &Clause, size: u32) -> u64
    ensures { result ≡ capped (clause_measure size (clause_of clause.now)) }
{
    let mut exponent = clause.variable_bound();
    for literal in clause.literals.as_slice() {
        exponent = exponent.saturating_add(literal_occurrences(literal));
    }
    clause.size().saturating_mul(power(size, exponent))
}

fn symbol_measure(symbol: &Symbol, size: u32) -> u64
    ensures { result ≡ capped (symbol_measure size symbol.now) }
{
    let arity = u64::from(symbol.arity);
    match symbol.kind {
        SymbolKind::Predicate => power(size, arity),
        SymbolKind::Function => power(size, arity + 2).saturating_mul(2),
    }
}

fn literal_occurrences(literal: &Literal) -> u64
    ensures { result ≡ capped (literal_occurrences (literal_of literal.now)) }
{
    if literal.right.is_truth() {
        argument_occurrences(&literal.left)
    } else {
        occurrences(&literal.left).saturating_add(occurrences(&literal.right))
    }
}

fn argument_occurrences(atom: &Term) -> u64
    ensures { result ≡ capped (argument_occurrences (tree_of atom.now)) }
{
    match atom {
        Term::Var(_) => 0,
        Term::App(_, arguments) => all_occurrences(arguments),
    }
}

#[cycle(occurrences)]
fn occurrences(term: &Term) -> u64
    ensures { result ≡ capped (occurrences (tree_of term.now)) }
{
    match term {
        Term::Var(_) => 0,
        Term::App(_, arguments) => all_occurrences(arguments).saturating_add(1),
    }
}

#[cycle(occurrences)]
fn all_occurrences(terms: &Terms) -> u64
    ensures { result ≡ capped (all_occurrences (trees_of terms.now)) }
{
    let mut total: u64 = 0;
    for term in terms.as_slice() {
        total = total.saturating_add(occurrences(term));
    }
    total
}

/// A power, stopping at u64's last value.
fn power(base: u32, exponent: u64) -> u64
    ensures { result ≡ capped (base ^ exponent) }
{
    u64::from(base).saturating_pow(exponent.min(MOST_EXPONENT) as u32)
}
