// The symbols of a problem, as a walk over it meets them.

ghost use Rattle.std.specs.Prelude.{◌≡◌, ◌≤◌, ◌<◌, IfOk, map, fold};
ghost use Rattle.tptp_tree.specs.declared.limits.TheConstants.{MOST_PROBLEM_SIZE};
ghost use Rattle.tptp_tree.specs.Term.{terms_of, term_size, terms_size};
ghost use Rattle.tptp_tree.specs.Formula.{formulas_of};
ghost use Rattle.tptp_tree.specs.Shape.{term_of, formula_of};
ghost use Rattle.signature.specs.Symbol.{with_symbol, symbol_of, IsSignature};
ghost use Rattle.signature.specs.Occurrences.{terms_count, term_symbols, terms_symbols, formula_symbols, formulas_symbols, problem_symbols};
ghost use Rattle.tptp_tree.specs.ProblemSize.{occurrences, all_occurrences, HasProblemSize};

use crate::symbol::{SymbolKind, SymbolRef, SymbolSet, TRUE};
use name_hash::NameHash;
use plain_types::Mem;
use std::alloc::Global;
use tptp_tree::{Formula, Problem, TreeTerm};

/// The symbols of a problem: `$true`, and the others by first occurrence.
pub(crate) fn meet_problem(alloc: Global, problem: &Problem) -> Mem<SymbolSet>
    requires { HasProblemSize problem.now.formulas }
    ensures symbols { IfOk result (λ known. known.keys ≡ problem_symbols problem.now.formulas) }
    ensures signature { IfOk result (λ known. IsSignature known.keys) }
{
    let mut known = SymbolSet::with_hasher(alloc, NameHash::new());
    known.insert_full(TRUE.copy(alloc)?)?;
    for annotated in problem.formulas.as_slice() {
        meet_formula(alloc, &mut known, &annotated.formula)?;
    }
    Ok(known)
}

/// Adds a symbol that is met for the first time.
fn meet(alloc: Global, known: &mut SymbolSet, symbol: SymbolRef<'_>) -> Mem<()>
    ensures { IfOk result (λ _. known.new.keys ≡ with_symbol known.old.keys (symbol_of symbol.entry)) }
{
    if !known.contains(symbol) {
        known.insert_full(symbol.copy(alloc)?)?;
    }
    Ok(())
}

/// Adds the head of a term or of an atom.
#[tactic(auto, using(crate::proofs::OccurrenceLemmas::count_length))]
fn meet_head(
    alloc: Global,
    known: &mut SymbolSet,
    kind: SymbolKind,
    name: &[u8],
    arguments: &[TreeTerm],
) -> Mem<()>
    requires { terms_size (terms_of (map term_of arguments.now)) < MOST_PROBLEM_SIZE }
    ensures { IfOk result (λ _. known.new.keys ≡ with_symbol known.old.keys
        (record { kind = kind; name = name.now; arity = terms_count (terms_of (map term_of arguments.now)) })) }
{
    let arity = arguments.len() as u32;
    meet(alloc, known, SymbolRef { kind, name, arity })
}

/// Adds the symbols of a term, its head before its arguments.
#[cycle(meet_term)]
fn meet_term(alloc: Global, known: &mut SymbolSet, term: &TreeTerm) -> Mem<()>
    requires { term_size (term_of term.now) ≤ MOST_PROBLEM_SIZE }
    ensures { IfOk result (λ _. known.new.keys ≡ fold with_symbol known.old.keys (term_symbols (term_of term.now))) }
{
    match term {
        TreeTerm::Var(_) => Ok(()),
        TreeTerm::App(name, arguments) => {
            meet_head(
                alloc,
                known,
                SymbolKind::Function,
                name.as_slice(),
                arguments.as_slice(),
            )?;
            meet_terms(alloc, known, arguments.as_slice())
        }
    }
}

/// Adds the symbols of terms.
#[cycle(meet_term)]
fn meet_terms(alloc: Global, known: &mut SymbolSet, terms: &[TreeTerm]) -> Mem<()>
    requires { terms_size (terms_of (map term_of terms.now)) ≤ MOST_PROBLEM_SIZE }
    ensures { IfOk result (λ _.
        known.new.keys ≡ fold with_symbol known.old.keys (terms_symbols (terms_of (map term_of terms.now)))) }
{
    for term in terms {
        meet_term(alloc, known, term)?;
    }
    Ok(())
}

/// Adds the symbols of a formula.
#[cycle(meet_formula)]
fn meet_formula(alloc: Global, known: &mut SymbolSet, formula: &Formula) -> Mem<()>
    requires { occurrences (formula_of formula.now) ≤ MOST_PROBLEM_SIZE }
    ensures { IfOk result (λ _. known.new.keys ≡ fold with_symbol known.old.keys (formula_symbols (formula_of formula.now))) }
{
    match formula {
        Formula::True | Formula::False => Ok(()),
        Formula::Pred(name, arguments) => {
            meet_head(
                alloc,
                known,
                SymbolKind::Predicate,
                name.as_slice(),
                arguments.as_slice(),
            )?;
            meet_terms(alloc, known, arguments.as_slice())
        }
        Formula::Equal(left, right) | Formula::NotEqual(left, right) => {
            meet_term(alloc, known, left)?;
            meet_term(alloc, known, right)
        }
        Formula::And(formulas) | Formula::Or(formulas) => meet_formulas(
            alloc,
            known,
            formulas.as_slice(),
        ),
        Formula::Not(body) | Formula::All(_, body) | Formula::Ex(_, body) => meet_formula(
            alloc,
            known,
            body.get(),
        ),
        Formula::Implies(left, right)
        | Formula::Implied(left, right)
        | Formula::Iff(left, right)
        | Formula::Xor(left, right)
        | Formula::Nor(left, right)
        | Formula::Nand(left, right) => {
            meet_formula(alloc, known, left.get())?;
            meet_formula(alloc, known, right.get())
        }
    }
}

/// Adds the symbols of formulas.
#[cycle(meet_formula)]
fn meet_formulas(alloc: Global, known: &mut SymbolSet, formulas: &[Formula]) -> Mem<()>
    requires { all_occurrences (formulas_of (map formula_of formulas.now)) ≤ MOST_PROBLEM_SIZE }
    ensures { IfOk result (λ _.
        known.new.keys ≡ fold with_symbol known.old.keys (formulas_symbols (formulas_of (map formula_of formulas.now)))) }
{
    for formula in formulas {
        meet_formula(alloc, known, formula)?;
    }
    Ok(())
}
