// The symbols of formulas by numbers.

ghost use Rattle.std.specs.Prelude.{◌≡◌, ◌++◌, [], ◌∷◌, IfOk, map, fold, flat_map, length};
ghost use Rattle.tptp_tree.specs.Term.{terms_of};
ghost use Rattle.tptp_tree.specs.Formula.{formulas_of};
ghost use Rattle.tptp_tree.specs.Shape.{term_of, formula_of};
ghost use Rattle.signature.specs.Symbol.{with_symbol};
ghost use Rattle.signature.specs.Occurrences.{terms_count, term_symbols, terms_symbols, formula_symbols, formulas_symbols, annotated_symbols};
ghost use Rattle.axiom_filter.specs.Numbering.{met_numbers, formula_rows};

use name_hash::NameHash;
use plain_types::{Mem, Numbers, Sequence, Text};
use signature::{Symbol, SymbolKind, SymbolSet, arity_of};
use std::alloc::Global;
use tptp_tree::{Annotated, Formula, TreeTerm};

/// Formulas as rows of numbers: for each formula the numbers of its symbols, with repetitions. The numbers are those below `symbols`.
#[derive(Drop)]
pub(crate) struct Rows {
    pub rows: Vec<Numbers>,
    pub symbols: usize,
}

/// Symbols, in the order of a formula.
type SymbolList = Sequence<Symbol>;

/// The symbols of each formula by their numbers. A symbol that is met for the first time gets the next number.
pub(crate) fn numbered(alloc: Global, formulas: &[Annotated]) -> Mem<Rows>
    ensures rows { IfOk result (λ numbered. numbered.rows.items ≡ formula_rows [] formulas.now) }
    ensures symbols { IfOk result (λ numbered. numbered.symbols ≡ length (fold with_symbol [] (flat_map annotated_symbols formulas.now))) }
{
    let mut known = SymbolSet::with_hasher(alloc, NameHash::new());
    let mut rows = Vec::with_capacity(alloc, formulas.len())?;
    for annotated in formulas {
        let row = formula_row(alloc, &annotated.formula, &mut known)?;
        rows.push(row)?;
    }
    let symbols = known.len();
    Ok(Rows { rows, symbols })
}

/// The numbers of a formula's symbols; new ones become known.
fn formula_row(alloc: Global, formula: &Formula, known: &mut SymbolSet) -> Mem<Numbers>
    ensures row { IfOk result (λ row. row ≡ met_numbers known.old.keys (formula_symbols (formula_of formula.now))) }
    ensures known { IfOk result (λ _. known.new.keys ≡ fold with_symbol known.old.keys (formula_symbols (formula_of formula.now))) }
{
    let mut symbols = SymbolList::new(alloc);
    push_formula_symbols(alloc, formula, &mut symbols)?;
    let row = numbers_of(alloc, symbols.into_vec(), known)?;
    Ok(row)
}

/// The numbers of symbols; new ones become known.
fn numbers_of(alloc: Global, symbols: Vec<Symbol>, known: &mut SymbolSet) -> Mem<Numbers>
    ensures row { IfOk result (λ row. row ≡ met_numbers known.old.keys symbols.items) }
    ensures known { IfOk result (λ _. known.new.keys ≡ fold with_symbol known.old.keys symbols.items) }
{
    let mut row = Numbers::new(alloc);
    for symbol in symbols {
        let (number, _) = known.insert_full(symbol)?;
        row.push(number as u64)?;
    }
    Ok(row)
}

/// Adds the head of a term or of an atom.
#[tactic(auto, using(signature::proofs::OccurrenceLemmas::count_length))]
fn push_head(
    alloc: Global,
    kind: SymbolKind,
    name: &[u8],
    arguments: &[TreeTerm],
    symbols: &mut SymbolList,
) -> Mem<()>
    ensures { IfOk result (λ _. symbols.new ≡ symbols.old
        ++ (record { kind = kind; name = name.now; arity = terms_count (terms_of (map term_of arguments.now)) }) ∷ []) }
{
    let arity = arity_of(arguments.len())?;
    let name = Text::from_slice(alloc, name)?;
    symbols.push(Symbol { kind, name, arity })?;
    Ok(())
}

/// Adds the symbols of a term, its head before its arguments.
#[cycle(push_term_symbols)]
fn push_term_symbols(alloc: Global, term: &TreeTerm, symbols: &mut SymbolList) -> Mem<()>
    ensures { IfOk result (λ _. symbols.new ≡ symbols.old ++ term_symbols (term_of term.now)) }
{
    match term {
        TreeTerm::Var(_) => Ok(()),
        TreeTerm::App(name, arguments) => {
            let arguments = arguments.as_slice();
            push_head(
                alloc,
                SymbolKind::Function,
                name.as_slice(),
                arguments,
                symbols,
            )?;
            push_terms_symbols(alloc, arguments, symbols)
        }
    }
}

/// Adds those of terms.
#[cycle(push_term_symbols)]
fn push_terms_symbols(alloc: Global, terms: &[TreeTerm], symbols: &mut SymbolList) -> Mem<()>
    ensures { IfOk result (λ _. symbols.new ≡ symbols.old ++ terms_symbols (terms_of (map term_of terms.now))) }
{
    for term in terms {
        push_term_symbols(alloc, term, symbols)?;
    }
    Ok(())
}

/// Adds the symbols of a formula in reading order.
#[cycle(push_formula_symbols)]
fn push_formula_symbols(alloc: Global, formula: &Formula, symbols: &mut SymbolList) -> Mem<()>
    ensures { IfOk result (λ _. symbols.new ≡ symbols.old ++ formula_symbols (formula_of formula.now)) }
{
    match formula {
        Formula::True | Formula::False => Ok(()),
        Formula::Pred(name, arguments) => {
            let arguments = arguments.as_slice();
            push_head(
                alloc,
                SymbolKind::Predicate,
                name.as_slice(),
                arguments,
                symbols,
            )?;
            push_terms_symbols(alloc, arguments, symbols)
        }
        Formula::Equal(left, right) | Formula::NotEqual(left, right) => {
            push_term_symbols(alloc, left, symbols)?;
            push_term_symbols(alloc, right, symbols)
        }
        Formula::And(formulas) | Formula::Or(formulas) => {
            push_formulas_symbols(alloc, formulas.as_slice(), symbols)
        }
        Formula::Not(body) | Formula::All(_, body) | Formula::Ex(_, body) => {
            push_formula_symbols(alloc, body.get(), symbols)
        }
        Formula::Implies(left, right)
        | Formula::Implied(left, right)
        | Formula::Iff(left, right)
        | Formula::Xor(left, right)
        | Formula::Nor(left, right)
        | Formula::Nand(left, right) => {
            push_formula_symbols(alloc, left.get(), symbols)?;
            push_formula_symbols(alloc, right.get(), symbols)
        }
    }
}

/// Adds those of formulas.
#[cycle(push_formula_symbols)]
fn push_formulas_symbols(alloc: Global, formulas: &[Formula], symbols: &mut SymbolList) -> Mem<()>
    ensures { IfOk result (λ _. symbols.new ≡ symbols.old ++ formulas_symbols (formulas_of (map formula_of formulas.now))) }
{
    for formula in formulas {
        push_formula_symbols(alloc, formula, symbols)?;
    }
    Ok(())
}
