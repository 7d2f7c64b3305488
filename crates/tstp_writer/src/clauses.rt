// How clauses are printed: terms, literals, and the names after them.

ghost use Rattle.std.specs.Prelude.{◌≡◌, ◌<◌, ◌++◌, ◌∷◌, codes, drop, length, map, IfOk, OnErr, IsTrue};
ghost use Rattle.fol_base.specs.Tree.{trees_of};
ghost use Rattle.fol_base.specs.Term.{tree_of};
ghost use Rattle.fol_base.specs.Lent.{lent_of};
ghost use Rattle.tptp_token.specs.Spelling.{is_lower_word};
ghost use Rattle.tptp_token.specs.Words.{name_text};
ghost use Rattle.tptp_tree.specs.Formula.{equation, formulas_of};
ghost use Rattle.tptp_tree.specs.Printing.{term_text, arguments_text, more_arguments_text, formula_text, more_operands_text};
ghost use Rattle.tstp_writer.specs.ClauseTrees.{symbol_name, term_tree, term_trees, atom_formula, literal_formula, introduced_name, signed_name_formula, one_of, clause_formula};
ghost use Rattle.tstp_writer.specs.NameTexts.{signed_name_text, more_names_text};

use crate::page::Page;
use fol_base::{LendsLiterals, LiteralRef, TRUE_SYMBOL, Term};
use plain_types::{Mem, NameLit};
use signature::Symbol;

/// Adds the name of a symbol, by its number.
fn push_symbol(page: &mut Page, symbols: &[Symbol], number: u32) -> Mem<()>
    ensures { IfOk result (λ _. page.new ≡ page.old ++ name_text (symbol_name symbols.now number)) }
{
    match symbols.get(number as usize) {
        Some(symbol) => page.name(symbol.name.as_slice()),
        None => page.name(b""),
    }
}

/// Adds a term.
#[cycle(print)]
pub(crate) fn push_term(page: &mut Page, symbols: &[Symbol], term: &Term) -> Mem<()>
    ensures { IfOk result (λ _. page.new ≡ page.old ++ term_text (term_tree symbols.now (tree_of term.now))) }
{
    match term {
        Term::Var(variable) => {
            page.bytes(b"X")?;
            page.number(u64::from(*variable))
        }
        Term::App(symbol, arguments) => {
            push_symbol(page, symbols, *symbol)?;
            push_arguments(page, symbols, arguments.as_slice())
        }
    }
}

/// Adds arguments between brackets, or nothing where there are none.
#[cycle(print)]
fn push_arguments(page: &mut Page, symbols: &[Symbol], arguments: &[Term]) -> Mem<()>
    ensures { IfOk result (λ _.
        page.new ≡ page.old ++ arguments_text (term_trees symbols.now (trees_of (map tree_of arguments.now)))) }
{
    match arguments.split_first() {
        None => Ok(()),
        Some((first, rest)) => {
            page.bytes(b"(")?;
            push_term(page, symbols, first)?;
            push_more_arguments(page, symbols, rest)
        }
    }
}

/// Adds the arguments from the second on, and the closing bracket.
#[cycle(print)]
fn push_more_arguments(page: &mut Page, symbols: &[Symbol], arguments: &[Term]) -> Mem<()>
    ensures { IfOk result (λ _.
        page.new ≡ page.old ++ more_arguments_text (term_trees symbols.now (trees_of (map tree_of arguments.now)))) }
{
    for argument in arguments {
        page.bytes(b",")?;
        push_term(page, symbols, argument)?;
    }
    page.bytes(b")")
}

/// Adds the atom that a term of a predicate is.
fn push_atom(page: &mut Page, symbols: &[Symbol], term: &Term) -> Mem<()>
    ensures { IfOk result (λ _. page.new ≡ page.old ++ formula_text (atom_formula symbols.now (tree_of term.now))) }
{
    match term {
        Term::App(symbol, arguments) if *symbol != TRUE_SYMBOL => {
            push_symbol(page, symbols, *symbol)?;
            push_arguments(page, symbols, arguments.as_slice())
        }
        _ => page.bytes(b"$true"),
    }
}

/// Adds an equation or its negation.
fn push_equation(page: &mut Page, symbols: &[Symbol], literal: LiteralRef<'_>) -> Mem<()>
    ensures { IfOk result (λ _. page.new ≡ page.old
        ++ formula_text (equation literal.entry.positive (term_tree symbols.now (tree_of literal.entry.left.now)) (term_tree symbols.now (tree_of literal.entry.right.now)))) }
{
    push_term(page, symbols, literal.left)?;
    page.bytes(if literal.positive { b" = " } else { b" != " })?;
    push_term(page, symbols, literal.right)
}

/// Adds a literal: an atom or its negation, or an equation or its negation.
fn push_literal(page: &mut Page, symbols: &[Symbol], literal: LiteralRef<'_>) -> Mem<()>
    ensures { IfOk result (λ _. page.new ≡ page.old ++ formula_text (literal_formula symbols.now (lent_of literal.entry))) }
{
    if !literal.right.is_truth() {
        return push_equation(page, symbols, literal);
    }
    if !literal.positive {
        page.bytes(b"~")?;
    }
    push_atom(page, symbols, literal.left)
}

/// Adds the literals from the second on.
fn push_more_literals<L: LendsLiterals>(
    page: &mut Page,
    symbols: &[Symbol],
    literals: &L,
) -> Mem<()>
    requires { 0 < length (L.meaning literals.now) }
    ensures { IfOk result (λ _. page.new ≡ page.old
        ++ more_operands_text (codes " | ") (formulas_of (map (literal_formula symbols.now) (drop 1 (L.meaning literals.now))))) }
{
    for index in 1..literals.count() {
        page.bytes(b" | ")?;
        push_literal(page, symbols, literals.literal(index))?;
    }
    Ok(())
}

/// Adds an introduced name.
pub(crate) fn push_introduced_name(page: &mut Page, prefix: &[u8], name: u32) -> Mem<()>
    ensures { IfOk result (λ _. page.new ≡ page.old ++ introduced_name prefix.now name) }
{
    page.bytes(prefix)?;
    page.number(u64::from(name))
}

/// Adds an introduced name with its sign.
pub(crate) fn push_signed_name(page: &mut Page, prefix: &[u8], name: NameLit) -> Mem<()>
    ensures { IfOk result (λ _. page.new ≡ page.old ++ signed_name_text prefix.now name) }
{
    if !name.positive {
        page.bytes(b"~")?;
    }
    push_introduced_name(page, prefix, name.name)
}

/// Adds the names of a clause after its literals.
fn push_more_names(page: &mut Page, prefix: &[u8], names: &[NameLit]) -> Mem<()>
    ensures { IfOk result (λ _. page.new ≡ page.old ++ more_names_text prefix.now names.now) }
{
    for name in names {
        page.bytes(b" | ")?;
        push_signed_name(page, prefix, *name)?;
    }
    Ok(())
}

/// Adds a clause: its literals, then its names, and `$false` where there are neither. The literals are lent, so that a clause of a bank
/// isn't copied to be printed. Out of memory, nothing is added.
pub fn push_clause<L: LendsLiterals>(
    page: &mut Page,
    symbols: &[Symbol],
    prefix: &[u8],
    literals: &L,
    names: &[NameLit],
) -> Mem<()>
    requires { IsTrue (is_lower_word prefix.now) }
    ensures added { IfOk result (λ _. page.new ≡ page.old ++ formula_text (clause_formula symbols.now prefix.now
        (record { literals = L.meaning literals.now; names = names.now }))) }
    ensures unchanged { OnErr result (page.new ≡ page.old) }
{
    let mut part = page.part();
    push_whole_clause(&mut part, symbols, prefix, literals, names)?;
    page.bytes(part.as_slice())
}

/// Adds a clause. Out of memory, a part of it may have been added.
pub(crate) fn push_whole_clause<L: LendsLiterals>(
    page: &mut Page,
    symbols: &[Symbol],
    prefix: &[u8],
    literals: &L,
    names: &[NameLit],
) -> Mem<()>
    requires { IsTrue (is_lower_word prefix.now) }
    ensures { IfOk result (λ _. page.new ≡ page.old ++ formula_text (clause_formula symbols.now prefix.now
        (record { literals = L.meaning literals.now; names = names.now }))) }
{
    if literals.count() == 0 {
        push_names(page, prefix, names)
    } else {
        push_literals(page, symbols, prefix, literals, names)
    }
}

/// Adds literals, of which there are some, then names.
fn push_literals<L: LendsLiterals>(
    page: &mut Page,
    symbols: &[Symbol],
    prefix: &[u8],
    literals: &L,
    names: &[NameLit],
) -> Mem<()>
    requires some { 0 < length (L.meaning literals.now) }
    requires word { IsTrue (is_lower_word prefix.now) }
    ensures { IfOk result (λ _. page.new ≡ page.old ++ formula_text (clause_formula symbols.now prefix.now
        (record { literals = L.meaning literals.now; names = names.now }))) }
{
    push_literal(page, symbols, literals.literal(0))?;
    push_more_literals(page, symbols, literals)?;
    push_more_names(page, prefix, names)
}

/// Adds the names of a clause without literals, or `$false` where there are none.
fn push_names(page: &mut Page, prefix: &[u8], names: &[NameLit]) -> Mem<()>
    requires { IsTrue (is_lower_word prefix.now) }
    ensures { IfOk result (λ _. page.new ≡ page.old ++ formula_text (one_of (map (signed_name_formula prefix.now) names.now))) }
{
    match names.split_first() {
        None => page.bytes(b"$false"),
        Some((first, rest)) => push_some_names(page, prefix, *first, rest),
    }
}

/// Adds names with a bar between two of them.
fn push_some_names(page: &mut Page, prefix: &[u8], first: NameLit, rest: &[NameLit]) -> Mem<()>
    requires { IsTrue (is_lower_word prefix.now) }
    ensures { IfOk result (λ _. page.new ≡ page.old ++ formula_text (one_of (map (signed_name_formula prefix.now) (first ∷ rest.now)))) }
{
    push_signed_name(page, prefix, first)?;
    push_more_names(page, prefix, rest)
}
