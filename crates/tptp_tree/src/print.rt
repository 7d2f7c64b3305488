// How names, formulas and the names of formulas are printed.

ghost use Rattle.std.specs.Prelude.{◌≡◌, ℕ, ◌*◌, List, ◌++◌, map, IfOk, OnErr, codes};
ghost use Rattle.tptp_tree.specs.Term.{terms_of};
ghost use Rattle.tptp_tree.specs.Formula.{negation, formulas_of};
ghost use Rattle.tptp_tree.specs.Shape.{term_of, formula_of};
ghost use Rattle.tptp_tree.specs.Spelling.{SpellsName, SpellsFormula};
ghost use Rattle.tptp_tree.specs.Levels.{SpellsFormulaWithin};
ghost use Rattle.tptp_token.specs.Words.{name_text};
ghost use Rattle.tptp_tree.specs.Entries.{SpellsFormulaName};
ghost use Rattle.tptp_tree.specs.Printing.{formula_name_text, term_text, arguments_text, more_arguments_text, variables_text, more_variables_text, is_joined as joined, is_bare as bare, in_parentheses, formula_text, operand_text, operands_text, more_operands_text};

use crate::formula::Formula;
use crate::term::TreeTerm;
use plain_types::{Mem, Text};
use std::alloc::Global;
use tptp_token::{are_digits, push_name};

/// The text of a name: bare where it is a lower word, else between single quotes, with a `\` before a quote and a `\`.
/// Where some text spells the name, this one does.
pub fn print_name(alloc: Global, name: &Text) -> Mem<Text>
    ensures printed { IfOk result (λ text. text ≡ name_text name.now) }
    ensures read_again { IfOk result (λ text. (other : List ℕ) → SpellsName other name.now → SpellsName text name.now) }
{
    let mut page = Vec::new(alloc);
    push_name(&mut page, name.as_slice())?;
    Ok(Text::from_vec(page))
}

/// The text of a formula's name: digits alone stand bare, every other name as elsewhere. Where some text spells the name, this
/// one does.
pub fn print_formula_name(alloc: Global, name: &Text) -> Mem<Text>
    ensures printed { IfOk result (λ text. text ≡ formula_name_text name.now) }
    ensures read_again { IfOk result (λ text.
        (other : List ℕ) → SpellsFormulaName other name.now → SpellsFormulaName text name.now) }
{
    let mut page = Vec::new(alloc);
    push_formula_name(&mut page, name.as_slice())?;
    Ok(Text::from_vec(page))
}

/// Adds a formula's name at the end of a text: digits alone stand bare, every other name as elsewhere. After an out-of-memory error
/// nothing is added.
pub fn push_formula_name(page: &mut Vec<u8>, name: &[u8]) -> Mem<()>
    ensures added { IfOk result (λ _. page.new.items ≡ page.old.items ++ formula_name_text name.now) }
    ensures unchanged { OnErr result (page.new.items ≡ page.old.items) }
{
    if !name.is_empty() && are_digits(name) {
        page.extend_from_slice(name)?;
        return Ok(());
    }
    push_name(page, name)
}

/// The text of a formula. Arguments are separated by `,`, the signs of connectives and equations stand between single
/// blanks, a quantifier is `! [X,Y] : ` before its body. An operand of a connective and the body of a quantifier stand in
/// parentheses exactly where they are made by a connective of two or more operands, a negated formula where it is no atom
/// without equality and no negation. Where some text spells the formula, this one does, within at most twice as many levels.
pub fn print_formula(alloc: Global, formula: &Formula) -> Mem<Text>
    ensures printed { IfOk result (λ text. text ≡ formula_text (formula_of formula.now)) }
    ensures read_again { IfOk result (λ text.
        (other : List ℕ) → SpellsFormula other (formula_of formula.now) → SpellsFormula text (formula_of formula.now)) }
    ensures within { IfOk result (λ text. (levels : ℕ) (other : List ℕ)
        → SpellsFormulaWithin levels other (formula_of formula.now) → SpellsFormulaWithin (2 * levels) text (formula_of formula.now)) }
{
    let mut page = Vec::new(alloc);
    push_formula(&mut page, formula)?;
    Ok(Text::from_vec(page))
}

/// Adds bytes at the end of a text.
fn push_bytes(page: &mut Vec<u8>, bytes: &[u8]) -> Mem<()>
    ensures { IfOk result (λ _. page.new.items ≡ page.old.items ++ bytes.now) }
{
    page.extend_from_slice(bytes)?;
    Ok(())
}

/// Adds a term.
#[cycle(print_terms)]
fn push_term(page: &mut Vec<u8>, term: &TreeTerm) -> Mem<()>
    ensures { IfOk result (λ _. page.new.items ≡ page.old.items ++ term_text (term_of term.now)) }
{
    match term {
        TreeTerm::Var(name) => push_bytes(page, name.as_slice()),
        TreeTerm::App(name, arguments) => {
            push_name(page, name.as_slice())?;
            push_arguments(page, arguments.as_slice())
        }
    }
}

/// Adds arguments between brackets, or nothing where there are none.
#[cycle(print_terms)]
fn push_arguments(page: &mut Vec<u8>, arguments: &[TreeTerm]) -> Mem<()>
    ensures { IfOk result (λ _. page.new.items ≡ page.old.items ++ arguments_text (terms_of (map term_of arguments.now))) }
{
    match arguments.split_first() {
        None => Ok(()),
        Some((first, rest)) => {
            push_bytes(page, b"(")?;
            push_term(page, first)?;
            push_more_arguments(page, rest)
        }
    }
}

/// Adds the arguments from the second on, and the closing bracket.
#[cycle(print_terms)]
fn push_more_arguments(page: &mut Vec<u8>, arguments: &[TreeTerm]) -> Mem<()>
    ensures { IfOk result (λ _. page.new.items ≡ page.old.items ++ more_arguments_text (terms_of (map term_of arguments.now))) }
{
    for argument in arguments {
        push_bytes(page, b",")?;
        push_term(page, argument)?;
    }
    push_bytes(page, b")")
}

/// Adds two terms and the sign between them.
fn push_equation(page: &mut Vec<u8>, left: &TreeTerm, sign: &[u8], right: &TreeTerm) -> Mem<()>
    ensures { IfOk result (λ _. page.new.items ≡ page.old.items ++ (term_text (term_of left.now) ++ sign.now ++ term_text (term_of right.now))) }
{
    push_term(page, left)?;
    push_bytes(page, sign)?;
    push_term(page, right)
}

/// Adds variables with a comma between two of them.
fn push_variables(page: &mut Vec<u8>, variables: &[Text]) -> Mem<()>
    ensures { IfOk result (λ _. page.new.items ≡ page.old.items ++ variables_text variables.now) }
{
    match variables.split_first() {
        None => Ok(()),
        Some((first, rest)) => {
            push_bytes(page, first.as_slice())?;
            push_more_variables(page, rest)
        }
    }
}

/// Adds the variables from the second on.
fn push_more_variables(page: &mut Vec<u8>, variables: &[Text]) -> Mem<()>
    ensures { IfOk result (λ _. page.new.items ≡ page.old.items ++ more_variables_text variables.now) }
{
    for variable in variables {
        push_bytes(page, b",")?;
        push_bytes(page, variable.as_slice())?;
    }
    Ok(())
}

/// Whether a formula is made by a connective of two or more operands.
fn is_joined(formula: &Formula) -> bool
    ensures { result ≡ joined (formula_of formula.now) }
{
    match formula {
        Formula::And(_)
        | Formula::Or(_)
        | Formula::Implies(_, _)
        | Formula::Implied(_, _)
        | Formula::Iff(_, _)
        | Formula::Xor(_, _)
        | Formula::Nor(_, _)
        | Formula::Nand(_, _) => true,
        _ => false,
    }
}

/// Whether a formula stands after `~` without parentheses.
pub fn is_bare(formula: &Formula) -> bool
    ensures { result ≡ bare (formula_of formula.now) }
{
    match formula {
        Formula::True | Formula::False | Formula::Pred(_, _) | Formula::Not(_) => true,
        _ => false,
    }
}

/// Adds a formula.
#[cycle(print)]
fn push_formula(page: &mut Vec<u8>, formula: &Formula) -> Mem<()>
    ensures { IfOk result (λ _. page.new.items ≡ page.old.items ++ formula_text (formula_of formula.now)) }
{
    match formula {
        Formula::True => push_bytes(page, b"$true"),
        Formula::False => push_bytes(page, b"$false"),
        Formula::Pred(name, arguments) => {
            push_name(page, name.as_slice())?;
            push_arguments(page, arguments.as_slice())
        }
        Formula::Equal(left, right) => push_equation(page, left, b" = ", right),
        Formula::NotEqual(left, right) => push_equation(page, left, b" != ", right),
        Formula::Not(inner) => push_negation(page, inner.get()),
        Formula::And(formulas) => push_operands(page, b" & ", formulas.as_slice()),
        Formula::Or(formulas) => push_operands(page, b" | ", formulas.as_slice()),
        Formula::Implies(left, right) => push_connected(page, left.get(), b" => ", right.get()),
        Formula::Implied(left, right) => push_connected(page, left.get(), b" <= ", right.get()),
        Formula::Iff(left, right) => push_connected(page, left.get(), b" <=> ", right.get()),
        Formula::Xor(left, right) => push_connected(page, left.get(), b" <~> ", right.get()),
        Formula::Nor(left, right) => push_connected(page, left.get(), b" ~| ", right.get()),
        Formula::Nand(left, right) => push_connected(page, left.get(), b" ~& ", right.get()),
        Formula::All(variables, body) => push_quantified(
            page,
            b"! [",
            variables.as_slice(),
            body.get(),
        ),
        Formula::Ex(variables, body) => push_quantified(
            page,
            b"? [",
            variables.as_slice(),
            body.get(),
        ),
    }
}

/// Adds a negation, by the negated formula.
#[cycle(print)]
fn push_negation(page: &mut Vec<u8>, inner: &Formula) -> Mem<()>
    ensures { IfOk result (λ _. page.new.items ≡ page.old.items ++ formula_text (negation (formula_of inner.now))) }
{
    push_bytes(page, b"~")?;
    push_wrapped(page, inner, !is_bare(inner))
}

/// Adds a formula, in parentheses or not.
#[cycle(print)]
fn push_wrapped(page: &mut Vec<u8>, formula: &Formula, wrapped: bool) -> Mem<()>
    ensures { IfOk result (λ _. page.new.items ≡ page.old.items ++ in_parentheses wrapped (formula_text (formula_of formula.now))) }
{
    if !wrapped {
        return push_formula(page, formula);
    }
    push_bytes(page, b"(")?;
    push_formula(page, formula)?;
    push_bytes(page, b")")
}

/// Adds two operands and the sign between them.
#[cycle(print)]
fn push_connected(page: &mut Vec<u8>, left: &Formula, sign: &[u8], right: &Formula) -> Mem<()>
    ensures { IfOk result (λ _. page.new.items ≡ page.old.items
        ++ (operand_text (formula_of left.now) ++ sign.now ++ operand_text (formula_of right.now))) }
{
    push_wrapped(page, left, is_joined(left))?;
    push_bytes(page, sign)?;
    push_wrapped(page, right, is_joined(right))
}

/// Adds operands with a sign between two of them.
#[cycle(print)]
fn push_operands(page: &mut Vec<u8>, sign: &[u8], formulas: &[Formula]) -> Mem<()>
    ensures { IfOk result (λ _. page.new.items ≡ page.old.items ++ operands_text sign.now (formulas_of (map formula_of formulas.now))) }
{
    match formulas.split_first() {
        None => Ok(()),
        Some((first, rest)) => {
            push_wrapped(page, first, is_joined(first))?;
            push_more_operands(page, sign, rest)
        }
    }
}

/// Adds the operands from the second on.
#[cycle(print)]
fn push_more_operands(page: &mut Vec<u8>, sign: &[u8], formulas: &[Formula]) -> Mem<()>
    ensures { IfOk result (λ _. page.new.items ≡ page.old.items ++ more_operands_text sign.now (formulas_of (map formula_of formulas.now))) }
{
    for formula in formulas {
        push_bytes(page, sign)?;
        push_wrapped(page, formula, is_joined(formula))?;
    }
    Ok(())
}

/// Adds a quantifier up to its bracket, its variables and its body.
#[cycle(print)]
fn push_quantified(
    page: &mut Vec<u8>,
    quantifier: &[u8],
    variables: &[Text],
    body: &Formula,
) -> Mem<()>
    ensures { IfOk result (λ _. page.new.items ≡ page.old.items
        ++ (quantifier.now ++ variables_text variables.now ++ codes "] : " ++ operand_text (formula_of body.now))) }
{
    push_bytes(page, quantifier)?;
    push_variables(page, variables)?;
    push_bytes(page, b"] : ")?;
    push_wrapped(page, body, is_joined(body))
}
