// The items of an inference.

ghost use Rattle.std.specs.Prelude.{◌≡◌, IfOk, map};
ghost use Rattle.std.specs.Option.{option_map};
ghost use Rattle.tptp_tree.specs.Shape.{term_of};
ghost use Rattle.tptp_tree.specs.Term.{terms_of};
ghost use Rattle.tptp_source.specs.General.{trees_of};
ghost use Rattle.tptp_source.specs.Shape.{tree_of};
ghost use Rattle.tptp_source.specs.Items.{side_in, side_by, signed_name_in, positive_by, number_in, unsigned_by, decimal_in, is_decimal as decimal_is, all_numbers, term_in, terms_in};

use crate::sign::NumberSign;
use crate::term::{GeneralTerm, GeneralTerms};
use plain_types::{Mem, Numbers};
use std::alloc::Global;
use tptp_token::are_digits;
use tptp_tree::{TreeTerm, TreeTerms};

/// The name of a side of a literal.
#[derive(Clone, Copy, Debug, PartialEq, Eq)]
pub enum SideName {
    Left,
    Right,
}

/// The side that a term names: the word `left` or `right`.
pub fn side_of(term: &GeneralTerm) -> Option<SideName>
    ensures { result ≡ side_in (tree_of term.now) }
{
    match term {
        GeneralTerm::Word(word, arguments) => side_of_word(word.as_slice(), arguments),
        _ => None,
    }
}

/// The side that a word names, if it has no arguments.
fn side_of_word(word: &[u8], arguments: &GeneralTerms) -> Option<SideName>
    ensures { result ≡ side_by word.now (trees_of arguments.now) }
{
    if !arguments.is_empty() {
        None
    } else if word == b"left".as_slice() {
        Some(SideName::Left)
    } else if word == b"right".as_slice() {
        Some(SideName::Right)
    } else {
        None
    }
}

/// The signed name that a term is: whether it stands without `~`, and the name.
pub fn signed_name_of(term: &GeneralTerm) -> Option<(bool, &[u8])>
    ensures { option_map (λ signed. (signed.0, signed.1.now)) result ≡ signed_name_in (tree_of term.now) }
{
    match term {
        GeneralTerm::Word(word, arguments) => positive_name(word.as_slice(), arguments),
        GeneralTerm::Negated(word) => Some((false, word.as_slice())),
        _ => None,
    }
}

/// The signed name that a word is, if it has no arguments.
fn positive_name<'a>(word: &'a [u8], arguments: &GeneralTerms) -> Option<(bool, &'a [u8])>
    ensures { option_map (λ signed. (signed.0, signed.1.now)) result ≡ positive_by word.now (trees_of arguments.now) }
{
    if arguments.is_empty() {
        Some((true, word))
    } else {
        None
    }
}

/// The number that a term is: decimal digits without a sign and without a leading zero, below 2 ^ 64.
pub fn number_of(term: &GeneralTerm) -> Option<u64>
    ensures { result ≡ number_in (tree_of term.now) }
{
    match term {
        GeneralTerm::Number(sign, digits) => unsigned_number(*sign, digits.as_slice()),
        _ => None,
    }
}

/// The number of digits without a sign.
fn unsigned_number(sign: NumberSign, digits: &[u8]) -> Option<u64>
    ensures { result ≡ unsigned_by sign digits.now }
{
    match sign {
        NumberSign::Unsigned => decimal(digits),
        _ => None,
    }
}

/// The number that bytes are: decimal digits without a sign and without a leading zero, below 2 ^ 64.
pub fn decimal(digits: &[u8]) -> Option<u64>
    ensures { result ≡ decimal_in digits.now }
{
    if !is_decimal(digits) {
        return None;
    }
    let mut value: u64 = 0;
    for digit in digits {
        let tens = value.checked_mul(10)?;
        value = tens.checked_add(u64::from(digit.saturating_sub(b'0')))?;
    }
    Some(value)
}

/// Whether bytes are decimal digits without a leading zero.
fn is_decimal(digits: &[u8]) -> bool
    ensures { result ≡ decimal_is digits.now }
{
    match digits.split_first() {
        None => false,
        Some((first, rest)) => are_digits(digits) && (*first != b'0' || rest.is_empty()),
    }
}

/// The numbers that the terms of a list are, where each is one.
pub fn numbers_of(alloc: Global, terms: &GeneralTerms) -> Mem<Option<Numbers>>
    ensures { IfOk result (λ numbers. numbers ≡ all_numbers terms.now) }
{
    let mut numbers = Numbers::new(alloc);
    for term in terms.as_slice() {
        match number_of(term) {
            Some(number) => numbers.push(number)?,
            None => return Ok(None),
        }
    }
    Ok(Some(numbers))
}

/// The term of formulas that a term is: a variable, or a word with such terms as arguments.
#[cycle(formula_terms)]
pub fn formula_term_of(alloc: Global, term: &GeneralTerm) -> Mem<Option<TreeTerm>>
    ensures { IfOk result (λ read. option_map term_of read ≡ term_in (tree_of term.now)) }
{
    match term {
        GeneralTerm::Variable(name) => Ok(Some(TreeTerm::Var(name.copy(alloc)?))),
        GeneralTerm::Word(word, arguments) => {
            let terms = formula_terms_of(alloc, arguments.as_slice())?;
            match terms {
                Some(terms) => Ok(Some(TreeTerm::App(word.copy(alloc)?, terms))),
                None => Ok(None),
            }
        }
        _ => Ok(None),
    }
}

/// The terms of formulas that terms are, where each is one.
#[cycle(formula_terms)]
pub fn formula_terms_of(alloc: Global, terms: &[GeneralTerm]) -> Mem<Option<TreeTerms>>
    ensures { IfOk result (λ read. option_map terms_of read ≡ terms_in (trees_of (map tree_of terms.now))) }
{
    let mut made = TreeTerms::new(alloc);
    for term in terms {
        let read = formula_term_of(alloc, term)?;
        match read {
            Some(term) => made.push(term)?,
            None => return Ok(None),
        }
    }
    Ok(Some(made))
}
