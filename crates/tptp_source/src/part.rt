// The contents of a general term: a name, a list, a word with its arguments, a number of terms.

ghost use Rattle.std.specs.Prelude.{◌≡◌, IfOk};
ghost use Rattle.std.specs.Option.{option_map};
ghost use Rattle.tptp_source.specs.General.{trees_of};
ghost use Rattle.tptp_source.specs.Shape.{tree_of};
ghost use Rattle.tptp_source.specs.Sources.{name_in, names_in, bare_name as name_without, number_name};
ghost use Rattle.tptp_source.specs.TermSources.{one_in, two_in, three_in, items_in, applied_in};

use crate::sign::NumberSign;
use crate::term::{GeneralTerm, GeneralTerms};
use plain_types::{Mem, Text, Texts};
use std::alloc::Global;
use tptp_token::are_digits;

/// The name that a term is: a word without arguments, or digits alone.
pub fn into_name(term: GeneralTerm) -> Option<Text>
    ensures { result ≡ name_in (tree_of term) }
{
    match term {
        GeneralTerm::Word(name, arguments) => bare_name(name, &arguments),
        GeneralTerm::Number(sign, digits) => digits_name(sign, digits),
        _ => None,
    }
}

/// The names that terms are, where each is one.
pub fn into_names(alloc: Global, terms: GeneralTerms) -> Mem<Option<Texts>>
    ensures { IfOk result (λ names. names ≡ names_in terms) }
{
    let mut names = Texts::new(alloc);
    for term in terms.into_vec() {
        match into_name(term) {
            Some(name) => names.push(name)?,
            None => return Ok(None),
        }
    }
    Ok(Some(names))
}

/// The terms of a list.
pub fn into_items(term: GeneralTerm) -> Option<GeneralTerms>
    ensures { result ≡ items_in (tree_of term) }
{
    match term {
        GeneralTerm::Listed(items) => Some(items),
        _ => None,
    }
}

/// A word and its arguments.
pub fn into_applied(term: GeneralTerm) -> Option<(Text, GeneralTerms)>
    ensures { result ≡ applied_in (tree_of term) }
{
    match term {
        GeneralTerm::Word(word, arguments) => Some((word, arguments)),
        _ => None,
    }
}

/// The term of a list of one.
pub fn into_one(terms: GeneralTerms) -> Option<GeneralTerm>
    ensures { option_map tree_of result ≡ one_in terms }
{
    let mut items = terms.into_vec();
    if items.len() != 1 {
        return None;
    }
    items.pop()
}

/// The terms of a list of two.
pub fn into_two(terms: GeneralTerms) -> Option<(GeneralTerm, GeneralTerm)>
    ensures { option_map (λ pair. (tree_of pair.0, tree_of pair.1)) result ≡ two_in terms }
{
    let mut items = terms.into_vec();
    if items.len() != 2 {
        return None;
    }
    let second = items.pop()?;
    let first = items.pop()?;
    Some((first, second))
}

/// The terms of a list of three.
pub fn into_three(terms: GeneralTerms) -> Option<(GeneralTerm, GeneralTerm, GeneralTerm)>
    ensures { option_map (λ triple. (tree_of triple.0, tree_of triple.1, tree_of triple.2)) result ≡ three_in terms }
{
    let mut items = terms.into_vec();
    if items.len() != 3 {
        return None;
    }
    let third = items.pop()?;
    let second = items.pop()?;
    let first = items.pop()?;
    Some((first, second, third))
}

/// The name of a word without arguments.
fn bare_name(name: Text, arguments: &GeneralTerms) -> Option<Text>
    ensures { result ≡ name_without name (trees_of arguments.now) }
{
    if arguments.is_empty() {
        Some(name)
    } else {
        None
    }
}

/// The name that a number is: digits alone.
fn digits_name(sign: NumberSign, digits: Text) -> Option<Text>
    ensures { result ≡ number_name sign digits }
{
    match sign {
        NumberSign::Unsigned if are_digits(digits.as_slice()) => Some(digits),
        _ => None,
    }
}
