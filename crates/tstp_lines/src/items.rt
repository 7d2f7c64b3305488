// The items of an inference.

ghost use Rattle.std.specs.Prelude.{◌≡◌, ◌∷◌, [], ◌&&◌, codes, IfOk, map, option_map};
ghost use Rattle.std.specs.List.{list_any};
ghost use Rattle.tptp_source.specs.Shape.{tree_of as general_of};
ghost use Rattle.clausal_form.specs.DerivationItems.{arguments, has_word, is_plain, side_named, side_of, numbers_in, is_one_word, have_words, items_with, row_arguments};
ghost use Rattle.clausal_form.specs.DerivationSteps.{literal_side, of_literal, into_literal, of_number};
ghost use Rattle.tstp_lines.specs.Items.{item_word, literal_meant, into_meant, terms_lent};

use crate::bindings::only_one;
use fol_base::Side;
use plain_types::{Mem, Numbers};
use std::alloc::Global;
use tptp_source::{GeneralTerm, SideName, number_of, numbers_of};

/// The words of items that rules have besides `status`.
#[derive(Clone, Copy, Debug, PartialEq, Eq)]
pub enum ItemWord {
    Index,
    From,
    Into,
    Literal,
    Bind,
    Parts,
    Pivots,
}

impl ItemWord {
    /// The word as it is written.
    fn bytes(self) -> &'static [u8]
        ensures { result.now ≡ item_word self }
    {
        match self {
            ItemWord::Index => b"index",
            ItemWord::From => b"from",
            ItemWord::Into => b"into",
            ItemWord::Literal => b"lit",
            ItemWord::Bind => b"bind",
            ItemWord::Parts => b"parts",
            ItemWord::Pivots => b"pivots",
        }
    }
}

/// A literal of a clause, by its number from 0, and one of its sides.
#[derive(Clone, Copy)]
pub(crate) struct LiteralSide {
    pub literal: u64,
    pub side: Side,
}

/// A literal of a clause, by its number from 0, one of its sides, and a place in that side.
#[derive(Drop)]
pub(crate) struct LiteralPlace {
    pub literal: u64,
    pub side: Side,
    pub place: Numbers,
}

/// The arguments of a word; none where a term is no word.
pub(crate) fn arguments(item: &GeneralTerm) -> &[GeneralTerm]
    ensures { map general_of result.now ≡ arguments (general_of item.now) }
{
    match item {
        GeneralTerm::Word(_, arguments) => arguments.as_slice(),
        _ => &[],
    }
}

/// Whether a term has that word.
fn has_word(word: &[u8], item: &GeneralTerm) -> bool
    ensures { result ≡ has_word word.now (general_of item.now) }
{
    match item {
        GeneralTerm::Word(name, _) => word == name.as_slice(),
        _ => false,
    }
}

/// Whether a term is that word without arguments.
pub(crate) fn is_plain(word: &[u8], item: &GeneralTerm) -> bool
    ensures { result ≡ is_plain word.now (general_of item.now) }
{
    match item {
        GeneralTerm::Word(name, arguments) => arguments.is_empty() && word == name.as_slice(),
        _ => false,
    }
}

/// Whether terms are that word alone, without arguments.
fn is_one_word(word: &[u8], terms: &[GeneralTerm]) -> bool
    ensures { result ≡ is_one_word word.now (map general_of terms.now) }
{
    match terms {
        [term] => is_plain(word, term),
        _ => false,
    }
}

/// Whether a term has one of the words.
fn has_one_of(words: &[ItemWord], item: &GeneralTerm) -> bool
    ensures { result ≡ list_any (λ word. has_word word (general_of item.now)) (map item_word words.now) }
{
    for word in words {
        if has_word(word.bytes(), item) {
            return true;
        }
    }
    false
}

/// Whether a term is `status` or has one of the words.
fn is_of_row(words: &[ItemWord], item: &GeneralTerm) -> bool
    ensures { result ≡ list_any (λ word. has_word word (general_of item.now)) (codes "status" ∷ map item_word words.now) }
{
    has_word(b"status", item) || has_one_of(words, item)
}

/// Whether an item is `status` with that word.
fn is_status(status: &[u8], item: &GeneralTerm) -> bool
    ensures { result ≡ (has_word (codes "status") (general_of item.now) && is_one_word status.now (arguments (general_of item.now))) }
{
    has_word(b"status", item) && is_one_word(status, arguments(item))
}

/// Whether the items that are `status` or have one of the words have just these words, in order.
fn have_words(words: &[ItemWord], items: &[GeneralTerm]) -> bool
    ensures { result ≡ have_words (map item_word words.now)
        (items_with (codes "status" ∷ map item_word words.now) (map general_of items.now)) }
{
    let mut left = words;
    for item in items {
        if !is_of_row(words, item) {
            continue;
        }
        let Some((word, others)) = left.split_first() else {
            return false;
        };
        if !has_word(word.bytes(), item) {
            return false;
        }
        left = others;
    }
    left.is_empty()
}

/// The arguments of the items that have one of the words.
fn arguments_with<'a>(
    alloc: Global,
    words: &[ItemWord],
    items: &'a [GeneralTerm],
) -> Mem<Vec<&'a [GeneralTerm]>>
    ensures { IfOk result (λ row. map terms_lent row.items ≡ map arguments (items_with (map item_word words.now) (map general_of items.now))) }
{
    let mut row = Vec::new(alloc);
    for item in items {
        if !has_one_of(words, item) {
            continue;
        }
        row.push(arguments(item))?;
    }
    Ok(row)
}

/// The arguments of a row's items after `status`; none where the items aren't those of the row. Items with other words are ignored.
pub fn row_arguments<'a>(
    alloc: Global,
    status: &[u8],
    words: &[ItemWord],
    items: &'a [GeneralTerm],
) -> Mem<Option<Vec<&'a [GeneralTerm]>>>
    ensures { IfOk result (λ row. option_map (λ row. map terms_lent row.items) row
        ≡ row_arguments status.now (map item_word words.now) (map general_of items.now)) }
{
    let Some((first, others)) = items.split_first() else {
        return Ok(None);
    };
    if !is_status(status, first) {
        return Ok(None);
    }
    if !have_words(words, others) {
        return Ok(None);
    }
    Ok(Some(arguments_with(alloc, words, items)?))
}

/// The side that a term names.
fn side_of(term: &GeneralTerm) -> Option<Side>
    ensures { result ≡ side_of (general_of term.now) }
{
    let name = tptp_source::side_of(term)?;
    Some(side_named(name))
}

/// The side with that name.
fn side_named(name: SideName) -> Side
    ensures { result ≡ side_named name }
{
    match name {
        SideName::Left => Side::Left,
        SideName::Right => Side::Right,
    }
}

/// A literal and a side, by the terms for them.
fn literal_side(number: &GeneralTerm, side: &GeneralTerm) -> Option<LiteralSide>
    ensures { option_map literal_meant result ≡ literal_side (general_of number.now) (general_of side.now) }
{
    let literal = number_of(number)?;
    let side = side_of(side)?;
    Some(LiteralSide { literal, side })
}

/// The literal and side that arguments `I,S` are.
pub(crate) fn of_literal(terms: &[GeneralTerm]) -> Option<LiteralSide>
    ensures { option_map literal_meant result ≡ of_literal (map general_of terms.now) }
{
    match terms {
        [number, side] => literal_side(number, side),
        _ => None,
    }
}

/// The literal, side and place that arguments `J,S,[..]` are.
pub(crate) fn into_literal(alloc: Global, terms: &[GeneralTerm]) -> Mem<Option<LiteralPlace>>
    ensures { IfOk result (λ into. option_map into_meant into ≡ into_literal (map general_of terms.now)) }
{
    match terms {
        [number, side, place] => literal_place(alloc, number, side, place),
        _ => Ok(None),
    }
}

/// A literal, a side and a place, by the terms for them.
fn literal_place(
    alloc: Global,
    number: &GeneralTerm,
    side: &GeneralTerm,
    place: &GeneralTerm,
) -> Mem<Option<LiteralPlace>>
    ensures { IfOk result (λ into. option_map into_meant into
        ≡ into_literal (general_of number.now ∷ general_of side.now ∷ general_of place.now ∷ [])) }
{
    let Some(literal) = literal_side(number, side) else {
        return Ok(None);
    };
    let read = numbers_in(alloc, place)?;
    let Some(place) = read else {
        return Ok(None);
    };
    Ok(Some(LiteralPlace {
        literal: literal.literal,
        side: literal.side,
        place,
    }))
}

/// The number that is the only argument.
pub(crate) fn only_number(terms: &[GeneralTerm]) -> Option<u64>
    ensures { result ≡ of_number (map general_of terms.now) }
{
    let term = only_one(terms)?;
    number_of(term)
}

/// The numbers in a list.
pub(crate) fn numbers_in(alloc: Global, term: &GeneralTerm) -> Mem<Option<Numbers>>
    ensures { IfOk result (λ numbers. numbers ≡ numbers_in (general_of term.now)) }
{
    match term {
        GeneralTerm::Listed(terms) => numbers_of(alloc, terms),
        _ => Ok(None),
    }
}
