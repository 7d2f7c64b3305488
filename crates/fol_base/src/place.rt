// Subterms at places.

ghost use Rattle.std.specs.Prelude.{◌≡◌, ◌≤◌, ◌<◌, ◌++◌, ◌∷◌, drop, length, map, IfOk, OnErr, slice_set};
ghost use Rattle.std.specs.Option.{option_map};
ghost use Rattle.fol_base.specs.Place.{argument, subterm, replaced};
ghost use Rattle.fol_base.specs.Term.{tree_of};

use crate::term::{Term, Terms};
use plain_types::{Mem, Sequence};
use std::alloc::Global;

/// A place in a term: argument numbers from 0, from the root downwards.
pub type Position = Sequence<u64>;

/// The subterm at a place. None exactly where the term has no such place.
pub fn at<'a>(term: &'a Term, place: &Position) -> Option<&'a Term>
    ensures { option_map (λ found. tree_of found.now) result ≡ subterm place.now (tree_of term.entry.now) }
{
    let mut found = term;
    for number in place.as_slice() {
        match argument_at(found, *number) {
            Some(next) => found = next,
            None => return None,
        }
    }
    Some(found)
}

/// The argument of a term with that number, from 0. None exactly where the term has no such argument.
pub fn argument_at<'a>(term: &'a Term, number: u64) -> Option<&'a Term>
    ensures { option_map (λ found. tree_of found.now) result ≡ argument number (tree_of term.entry.now) }
{
    match term {
        Term::Var(_) => None,
        Term::App(_, arguments) => {
            let index = number as usize;
            let items = arguments.as_slice();
            if index < items.len() {
                Some(&items[index])
            } else {
                None
            }
        }
    }
}

/// The term with the subterm at a place replaced. None exactly where the term has no such place.
pub fn replace_at(alloc: Global, term: &Term, place: &Position, new: &Term) -> Mem<Option<Term>>
    ensures { IfOk result (λ made. option_map tree_of made ≡ replaced place.now (tree_of new.now) (tree_of term.now)) }
{
    replace_from(alloc, term, place.as_slice(), 0, new)
}

/// As `replace_at`, for the part of the place from `depth` on.
fn replace_from(
    alloc: Global,
    term: &Term,
    place: &[u64],
    depth: usize,
    new: &Term,
) -> Mem<Option<Term>>
    requires { depth ≤ length place.now }
    ensures { IfOk result (λ made.
        option_map tree_of made ≡ replaced (drop depth place.now) (tree_of new.now) (tree_of term.now)) }
{
    if depth == place.len() {
        return Ok(Some(new.copy(alloc)?));
    }
    match term {
        Term::Var(_) => Ok(None),
        Term::App(symbol, arguments) => {
            let index = place[depth] as usize;
            let items = arguments.as_slice();
            if index >= items.len() {
                return Ok(None);
            }
            match replace_from(alloc, &items[index], place, depth + 1, new)? {
                Some(inner) => {
                    let made = with_item(alloc, items, index, inner)?;
                    Ok(Some(Term::App(*symbol, made)))
                }
                None => Ok(None),
            }
        }
    }
}

/// A copy of the terms with one of them exchanged.
fn with_item(alloc: Global, items: &[Term], index: usize, new: Term) -> Mem<Terms>
    requires { index < length items.now }
    ensures { IfOk result (λ made. made ≡ slice_set (map tree_of items.now) index (tree_of new)) }
{
    let mut made = Vec::with_capacity(alloc, items.len())?;
    push_copies(alloc, &mut made, &items[..index])?;
    made.push(new)?;
    push_copies(alloc, &mut made, &items[index + 1..])?;
    Ok(Terms::from_vec(made))
}

/// Adds copies of the terms at the end.
fn push_copies(alloc: Global, made: &mut Vec<Term>, items: &[Term]) -> Mem<()>
    ensures { IfOk result (λ _. map tree_of made.new.items ≡ map tree_of made.old.items ++ map tree_of items.now) }
{
    for item in items {
        made.push(item.copy(alloc)?)?;
    }
    Ok(())
}
