// Instances of terms, built; and places in instances, which are read without building them.

ghost use Rattle.std.specs.Prelude.{◌≡◌, ◌≤◌, ◌<◌, ◌++◌, length, map, drop, slice_set, false, IfOk};
ghost use Rattle.std.specs.Option.{option_map, unwrap_or};
ghost use Rattle.fol_base.specs.Tree.{Tree, tree_eq, is_truth};
ghost use Rattle.fol_base.specs.Term.{tree_of};
ghost use Rattle.fol_base.specs.Instance.{instance};
ghost use Rattle.fol_base.specs.Place.{argument, subterm, replaced};
ghost use Rattle.kernel_steps.specs.Bound.{under};

use fol_base::{LendsTerms, Term, Terms, argument_at, is_instance, same_instance};
use plain_types::Mem;
use std::alloc::Global;

/// The instance of a term.
#[cycle(instance)]
pub fn instance<S: LendsTerms>(alloc: Global, term: &Term, bind: &S) -> Mem<Term>
    ensures { IfOk result (λ made. tree_of made ≡ instance (S.meaning bind.now) (tree_of term.now)) }
{
    match term {
        Term::Var(variable) => match bind.term(*variable) {
            Some(put) => put.copy(alloc),
            None => Ok(Term::Var(*variable)),
        },
        Term::App(symbol, arguments) => {
            Ok(Term::App(*symbol, instances(alloc, arguments.as_slice(), bind)?))
        }
    }
}

#[cycle(instance)]
fn instances<S: LendsTerms>(alloc: Global, terms: &[Term], bind: &S) -> Mem<Terms>
    ensures { IfOk result (λ made. made ≡ map (instance (S.meaning bind.now)) (map tree_of terms.now)) }
{
    let mut items = Vec::with_capacity(alloc, terms.len())?;
    for term in terms {
        items.push(instance(alloc, term, bind)?)?;
    }
    Ok(Terms::from_vec(items))
}

/// Whether the instance of a term is `$true`.
pub fn is_truth_instance<S: LendsTerms>(term: &Term, bind: &S) -> bool
    ensures { result ≡ is_truth (instance (S.meaning bind.now) (tree_of term.now)) }
{
    match term {
        Term::Var(variable) => match bind.term(*variable) {
            Some(put) => put.is_truth(),
            None => false,
        },
        Term::App(_, _) => term.is_truth(),
    }
}

/// Whether the instance of a term stands at a place of the instance of another, each under its own binding.
pub fn stands_at<S: LendsTerms, T: LendsTerms>(
    term: &Term,
    bind: &S,
    host: &Term,
    host_bind: &T,
    place: &[u64],
) -> bool
    ensures { result ≡ unwrap_or (option_map
        (λ u. tree_eq u (instance (S.meaning bind.now) (tree_of term.now)))
        (subterm place.now (instance (T.meaning host_bind.now) (tree_of host.now)))) false }
{
    let mut found = host;
    let mut is_bound = false;
    for number in place {
        match argument_under(found, host_bind, is_bound, *number) {
            Some((next, next_is_bound)) => {
                found = next;
                is_bound = next_is_bound;
            }
            None => return false,
        }
    }
    if is_bound {
        is_instance(term, bind, found)
    } else {
        same_instance(found, host_bind, term, bind)
    }
}

/// The argument with that number, from 0, of a term under a binding, or of one that is bound already; and
/// whether the argument is bound already.
fn argument_under<'a, T: LendsTerms>(
    term: &'a Term,
    bind: &'a T,
    is_bound: bool,
    number: u64,
) -> Option<(&'a Term, bool)>
    ensures { option_map (λ found. under found.1 (T.meaning bind.entry.now) (tree_of found.0.now)) result
        ≡ argument number (under is_bound (T.meaning bind.entry.now) (tree_of term.entry.now)) }
{
    match term {
        Term::Var(variable) => {
            if is_bound {
                return None;
            }
            match bind.term(*variable) {
                Some(put) => match argument_at(put, number) {
                    Some(found) => Some((found, true)),
                    None => None,
                },
                None => None,
            }
        }
        Term::App(_, _) => match argument_at(term, number) {
            Some(found) => Some((found, is_bound)),
            None => None,
        },
    }
}

/// The instance of a term with the subterm at a place exchanged. None where the instance has no such place.
pub fn replaced_instance<T: LendsTerms>(
    alloc: Global,
    term: &Term,
    bind: &T,
    place: &[u64],
    new: Term,
) -> Mem<Option<Term>>
    ensures { IfOk result (λ made. option_map tree_of made
        ≡ replaced place.now (tree_of new) (instance (T.meaning bind.now) (tree_of term.now))) }
{
    replaced_under(alloc, term, bind, false, place, 0, new)
}

/// The replaced term for the part of the place from `depth` on, of a term under the binding or bound already.
fn replaced_under<T: LendsTerms>(
    alloc: Global,
    term: &Term,
    bind: &T,
    is_bound: bool,
    place: &[u64],
    depth: usize,
    new: Term,
) -> Mem<Option<Term>>
    requires { depth ≤ length place.now }
    ensures { IfOk result (λ made. option_map tree_of made
        ≡ replaced (drop depth place.now) (tree_of new) (under is_bound (T.meaning bind.now) (tree_of term.now))) }
{
    if depth == place.len() {
        return Ok(Some(new));
    }
    match term {
        Term::Var(variable) => {
            if is_bound {
                return Ok(None);
            }
            match bind.term(*variable) {
                Some(put) => replaced_under(alloc, put, bind, true, place, depth, new),
                None => Ok(None),
            }
        }
        Term::App(symbol, arguments) => {
            let index = place[depth] as usize;
            let items = arguments.as_slice();
            if index >= items.len() {
                return Ok(None);
            }
            match replaced_under(alloc, &items[index], bind, is_bound, place, depth + 1, new)? {
                Some(inner) => {
                    let made = with_item(alloc, items, bind, is_bound, index, inner)?;
                    Ok(Some(Term::App(*symbol, made)))
                }
                None => Ok(None),
            }
        }
    }
}

/// The terms under the binding, or bound already, with one of them exchanged.
fn with_item<T: LendsTerms>(
    alloc: Global,
    items: &[Term],
    bind: &T,
    is_bound: bool,
    index: usize,
    new: Term,
) -> Mem<Terms>
    requires { index < length items.now }
    ensures { IfOk result (λ made.
        made ≡ slice_set (map (λ item. under is_bound (T.meaning bind.now) (tree_of item)) items.now) index (tree_of new)) }
{
    let mut made = Vec::with_capacity(alloc, items.len())?;
    push_under(alloc, &mut made, &items[..index], bind, is_bound)?;
    made.push(new)?;
    push_under(alloc, &mut made, &items[index + 1..], bind, is_bound)?;
    Ok(Terms::from_vec(made))
}

/// Adds terms at the end, under the binding or bound already.
fn push_under<T: LendsTerms>(
    alloc: Global,
    made: &mut Vec<Term>,
    items: &[Term],
    bind: &T,
    is_bound: bool,
) -> Mem<()>
    ensures { IfOk result (λ _. map tree_of made.new.items
        ≡ map tree_of made.old.items ++ map (λ item. under is_bound (T.meaning bind.now) (tree_of item)) items.now) }
{
    for item in items {
        made.push(copied_under(alloc, item, bind, is_bound)?)?;
    }
    Ok(())
}

/// A term under the binding, or a copy of one that is bound already.
fn copied_under<T: LendsTerms>(alloc: Global, term: &Term, bind: &T, is_bound: bool) -> Mem<Term>
    ensures { IfOk result (λ made. tree_of made ≡ under is_bound (T.meaning bind.now) (tree_of term.now)) }
{
    if is_bound {
        term.copy(alloc)
    } else {
        instance(alloc, term, bind)
    }
}
