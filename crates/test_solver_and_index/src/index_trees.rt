// The index of terms, on rows worked out by hand.

ghost use Rattle.std.specs.Prelude.{◌≡◌, ◌<◌};

use disc_tree::*;
use fol_base::Term;
use plain_types::{Mem, Numbers};
use sample::{Random, clause, random_terms};
use std::alloc::Global;
use std::marker::Brand;
use std::process::Abort;
use std::sync::ledger::{Blank, Ledger};

/// A tree of the atoms of a text, numbered from 0.
fn tree_of(rt: &impl Abort, alloc: Global, text: &str) -> DiscTree {
    let mut tree = DiscTree::new(alloc).expect(rt, "memory");
    let read = clause(alloc, text).expect(rt, "memory");
    for (index, literal) in read.literals.as_slice().iter().enumerate() {
        tree.insert(&literal.left, index as u64)
            .expect(rt, "memory");
    }
    tree
}

const ENTRIES: &str = "f(X0,a) | f(b,X0) | g(a) | f(X0)";

/// A query, the entries that unify with it, its generalisations and its instances.
const QUERIES: &[(&str, &[u64], &[u64], &[u64])] = &[
    ("f(b,a)", &[0, 1], &[0, 1], &[]),
    ("f(X0,X1)", &[0, 1], &[], &[0, 1]),
    ("X0", &[0, 1, 2, 3], &[], &[0, 1, 2, 3]),
    // A symbol with more arguments is another one.
    ("f(b)", &[3], &[3], &[]),
];

/// In whatever order they are found.
fn alike(rt: &impl Abort, numbers: Mem<Numbers>, wanted: &[u64]) -> bool {
    let mut found = numbers.expect(rt, "memory").into_vec();
    found.sort().expect(rt, "memory");
    found.as_slice() == wanted
}

#[test]
fn queries_find_entries(rt: HostRuntime) {
    let tree = tree_of(&rt, rt.alloc(), ENTRIES);
    for (text, unifiable, generalisations, instances) in QUERIES {
        let read = clause(rt.alloc(), text).expect(&rt, "memory");
        let query = &read.literals.as_slice().first().expect(&rt, "a term").left;
        assert!(rt; alike(&rt, tree.unifiable(query), unifiable), "{text}");
        assert!(rt;
            alike(&rt, tree.generalisations(query), generalisations),
            "{text}"
        );
        assert!(rt; alike(&rt, tree.instances(query), instances), "{text}");
    }
}

/// How many symbols the last star of the entry with a number stands for, if the entry may be a generalisation of `f(b,a)`.
fn star_of(rt: &impl Abort, alloc: Global, number: u64) -> Option<u64> {
    let tree = tree_of(rt, alloc, ENTRIES);
    let read = clause(alloc, "f(b,a)").expect(rt, "memory");
    let query = &read.literals.as_slice().first().expect(rt, "a term").left;
    let found = tree.first_generalisation(query, |entry| match entry.stars {
        Stars::More(term, _) if entry.number == number => Ok(Some(term.size())),
        _ => Ok(None),
    });
    found.expect(rt, "memory")
}

#[test]
fn a_test_is_asked_of_generalisations(rt: HostRuntime) {
    assert!(rt; star_of(&rt, rt.alloc(), 1) == Some(1));
    // `g(a)` is none.
    assert!(rt; star_of(&rt, rt.alloc(), 2).is_none());
}

/// Whether both counted calls find the first two entries with `f(b,a)`.
fn counted_calls_agree<L: Ledger>(rt: &impl Abort, alloc: Global, blank: Blank) -> bool
    requires name { blank.name ≡ L.name }
    requires parts { blank.parts ≡ L.parts }
    requires some { 0 < blank.parts }
{
    let tree = tree_of(rt, alloc, ENTRIES);
    let read = clause(alloc, "f(b,a)").expect(rt, "memory");
    let query = &read.literals.as_slice().first().expect(rt, "a term").left;
    let mut steps = Steps::<L>::new(blank);
    alike(rt, tree.unifiable_counted(query, &mut steps), &[0, 1])
        && alike(rt, tree.generalisations_counted(query, &mut steps), &[0, 1])
}

#[test]
fn counted_calls_find_the_same_entries(rt: HostRuntime) {
    assert!(rt; counted_calls_agree::<Brand>(&rt, rt.alloc(), Blank::new(1)));
}

/// An entry is removed once.
#[test]
fn an_entry_is_removed(rt: HostRuntime) {
    let mut tree = tree_of(&rt, rt.alloc(), ENTRIES);
    let read = clause(rt.alloc(), "g(a)").expect(&rt, "memory");
    let entry = &read.literals.as_slice().first().expect(&rt, "a term").left;
    for is_there in [true, false] {
        assert!(rt; tree.remove(entry, 2) == is_there);
    }
}

/// Run with an allocation made to fail, it goes on after the insertion that is refused: a query finds what was inserted.
#[test]
fn a_refused_insertion_changes_nothing(rt: HostRuntime) {
    let alloc = rt.alloc();
    let terms = random_terms(alloc, &mut Random::new(1), 12).expect(&rt, "memory");
    let mut tree = DiscTree::new(alloc).expect(&rt, "memory");
    let mut numbers = Vec::new(alloc);
    for (index, term) in terms.iter().enumerate() {
        assert!(rt; is_compatible(term, &Term::Var(0), false, true));
        if tree.insert(term, index as u64).is_ok() {
            numbers.push(index as u64).expect(&rt, "memory");
        }
        assert!(rt; alike(&rt, tree.unifiable(&Term::Var(0)), numbers.as_slice()));
    }
}
