// The conclusions of small clauses, worked out by hand. Large ones are shown by searches, in .ci/searches.

use crate::samples::member_of;
use eq_rules::{Inference, Inferences, Made, factorings, resolutions};
use fol_base::{Clause, same_clause};
use literal_selection::Selection;
use sample::clauses;
use std::alloc::Global;
use std::process::Abort;
use std::sync::Wait;
use superpose::{between, within};
use term_bank::Bank;

/// Whether the inference has this conclusion.
fn concludes(found: &Inference, wanted: &Clause) -> bool {
    match &found.result {
        Made::Conclusion(_, clause) => same_clause(clause, wanted),
        Made::Heavy => false,
    }
}

/// Whether there are as many inferences as clauses, and each of these is the conclusion of one.
fn conclude(rt: &impl Abort, alloc: Global, found: &Inferences, wanted: &str) -> bool {
    let wanted = clauses(alloc, wanted).expect(rt, "memory");
    let found = found.as_slice();
    found.len() == wanted.len()
        && wanted.as_slice().iter().all(|clause| found
            .iter()
            .any(|inference| concludes(inference, clause)))
}

/// The superpositions between the clauses of two texts, which have the numbers 0 and 1.
fn found_between<R: Wait + Abort>(rt: &R, alloc: Global, first: &str, second: &str) -> Inferences {
    let (bank, mut table) = Bank::new(alloc).expect(rt, "memory");
    let first = member_of(rt, alloc, &bank, &mut table, 0, first);
    let second = member_of(rt, alloc, &bank, &mut table, 1, second);
    assert!(rt; first.number != second.number);
    between(alloc, &bank, &first, &second, Selection::Negative).expect(rt, "memory")
}

/// Two clauses, and the conclusions of the superpositions between them, where the first negative literal of greatest size is chosen. f, g are
/// functions and a to c constants; p, q, r are predicates. The later letter is greater.
const BETWEEN: &[(&str, &str, &str)] = &[
    ("p(a)", "~p(X0) | q(X0)", "~$ | q(a)"),
    ("p(X0)", "~q(X0)", ""),
    // Nothing is entered below a variable, and the copies' variables are different ones.
    ("f(a) = b", "~p(X0)", ""),
    ("f(X0) = X0", "~p(f(X0))", "~p(X0)"),
    // The root is entered, and places below it.
    ("f(a) = b", "g(f(a)) = c", "g(b) = c"),
    ("f(a) = b", "f(a) = c", "b = c;c = b"),
    ("f(a) = b", "f(a) = b", ""),
    // The lesser side neither starts nor is entered.
    ("f(b) = a", "~p(a)", ""),
    // A chosen literal shuts out the others, in either premise.
    ("p(a) | ~q(a)", "~p(X0)", ""),
    ("p(a)", "~q(f(X0)) | ~p(X0)", ""),
    // Sides that can't be compared both start, where what is put in is smaller.
    ("f(X0,X1) = f(X1,X0)", "~p(f(b,a))", "~p(f(a,b));~p(f(a,b))"),
    ("f(X0,X1) = f(X1,X0)", "~p(f(a,b))", ""),
];

#[test]
fn two_clauses_conclude(rt: HostRuntime) {
    for (index, (first, second, wanted)) in BETWEEN.iter().enumerate() {
        let found = found_between(&rt, rt.alloc(), first, second);
        assert!(rt; conclude(&rt, rt.alloc(), &found, wanted), "row {index}");
    }
}

/// The number of a clause that meets no other.
const GIVEN: u32 = 3;

/// The rules on one clause.
#[derive(Clone, Copy)]
enum Alone {
    Within(Selection),
    Resolve,
    Factor(Selection),
}

fn found_alone<R: Wait + Abort>(rt: &R, alloc: Global, rule: Alone, given: &str) -> Inferences {
    let (bank, mut table) = Bank::new(alloc).expect(rt, "memory");
    let given = member_of(rt, alloc, &bank, &mut table, GIVEN, given);
    let found = match rule {
        Alone::Within(mode) => within(alloc, &bank, &given, mode),
        Alone::Resolve => resolutions(alloc, &bank, &given, Selection::Negative),
        Alone::Factor(mode) => factorings(alloc, &bank, &given, mode),
    };
    found.expect(rt, "memory")
}

const ALONE: &[(Alone, &str, &str)] = &[
    (Alone::Within(Selection::Negative), "p(a)", ""),
    (
        Alone::Within(Selection::Negative),
        "f(f(X0)) = X0",
        "f(X0) = f(X0)",
    ),
    (Alone::Resolve, "X0 != a | p(X0)", "p(a)"),
    (Alone::Resolve, "a != b", ""),
    (Alone::Resolve, "X0 != f(X0)", ""),
    (
        Alone::Factor(Selection::Nothing),
        "p(X0) | p(a)",
        "~$ | p(a);p(a) | ~$",
    ),
    (
        Alone::Factor(Selection::Negative),
        "p(X0) | p(a) | ~q(a)",
        "",
    ),
    (Alone::Factor(Selection::Nothing), "p(a) | q(a)", ""),
];

#[test]
fn one_clause_concludes(rt: HostRuntime) {
    for (index, (rule, given, wanted)) in ALONE.iter().enumerate() {
        let found = found_alone(&rt, rt.alloc(), *rule, given);
        assert!(rt; conclude(&rt, rt.alloc(), &found, wanted), "row {index}");
    }
}
