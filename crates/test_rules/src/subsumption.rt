// Subsumption, on clauses worked out by hand.

use crate::samples::member_of;
use sample::clause;
use std::alloc::Global;
use std::process::Abort;
use std::sync::Wait;
use subsume::{features, subsumes};
use term_bank::Bank;

/// Whether the clause of the first text subsumes that of the second.
fn does_subsume<R: Wait + Abort>(rt: &R, alloc: Global, general: &str, special: &str) -> bool {
    let special = clause(alloc, special).expect(rt, "memory");
    let (bank, mut table) = Bank::new(alloc).expect(rt, "memory");
    let general = member_of(rt, alloc, &bank, &mut table, 0, general);
    let found = subsumes(alloc, &bank, &general.clause, &special).expect(rt, "memory");
    found.is_some()
}

const PAIRS: &[(&str, &str, bool)] = &[
    ("p(X0) | q(X0)", "q(a) | p(a) | r", true),
    ("p(X0) | q(X0)", "q(a) | p(b)", false),
    ("p(X0) | q(X0)", "p(a)", false),
    // Literals are mapped to different ones, signs stay, and equations are mapped either way, but to no atom.
    ("p(X0) | p(X1)", "p(a)", false),
    ("p(X0)", "~p(a)", false),
    ("f(X0) = a", "a = f(b)", true),
    ("X0 = X1", "a = f(b)", true),
    ("X0 = X1", "p(a)", false),
    // Wide clauses: the literal that says it alone is looked at first, and one too many for their places is told without each order of them.
    (
        "p(X0) | p(X1) | p(X2) | p(X3) | p(X4) | p(X5) | p(X6) | p(X7) | p(X8) | p(X9) | q(X9)",
        "p(a) | p(b) | p(c) | p(d) | p(e) | p(f) | p(g) | p(h) | p(i) | p(j) | p(k) | p(l) | p(m) | q(o)",
        false,
    ),
    (
        "p(X0) | p(X1) | p(X2) | p(X3) | p(X4) | p(X5) | p(X6) | p(X7) | p(X8) | p(X9) | q(X9)",
        "p(a) | p(b) | p(c) | p(d) | p(e) | p(f) | p(g) | p(h) | p(i) | p(j) | p(k) | p(l) | p(m) | q(a)",
        true,
    ),
    (
        "p(f(X0)) | p(f(X1)) | p(f(X2)) | p(f(X3)) | p(f(X4)) | p(f(X5)) | p(f(X6)) | p(f(X7)) | p(f(X8)) | p(f(X9)) | p(f(a)) | p(f(a)) | p(f(a)) | p(f(a))",
        "p(f(a)) | p(f(a)) | p(f(a)) | p(f(a)) | p(f(a)) | p(f(a)) | p(f(a)) | p(f(a)) | p(f(a)) | p(f(a)) | p(f(a)) | p(f(a)) | p(f(a)) | p(a)",
        false,
    ),
];

#[test]
fn clauses_subsume(rt: HostRuntime) {
    for (index, (general, special, wanted)) in PAIRS.iter().enumerate() {
        let found = does_subsume(&rt, rt.alloc(), general, special);
        assert!(rt; found == *wanted, "row {index}");
    }
}

#[test]
fn features_count_literals_and_symbols(rt: HostRuntime) {
    let alloc = rt.alloc();
    let (bank, mut table) = Bank::new(alloc).expect(&rt, "memory");
    let given = member_of(&rt, alloc, &bank, &mut table, 0, "p(f(a)) | q(b) | a != b");
    let found = features(alloc, &bank, &given.clause).expect(&rt, "memory");
    assert!(rt; found.as_slice() == [2, 1, 7, 2].as_slice());
}
