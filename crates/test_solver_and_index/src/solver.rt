// The solver: that the calls succeed, which answer comes, and that the solver learns, which no clause says.

use plain_types::{Mem, NameLit, Names};
use sat_core::*;
use std::alloc::Global;
use std::process::Abort;

/// A literal by its name, counted from one and negated below zero.
fn literal(number: i8) -> NameLit {
    NameLit {
        positive: number > 0,
        name: u32::from(number.unsigned_abs()).saturating_sub(1),
    }
}

fn clauses_of(rt: &impl Abort, alloc: Global, table: &[&[i8]]) -> PropClauses {
    let mut clauses = PropClauses::new(alloc);
    for numbers in table {
        let mut clause = Names::new(alloc);
        for number in numbers.iter() {
            clause.push(literal(*number)).expect(rt, "memory");
        }
        clauses.push(clause.as_slice()).expect(rt, "memory");
    }
    clauses
}

/// Whether the clauses are answered by a log. That the log or the model is right is the contract of `solve`.
fn is_refuted(rt: &impl Abort, alloc: Global, clauses: &PropClauses, names: u32) -> bool {
    assert!(rt; names_are_below(clauses, names));
    match solve(alloc, clauses, names).expect(rt, "memory") {
        Answer::Model(_) => false,
        Answer::Refuted(_) => true,
    }
}

/// Four pigeons, each in one of three holes, and no two in one. Each row of names is a pigeon's.
const PIGEONS: &[&[i8]] = &[
    &[1, 2, 3],
    &[4, 5, 6],
    &[7, 8, 9],
    &[10, 11, 12],
    &[-1, -4],
    &[-1, -7],
    &[-1, -10],
    &[-4, -7],
    &[-4, -10],
    &[-7, -10],
    &[-2, -5],
    &[-2, -8],
    &[-2, -11],
    &[-5, -8],
    &[-5, -11],
    &[-8, -11],
    &[-3, -6],
    &[-3, -9],
    &[-3, -12],
    &[-6, -9],
    &[-6, -12],
    &[-9, -12],
];

/// Clauses, how many names there are, and whether the clauses are refuted.
const ROWS: &[(&[&[i8]], u32, bool)] = &[
    (&[&[1, 2], &[-1], &[-2]], 2, true),
    (&[&[]], 0, true),
    (&[&[1, 1], &[-1, -1, -1]], 1, true),
    (&[&[1, 2], &[-1, 2], &[1, -2], &[-1, -2]], 5, true),
    (&[&[-1, 2], &[-2, 3], &[-3, -1], &[1]], 3, true),
    (PIGEONS, 12, true),
    (&[&[1, 2]], 2, false),
    (&[], 2, false),
    (&[&[1, -1], &[2, -2, 2], &[-2]], 3, false),
    (&[&[1, 2, 3], &[-1, 2, 3], &[-2, 3], &[-3, 4]], 4, false),
];

#[test]
fn rows_are_answered(rt: HostRuntime) {
    let alloc = rt.alloc();
    for (index, (table, names, answer)) in ROWS.iter().enumerate() {
        let clauses = clauses_of(&rt, alloc, table);
        let refuted = is_refuted(&rt, alloc, &clauses, *names);
        assert!(rt; refuted == *answer, "row {index}");
    }
}

fn yes(name: u32) -> NameLit {
    let positive = true;
    NameLit { positive, name }
}

fn no(name: u32) -> NameLit {
    let positive = false;
    NameLit { positive, name }
}

/// None of three names is true, or two are.
fn push_triple(clauses: &mut PropClauses, x: u32, y: u32, z: u32) -> Mem<()> {
    clauses.push(&[no(x), yes(y), yes(z)])?;
    clauses.push(&[yes(x), no(y), yes(z)])?;
    clauses.push(&[yes(x), yes(y), no(z)])?;
    clauses.push(&[no(x), no(y), no(z)])
}

// A solver that takes the names in rising or falling order and only flips its latest decision goes through 2^40
// branches here.
#[test]
fn learns_from_the_triples(rt: HostRuntime) {
    let alloc = rt.alloc();
    let mut clauses = PropClauses::new(alloc);
    for i in 0..20u32 {
        for x in [3 * i, 3 * i + 62] {
            push_triple(&mut clauses, x, x + 1, x + 2).expect(&rt, "memory");
        }
    }
    for both in [
        [yes(60), yes(61)],
        [no(60), yes(61)],
        [yes(60), no(61)],
        [no(60), no(61)],
    ] {
        clauses.push(&both).expect(&rt, "memory");
    }
    assert_eq!(rt; clauses.len(), 164);
    assert!(rt; is_refuted(&rt, alloc, &clauses, 122));
}
