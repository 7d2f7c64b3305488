// The comparisons on rows worked out by hand. Symbols rise as their letters.

use fol_base::{Clause, Literal};
use kbo_order::*;
use sample::clause;
use std::process::Abort;

/// The first literal of a clause.
fn first<'a>(rt: &impl Abort, clause: &'a Clause) -> &'a Literal {
    clause.literals.as_slice().first().expect(rt, "a literal")
}

/// The rows are equations, and how the left side compares with the right one.
#[test]
fn terms_are_compared(rt: HostRuntime) {
    let rows = [
        ("f(X0) = X0", Cmp::Greater),
        ("X0 = f(X0)", Cmp::Less),
        ("f(X0) = f(X1)", Cmp::Unordered),
        ("X0 = a", Cmp::Unordered),
        ("g(a) = f(a)", Cmp::Greater),
        ("f(a,b) = f(b,a)", Cmp::Less),
        ("f(b,a) = f(a,b)", Cmp::Greater),
        ("f(a) = b", Cmp::Greater),
        ("f(g(X0),X1) = f(g(X1),X0)", Cmp::Unordered),
        ("f(g(X0),X1) = f(g(X0),X1)", Cmp::Equal),
    ];
    for (text, answer) in rows {
        let read = clause(rt.alloc(), text).expect(&rt, "memory");
        let equation = first(&rt, &read);
        assert!(rt; equation.left.size() < COMPARED_SIZE_LIMIT);
        assert!(rt; equation.right.size() < COMPARED_SIZE_LIMIT);
        assert!(rt;
            compare(&equation.left, &equation.right) == answer,
            "{text}"
        );
    }
}

/// The rows are clauses, and how the left one compares with the right one. Where both have one literal, these compare in the same way.
#[test]
fn clauses_are_compared(rt: HostRuntime) {
    let rows = [
        ("f(a) = b", "f(a) != b", Cmp::Less),
        ("f(a) = b", "b = f(a)", Cmp::Equal),
        ("f(a) = b", "a != b", Cmp::Greater),
        ("f(X0) = a", "f(X1) = a", Cmp::Unordered),
        ("p(a)", "p(a) | q(a)", Cmp::Less),
        ("p(a) | q(a)", "q(a) | p(a)", Cmp::Equal),
        ("p(a) | p(a)", "p(a) | q(a)", Cmp::Less),
    ];
    for (left, right, answer) in rows {
        let left = clause(rt.alloc(), left).expect(&rt, "memory");
        let right = clause(rt.alloc(), right).expect(&rt, "memory");
        assert!(rt; left.size() < COMPARED_SIZE_LIMIT);
        assert!(rt; right.size() < COMPARED_SIZE_LIMIT);
        assert!(rt; compare_clauses(&left.literals, &right.literals.as_slice()) == answer);
        let (one, other) = (first(&rt, &left), first(&rt, &right));
        assert!(rt; one.size() < COMPARED_SIZE_LIMIT);
        assert!(rt; other.size() < COMPARED_SIZE_LIMIT);
        if left.literals.len() == 1 && right.literals.len() == 1 {
            assert!(rt; compare_literals(one.lend(), other.lend()) == answer);
        }
    }
}
