// Terms that are put in, and variables that are numbered anew, on rows worked out by hand.

use fol_base::*;
use sample::{atom, clause, constant, unary};

const A: u32 = 1;

const B: u32 = 2;

const F: u32 = 6;

/// `f(X0)` with `a` for its variable is `f(a)`, and that one with `b` at its first argument is `f(b)`.
#[test]
fn terms_are_put_in(rt: HostRuntime) {
    let alloc = rt.alloc();
    let mut subst = Subst::new(alloc);
    subst.push(constant(alloc, A)).expect(&rt, "memory");
    let pattern = unary(alloc, F, Term::Var(0)).expect(&rt, "memory");
    assert!(rt; subst.len() == 1);
    assert!(rt; pattern.variable_bound() <= 1);
    let made = apply(alloc, &subst, &pattern).expect(&rt, "memory");
    let wanted = unary(alloc, F, constant(alloc, A)).expect(&rt, "memory");
    assert!(rt; same_term(&made, &wanted));
    let literal = atom(alloc, pattern);
    assert!(rt; literal.variable_bound() <= 1);
    let bound = apply_literal(alloc, &subst, &literal).expect(&rt, "memory");
    assert!(rt; same_term(&bound.left, &wanted));
    let place = Position::from_slice(alloc, &[0]).expect(&rt, "memory");
    let replaced = replace_at(alloc, &made, &place, &constant(alloc, B)).expect(&rt, "memory");
    let wanted = unary(alloc, F, constant(alloc, B)).expect(&rt, "memory");
    assert!(rt; replaced.is_some_and(|made| same_term(&made, &wanted)));
}

/// A renaming stands for each number up to the highest one, also for those that don't occur.
#[test]
fn clauses_are_renamed(rt: HostRuntime) {
    let alloc = rt.alloc();
    let read = clause(alloc, "p(X3) | q(X1,X3)").expect(&rt, "memory");
    let wanted = clause(alloc, "p(X0) | q(X1,X0)").expect(&rt, "memory");
    let (made, renaming) = canonical(alloc, &read).expect(&rt, "memory");
    assert!(rt; same_clause(&made, &wanted));
    assert!(rt; renaming.len() == 4);
    assert!(rt; read.variable_bound() <= 4);
    let applied = apply_clause(alloc, &renaming, &read).expect(&rt, "memory");
    assert!(rt; same_clause(&applied, &wanted));
}
