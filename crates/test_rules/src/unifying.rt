// A unifier of two terms with their variables apart, as it was worked out by hand. Which pairs have one, which have a matcher, and how large an instance is,
// is said by contracts and by worked examples in `unifier`.

use fol_base::{Subst, Term, same_term};
use sample::{binary, constant};
use std::alloc::Global;
use std::process::Abort;
use unifier::{Bindings, unify};

const A: u32 = 1;

const B: u32 = 2;

const F: u32 = 6;

/// `f(X0,b)` and `f(a,X0)`.
fn sides(rt: &impl Abort, alloc: Global) -> (Term, Term) {
    let left = binary(alloc, F, Term::Var(0), constant(alloc, B));
    let right = binary(alloc, F, constant(alloc, A), Term::Var(0));
    (left.expect(rt, "memory"), right.expect(rt, "memory"))
}

/// Whether this is the term for the first variable.
fn stands_first(rt: &impl Abort, terms: &Subst, wanted: &Term) -> bool {
    same_term(terms.as_slice().first().expect(rt, "a term"), wanted)
}

/// Whether a unifier puts these constants for the variables of its sides.
fn puts(rt: &impl Abort, alloc: Global, found: &Bindings, left: u32, right: u32) -> bool {
    assert!(rt; found.fits(1, 1));
    let (one, other) = found.substs(1, 1).expect(rt, "memory");
    stands_first(rt, &one, &constant(alloc, left))
        && stands_first(rt, &other, &constant(alloc, right))
}

/// Apart, the left variable is `a` and the right one `b`.
#[test]
fn a_unifier_names_terms(rt: HostRuntime) {
    let alloc = rt.alloc();
    let (left, right) = sides(&rt, alloc);
    let found = unify(alloc, &left, &right, true).expect(&rt, "memory");
    assert!(rt; puts(&rt, alloc, &found.expect(&rt, "a unifier"), A, B));
}
