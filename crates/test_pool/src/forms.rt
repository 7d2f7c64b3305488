// The calls of which a clausal form is made, each by itself. Which clauses a formula has, and which forms are refused, is shown by rows through real
// files, in .ci/forms and .ci/rows.

use crate::inputs::problem_of;
use formula_nnf::{Nnf, clause_count, expanded, nnf};
use signature::{Signature, SymbolKind, SymbolRef};
use std::alloc::Global;
use std::process::Abort;
use tptp_tree::Formula;

fn predicate(name: &[u8], arity: u32) -> SymbolRef<'_> {
    SymbolRef {
        kind: SymbolKind::Predicate,
        name,
        arity,
    }
}

/// Whether there are four symbols, of which q is the one before the last and a the last, and q has one argument alone.
fn has_numbers(rt: &impl Abort, alloc: Global, signature: &Signature) -> bool {
    let known = predicate(b"q", 1).copy(alloc).expect(rt, "memory");
    signature.len() == 4
        && signature.symbol(3).name.as_slice() == b"a".as_slice()
        && signature.number(&known) == Some(2)
        && signature.find(predicate(b"q", 2)).is_none()
}

/// The number that a new symbol gets.
fn number_added(rt: &impl Abort, alloc: Global, signature: &mut Signature) -> u32 {
    let new = predicate(b"r", 0);
    assert!(rt; signature.find(new).is_none());
    let added = new.copy(alloc).expect(rt, "memory");
    signature.add(added).expect(rt, "memory")
}

/// `$true`, p, q and a in the order of their first occurrences; and no other number of arguments.
#[test]
fn symbols_have_numbers(rt: HostRuntime) {
    let alloc = rt.alloc();
    let text = b"fof(a,axiom,![X]:(p(X)=>q(X))).fof(b,axiom,p(a)).fof(c,conjecture,q(a)).";
    let problem = problem_of(&rt, alloc, text);
    let mut signature = Signature::of_problem(alloc, &problem).expect(&rt, "memory");
    assert!(rt; has_numbers(&rt, alloc, &signature));
    assert!(rt; number_added(&rt, alloc, &mut signature) == 4);
}

/// Whether a formula is written out with four atoms, in two clauses.
fn is_written_out(rt: &impl Abort, alloc: Global, formula: &Formula) -> bool {
    let form = nnf(alloc, formula, true).expect(rt, "memory");
    expanded(formula) == 4
        && clause_count(formula, true) == 2
        && matches!(&form, Nnf::And(parts) if parts.as_slice().len() == 2)
}

#[test]
fn an_equivalence_is_written_out(rt: HostRuntime) {
    let alloc = rt.alloc();
    let problem = problem_of(&rt, alloc, b"fof(a,axiom,p<=>q).");
    let first = problem.formulas.as_slice().first().expect(&rt, "a formula");
    assert!(rt; is_written_out(&rt, alloc, &first.formula));
}
