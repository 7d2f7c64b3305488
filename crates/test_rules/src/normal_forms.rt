// Units, what they rewrite, and normal forms, on clauses worked out by hand. Letters rise in the order.

ghost use Rattle.rewriting.specs.Units.{AreClausesOf};

use crate::samples::{equations, members};
use demodulate::normal_form;
use fol_base::{Clause, MOST_SYMBOLS, is_canonical, same_clause};
use kernel_steps::Reduced;
use rewriting::{Units, is_unit, rewritable};
use sample::clause;
use std::alloc::Global;
use std::process::Abort;
use std::sync::Wait;
use term_bank::Bank;

/// The normal form of a clause by units.
fn normal_by(rt: &impl Abort, alloc: Global, bank: &Bank, units: &Units, given: &Clause) -> Reduced
    requires { AreClausesOf bank.now units.now }
{
    assert!(rt; given.names.is_empty());
    assert!(rt; is_canonical(given));
    assert!(rt; given.size() <= MOST_SYMBOLS);
    normal_form(alloc, bank, given, units, None).expect(rt, "memory")
}

/// The normal form of a clause by the units of a text.
fn normal<R: Wait + Abort>(rt: &R, alloc: Global, text: &str, given: &Clause) -> Reduced {
    let (bank, mut table) = Bank::new(alloc).expect(rt, "memory");
    let members = members(rt, alloc, &bank, &mut table, text);
    let units = equations(rt, alloc, &bank, members.as_slice());
    normal_by(rt, alloc, &bank, &units, given)
}

/// Units, a clause, its normal form, and the numbers of the units that are used.
type Row = (&'static str, &'static str, &'static str, &'static [u64]);

const ROWS: &[Row] = &[
    ("a = b;f(a) = c", "f(b) != c", "c != c", &[0, 1]),
    // At the root of a side of an equation what is put in has to be smaller than the other side.
    ("f(a) = b", "f(a) = c", "b = c", &[0]),
    ("f(a) = c", "f(a) = b", "f(a) = b", &[]),
    // Variables are matched, and numbered anew by the result.
    ("f(X0,X1) = X1", "p(f(X0,g(X1)))", "p(g(X0))", &[0]),
    // A side with a variable of its own rewrites nothing, nor does a greater term.
    ("f(X0) = X1", "p(f(a))", "p(f(a))", &[]),
    (
        "f(X0,X1) = f(X1,X0)",
        "p(f(a,b)) | p(f(b,a))",
        "p(f(a,b)) | p(f(a,b))",
        &[0],
    ),
    // A variable doesn't stand for an atom.
    ("X0 = a", "p(b)", "p(a)", &[0]),
];

/// Whether a clause has its normal form by the units that are used, and at least as many lines as these.
fn has_normal_form<R: Wait + Abort>(rt: &R, alloc: Global, row: &Row) -> bool {
    let (units, given, wanted, used) = row;
    let given = clause(alloc, given).expect(rt, "memory");
    let wanted = clause(alloc, wanted).expect(rt, "memory");
    let made = normal(rt, alloc, units, &given);
    same_clause(&made.clause, &wanted)
        && made.used.as_slice() == *used
        && made.lines.len() >= used.len()
}

#[test]
fn clauses_have_normal_forms(rt: HostRuntime) {
    for (index, row) in ROWS.iter().enumerate() {
        assert!(rt; has_normal_form(&rt, rt.alloc(), row), "row {index}");
    }
}

/// The numbers of the clauses of a text that its first clause rewrites.
fn rewritten<R: Wait + Abort>(rt: &R, alloc: Global, text: &str) -> Vec<u64> {
    let (bank, mut table) = Bank::new(alloc).expect(rt, "memory");
    let members = members(rt, alloc, &bank, &mut table, text);
    let by = members.as_slice().first().expect(rt, "a unit");
    assert!(rt; is_unit(&by.clause));
    rewritable(alloc, &bank, by, &members)
        .expect(rt, "memory")
        .into_vec()
}

#[test]
fn a_unit_rewrites_members(rt: HostRuntime) {
    let alloc = rt.alloc();
    for (text, wanted) in [
        ("f(a) = b;g(f(a)) = c;g(b) = c", [1].as_slice()),
        ("f(a) = b;f(f(a)) = a;g(f(a)) = c", [1, 2].as_slice()),
    ] {
        let found = rewritten(&rt, alloc, text);
        assert!(rt; found.as_slice() == wanted, "{text}");
    }
}
