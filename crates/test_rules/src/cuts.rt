// Literals that go, on clauses worked out by hand.

use crate::samples::{member_of, members};
use fol_base::{Clause, same_clause};
use kernel_steps::{Reduced, Step};
use sample::clause;
use std::alloc::Global;
use std::process::Abort;
use std::sync::Wait;
use term_bank::Bank;
use unit_cutting::{cut_unit, cuts, cuttable};

/// The number of the unit.
const UNIT: u32 = 3;

/// Whether a clause was cut to another one, by a superposition and an equality resolution that use the unit alone.
fn is_cut_to(reduced: &Reduced, wanted: &Clause) -> bool {
    let lines = reduced.lines.as_slice();
    lines.len() == 2
        && matches!(&lines[0].step, Step::Para { .. })
        && matches!(&lines[1].step, Step::Refl { .. })
        && reduced.used.as_slice() == [u64::from(UNIT)].as_slice()
        && same_clause(&reduced.clause, wanted)
}

/// The clause that the unit of a text cuts a clause to; None where it isn't cut.
fn cut<R: Wait + Abort>(rt: &R, alloc: Global, unit: &str, given: &Clause) -> Option<Reduced> {
    let (bank, mut table) = Bank::new(alloc).expect(rt, "memory");
    let unit = member_of(rt, alloc, &bank, &mut table, UNIT, unit);
    cut_unit(alloc, &bank, &unit, given).expect(rt, "memory")
}

/// A unit, a clause, and what the clause is cut to; the clause itself where it isn't cut.
type Row = (&'static str, &'static str, &'static str);

const CUTS: &[Row] = &[
    ("~p(X0)", "p(a) | r", "r"),
    ("~p(X0)", "p(a) | ~p(a)", "~p(a)"),
    ("p(X0)", "r | ~p(f(X0))", "r"),
    ("a != b", "b = a | r", "r"),
    ("~p(X0)", "~p(a)", "~p(a)"),
    ("~p(a)", "p(X0)", "p(X0)"),
    // An equation of `$true` with itself isn't cut.
    ("~$", "$", "$"),
];

/// Whether the unit of a row cuts the clause as it says.
fn cuts_as_told<R: Wait + Abort>(rt: &R, alloc: Global, row: &Row) -> bool {
    let (unit, given, wanted) = row;
    let given = clause(alloc, given).expect(rt, "memory");
    let wanted = clause(alloc, wanted).expect(rt, "memory");
    match cut(rt, alloc, unit, &given) {
        Some(reduced) => is_cut_to(&reduced, &wanted),
        None => same_clause(&given, &wanted),
    }
}

#[test]
fn units_cut_literals(rt: HostRuntime) {
    for (index, row) in CUTS.iter().enumerate() {
        assert!(rt; cuts_as_told(&rt, rt.alloc(), row), "row {index}");
    }
}

/// The numbers of the clauses of a text that its first clause cuts.
#[test]
fn a_unit_cuts_members(rt: HostRuntime) {
    let alloc = rt.alloc();
    let (bank, mut table) = Bank::new(alloc).expect(&rt, "memory");
    let text = "~p(X0);p(a) | r;q(a);~p(a) | p(b)";
    let members = members(&rt, alloc, &bank, &mut table, text);
    let by = members.as_slice().first().expect(&rt, "a unit");
    let found = cuttable(alloc, &bank, by, &members).expect(&rt, "memory");
    assert!(rt; found.as_slice() == [1, 3].as_slice());
    let itself = cuts(alloc, &bank, by, &by.clause).expect(&rt, "memory");
    assert!(rt; !itself);
}
