// Terms that are interned by one thread.

ghost use Rattle.term_bank.specs.Table.{IsTableOf};

use fol_base::{Term, same_term};
use sample::{constant, unary};
use std::alloc::Global;
use std::process::Abort;
use std::sync::Wait;
use term_bank::{Bank, Table};

const A: u32 = 1;

const F: u32 = 2;

const G: u32 = 3;

/// The number of a term, whose reference lends the term.
fn number_of<R: Wait + Abort>(
    rt: &R,
    alloc: Global,
    bank: &Bank,
    table: &mut Table,
    term: &Term,
) -> u64
    requires { IsTableOf bank.now table.old }
    ensures { IsTableOf bank.now table.new }
{
    let found = bank.intern(rt, alloc, table, term).expect(rt, "memory");
    assert!(rt; same_term(bank.tree(&found), term));
    found.number()
}

/// The number of a term that is handed over.
fn number_of_owned<R: Wait + Abort>(
    rt: &R,
    alloc: Global,
    bank: &Bank,
    table: &mut Table,
    term: Term,
) -> u64
    requires { IsTableOf bank.now table.old }
{
    let found = bank
        .intern_owned(rt, alloc, table, term)
        .expect(rt, "memory");
    found.number()
}

/// The number of a term by a table of its own.
fn number_beside<R: Wait + Abort>(rt: &R, alloc: Global, bank: &Bank, term: &Term) -> u64 {
    let mut table = bank.empty_table(alloc);
    number_of(rt, alloc, bank, &mut table, term)
}

/// Whether `f(a)`, lent and later handed over, has one number, and `g(a)` another one, and a third one by another table.
fn numbers_stay<R: Wait + Abort>(rt: &R, alloc: Global, bank: &Bank, table: &mut Table) -> bool
    requires { IsTableOf bank.now table.old }
{
    let f_of_a = unary(alloc, F, constant(alloc, A)).expect(rt, "memory");
    let g_of_a = unary(alloc, G, constant(alloc, A)).expect(rt, "memory");
    let first = number_of(rt, alloc, bank, table, &f_of_a);
    let second = number_of(rt, alloc, bank, table, &g_of_a);
    let third = number_beside(rt, alloc, bank, &g_of_a);
    let again = number_of_owned(rt, alloc, bank, table, f_of_a);
    first == again && first != second && second != third
}

#[test]
fn known_terms_keep_their_numbers(rt: HostRuntime) {
    let alloc = rt.alloc();
    let (bank, mut table) = Bank::new(alloc).expect(&rt, "memory");
    assert!(rt; numbers_stay(&rt, alloc, &bank, &mut table));
}
