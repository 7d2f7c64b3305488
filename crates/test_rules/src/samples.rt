// Members and sets of them, for the other tests.

ghost use Rattle.term_bank.specs.Table.{IsTableOf};
ghost use Rattle.bank_clause.specs.Clause.{AreMembersOf, IsMemberOf};
ghost use Rattle.rewriting.specs.Units.{AreClausesOf};

use bank_clause::{BankClause, Member, Members};
use fol_base::{Clause, SIZE_LIMIT, is_canonical};
use rewriting::{Units, is_unit};
use sample::{clause, clauses};
use std::alloc::Global;
use std::process::Abort;
use std::sync::Wait;
use subsume::Subsumers;
use term_bank::{Bank, Table};

/// A clause as a member. It has to be one.
pub(crate) fn member<R: Wait + Abort>(
    rt: &R,
    alloc: Global,
    bank: &Bank,
    table: &mut Table,
    number: u32,
    clause: &Clause,
) -> Member
    requires { IsTableOf bank.now table.old }
    ensures made { IsMemberOf bank.now result }
    ensures table { IsTableOf bank.now table.new }
{
    assert!(rt; clause.names.is_empty());
    assert!(rt; is_canonical(clause));
    assert!(rt; clause.size() < SIZE_LIMIT);
    let clause = BankClause::of_clause(rt, alloc, bank, table, clause).expect(rt, "memory");
    Member { number, clause }
}

/// The clause of a text as a member.
pub(crate) fn member_of<R: Wait + Abort>(
    rt: &R,
    alloc: Global,
    bank: &Bank,
    table: &mut Table,
    number: u32,
    text: &str,
) -> Member
    requires { IsTableOf bank.now table.old }
    ensures made { IsMemberOf bank.now result }
    ensures table { IsTableOf bank.now table.new }
{
    let spelled = clause(alloc, text).expect(rt, "memory");
    member(rt, alloc, bank, table, number, &spelled)
}

/// The clauses of a text as members, numbered from 0.
pub(crate) fn members<R: Wait + Abort>(
    rt: &R,
    alloc: Global,
    bank: &Bank,
    table: &mut Table,
    text: &str,
) -> Members
    requires { IsTableOf bank.now table.old }
    ensures made { AreMembersOf bank.now result }
    ensures table { IsTableOf bank.now table.new }
{
    let mut made = Members::new(alloc);
    let spelled = clauses(alloc, text).expect(rt, "memory");
    for (index, clause) in spelled.as_slice().iter().enumerate() {
        let number = u32::try_from(index).expect(rt, "a number");
        put(
            rt,
            &mut made,
            bank,
            member(rt, alloc, bank, table, number, clause),
        );
    }
    made
}

/// Adds a member.
fn put(rt: &impl Abort, members: &mut Members, bank: &Bank, member: Member)
    requires of_bank { IsMemberOf bank.now member }
    requires members { AreMembersOf bank.now members.old }
    ensures { AreMembersOf bank.now members.new }
{
    let _bank = bank;
    members.push(member).expect(rt, "memory");
}

/// Those that are equations.
pub(crate) fn equations(rt: &impl Abort, alloc: Global, bank: &Bank, members: &[Member]) -> Units
    requires { AreMembersOf bank.now members.now }
    ensures { AreClausesOf bank.now result }
{
    let mut equations = Units::new(alloc).expect(rt, "memory");
    for member in members {
        add_equation(rt, &mut equations, bank, member);
    }
    equations
}

/// Adds a member that is an equation.
fn add_equation(rt: &impl Abort, equations: &mut Units, bank: &Bank, member: &Member)
    requires of_bank { IsMemberOf bank.now member.now }
    requires equations { AreClausesOf bank.now equations.old }
    ensures { AreClausesOf bank.now equations.new }
{
    if is_unit(&member.clause) {
        assert!(rt; equations.clause(u64::from(member.number)).is_none());
        equations.insert(bank, member).expect(rt, "memory");
    }
}

/// All of them.
pub(crate) fn subsumers(
    rt: &impl Abort,
    alloc: Global,
    bank: &Bank,
    members: &[Member],
) -> Subsumers
    requires { AreMembersOf bank.now members.now }
    ensures { AreMembersOf bank.now result }
{
    let mut subsumers = Subsumers::new(alloc).expect(rt, "memory");
    for member in members {
        add_subsumer(rt, &mut subsumers, bank, member);
    }
    subsumers
}

/// Adds a member, in the place of one with its number.
fn add_subsumer(rt: &impl Abort, subsumers: &mut Subsumers, bank: &Bank, member: &Member)
    requires of_bank { IsMemberOf bank.now member.now }
    requires subsumers { AreMembersOf bank.now subsumers.old }
    ensures { AreMembersOf bank.now subsumers.new }
{
    let _ = subsumers.remove(member.number);
    subsumers.insert(bank, member).expect(rt, "memory");
}
