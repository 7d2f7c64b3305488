// Sets of members before and after a removal, which answers true once.

ghost use Rattle.bank_clause.specs.Clause.{AreMembersOf, IsMemberOf};

use crate::samples::{equations, members, subsumers};
use bank_clause::Member;
use sample::clause;
use std::alloc::Global;
use std::process::Abort;
use subsume::{Subsumers, backward, forward, forward_except};
use term_bank::Bank;

/// A number that no member has.
const NO_MEMBER: u32 = 7;

/// Whether both searches find this subsumer of a clause, or none.
fn find(
    rt: &impl Abort,
    alloc: Global,
    bank: &Bank,
    set: &Subsumers,
    text: &str,
    wanted: Option<u32>,
) -> bool
    requires { AreMembersOf bank.now set.now }
{
    let given = clause(alloc, text).expect(rt, "memory");
    let lowest = forward(alloc, bank, set, &given).expect(rt, "memory");
    let other = forward_except(alloc, bank, set, &given, NO_MEMBER).expect(rt, "memory");
    lowest == wanted && other == wanted
}

/// Whether a clause subsumes the member with this number alone.
fn subsumes_one(
    rt: &impl Abort,
    alloc: Global,
    bank: &Bank,
    set: &Subsumers,
    by: &Member,
    number: u32,
) -> bool
    requires set { AreMembersOf bank.now set.now }
    requires by { IsMemberOf bank.now by.now }
{
    let subsumed = backward(alloc, bank, set, by).expect(rt, "memory");
    subsumed.as_slice() == [u64::from(number)].as_slice()
}

/// The subsumers in a set with `p(X0)` and `p(a)`.
#[test]
fn subsumers_are_found_and_removed(rt: HostRuntime) {
    let alloc = rt.alloc();
    let (bank, mut table) = Bank::new(alloc).expect(&rt, "memory");
    let members = members(&rt, alloc, &bank, &mut table, "p(X0);p(a)");
    let mut set = subsumers(&rt, alloc, &bank, members.as_slice());
    assert!(rt; find(&rt, alloc, &bank, &set, "p(a) | q(a)", Some(0)));
    assert!(rt; find(&rt, alloc, &bank, &set, "q(a)", None));
    let by = members.as_slice().first().expect(&rt, "a member");
    assert!(rt; subsumes_one(&rt, alloc, &bank, &set, by, 1));
    assert!(rt; set.remove(1) && !set.remove(1));
}

#[test]
fn units_are_removed_once(rt: HostRuntime) {
    let alloc = rt.alloc();
    let (bank, mut table) = Bank::new(alloc).expect(&rt, "memory");
    let members = members(&rt, alloc, &bank, &mut table, "a = b");
    let mut units = equations(&rt, alloc, &bank, members.as_slice());
    assert!(rt; units.remove(&bank, 0) && !units.remove(&bank, 0));
}
