// Which members of a set subsume a clause, and which a member subsumes.

ghost use Rattle.std.specs.Prelude.{◌≡◌, IfOk, IsTrue, None, Some};
ghost use Rattle.fol_base.specs.Literal.{clause_of};
ghost use Rattle.fol_base.specs.WellFormed.{SymbolUse, are_literals_of};
ghost use Rattle.bank_clause.specs.Clause.{AreMembersOf, IsMemberOf};
ghost use Rattle.subsume.specs.Longer.{IsLongerSubsumer, IsSomeOrNone};
ghost use Rattle.subsume.specs.Query.{IsQueryFor};
ghost use Rattle.subsume.specs.Searching.{IsLowest, IsSubsumedBy, IsSubsumer};
ghost use Rattle.bank_clause.specs.Members.{AreMembersOfUse, AreNumbersOf, IsMemberOfUse};

use crate::lowest::Query;
use crate::subsumers::Subsumers;
use crate::target::{Target, lent_literals};
use crate::vector::Features;
use bank_clause::Member;
use fol_base::{Clause, asserted_numbers};
use plain_types::{Mem, Numbers};
use std::alloc::Global;
use term_bank::Bank;

/// The lowest number of a member that subsumes a clause. None exactly where none does.
pub fn forward(alloc: Global, bank: &Bank, set: &Subsumers, clause: &Clause) -> Mem<Option<u32>>
    requires { AreMembersOf bank.now set.now }
    ensures { IfOk result (λ found. (usage : SymbolUse) → IsTrue (are_literals_of usage (clause_of clause.now).literals)
        → AreMembersOfUse usage set.now → IsLowest (IsSubsumer usage None (clause_of clause.now)) set.now found) }
{
    lowest_subsumer(alloc, bank, set, clause, None)
}

/// As `forward`, where the member with a number is left out, so that no clause is subsumed by itself.
pub fn forward_except(
    alloc: Global,
    bank: &Bank,
    set: &Subsumers,
    clause: &Clause,
    except: u32,
) -> Mem<Option<u32>>
    requires { AreMembersOf bank.now set.now }
    ensures { IfOk result (λ found. (usage : SymbolUse) → IsTrue (are_literals_of usage (clause_of clause.now).literals)
        → AreMembersOfUse usage set.now → IsLowest (IsSubsumer usage (Some except) (clause_of clause.now)) set.now found) }
{
    lowest_subsumer(alloc, bank, set, clause, Some(except))
}

/// As `forward`, where a member may be left out.
fn lowest_subsumer(
    alloc: Global,
    bank: &Bank,
    set: &Subsumers,
    clause: &Clause,
    except: Option<u32>,
) -> Mem<Option<u32>>
    requires { AreMembersOf bank.now set.now }
    ensures { IfOk result (λ found. (usage : SymbolUse) → IsTrue (are_literals_of usage (clause_of clause.now).literals)
        → AreMembersOfUse usage set.now → IsLowest (IsSubsumer usage except (clause_of clause.now)) set.now found) }
{
    let query = query_for(alloc, clause, except)?;
    set.members.lowest(alloc, bank, &query, None)
}

/// The number of a member with none or several literals that subsumes a clause, where a member may be left out. None exactly where none does.
pub fn forward_longer(
    alloc: Global,
    bank: &Bank,
    set: &Subsumers,
    clause: &Clause,
    except: Option<u32>,
) -> Mem<Option<u32>>
    requires { AreMembersOf bank.now set.now }
    ensures { IfOk result (λ found. (usage : SymbolUse) → IsTrue (are_literals_of usage (clause_of clause.now).literals)
        → AreMembersOfUse usage set.now → IsSomeOrNone (IsLongerSubsumer usage except (clause_of clause.now)) set.now found) }
{
    let query = query_for(alloc, clause, except)?;
    set.members.longer_subsumer(alloc, bank, &query)
}

/// The query for what subsumes a clause.
fn query_for(alloc: Global, clause: &Clause, except: Option<u32>) -> Mem<Query<'_>>
    ensures query { IfOk result (λ query. (usage : SymbolUse) → IsTrue (are_literals_of usage (clause_of clause.now).literals)
        → IsQueryFor query usage (clause_of clause.now)) }
    ensures except { IfOk result (λ query. query.except ≡ except) }
{
    let target = Target {
        literals: lent_literals(alloc, &clause.literals)?,
        assertions: asserted_numbers(alloc, clause.names.as_slice())?,
    };
    Ok(Query {
        target,
        features: Features::of(&clause.literals),
        except,
    })
}

/// The numbers of exactly the other members that a member subsumes, rising.
pub fn backward(alloc: Global, bank: &Bank, set: &Subsumers, by: &Member) -> Mem<Numbers>
    requires set { AreMembersOf bank.now set.now }
    requires by { IsMemberOf bank.now by.now }
    ensures { IfOk result (λ found. (usage : SymbolUse) → IsMemberOfUse usage by.now → AreMembersOfUse usage set.now
        → AreNumbersOf (IsSubsumedBy usage by.now) set.now found) }
{
    let features = Features::of(&by.clause.lend(bank));
    let mut found = Vec::new(alloc);
    set.members.collect(alloc, bank, by, &features, &mut found)?;
    found.sort_unstable();
    Ok(Numbers::from_vec(found))
}
