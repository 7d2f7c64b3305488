// Learning from news: clauses that were activated, and clauses that died.

ghost use Rattle.std.specs.Prelude.{◌≡◌, ◌<◌, All, IfOk};
ghost use Rattle.kernel_steps.specs.declared.step.TheConstants.{CLAUSE_NUMBERS};
ghost use Rattle.bank_clause.specs.Clause.{IsMemberOf};
ghost use Rattle.subsume.specs.Editing.{HasNoNumber};
ghost use Rattle.pool_history.specs.Answers.{IsChangeOf};
ghost use Rattle.given_work.specs.Learning.{AreNews, IsNew, learned, learns};
ghost use Rattle.given_work.specs.Store.{members_in};
ghost use Rattle.given_work.specs.Kept.{IsKept};
ghost use Rattle.pool_history.specs.declared.ticket.Change.TheVariants.{Activated};

use crate::sets::Sets;
use crate::store::Store;
use bank_clause::Member;
use plain_types::Mem;
use pool_history::Change;
use term_bank::Bank;

/// Learns one change.
pub(crate) fn learn_change(
    bank: &Bank,
    change: &Change,
    store: &mut Store,
    sets: &mut Sets,
) -> Mem<()>
    requires kept { IsKept bank.now store.old sets.old }
    requires change { IsChangeOf bank.now change.now }
    requires new { IsNew (members_in store.old.slots.items) change.now }
    ensures kept { IfOk result (λ _. IsKept bank.now store.new sets.new) }
    ensures members { IfOk result (λ _. members_in store.new.slots.items ≡ learns (members_in store.old.slots.items) change.now) }
    ensures mode { IfOk result (λ _. store.new.partners.mode ≡ store.old.partners.mode) }
{
    match change {
        Change::Activated(member) => activate(bank, member, store, sets),
        Change::Died(number) => {
            store.take(bank, *number);
            sets.remove(bank, *number);
            Ok(())
        }
    }
}

/// Learns a clause that was activated.
fn activate(bank: &Bank, member: &Member, store: &mut Store, sets: &mut Sets) -> Mem<()>
    requires kept { IsKept bank.now store.old sets.old }
    requires member { IsMemberOf bank.now member.now }
    requires new { HasNoNumber member.now.number (members_in store.old.slots.items) }
    ensures kept { IfOk result (λ _. IsKept bank.now store.new sets.new) }
    ensures members { IfOk result (λ _. members_in store.new.slots.items ≡ learns (members_in store.old.slots.items) (Activated member.now)) }
    ensures mode { IfOk result (λ _. store.new.partners.mode ≡ store.old.partners.mode) }
{
    below_lines(member.number);
    sets.insert(bank, member)?;
    store.put(bank, member)?;
    Ok(())
}

/// Shows that the number of a clause is below the numbers of lines. It changes nothing.
fn below_lines(number: u32)
    ensures { number < CLAUSE_NUMBERS }
{
    let _ = number;
}

/// Learns changes, one after another.
pub(crate) fn learn_all(
    bank: &Bank,
    changes: &[Change],
    store: &mut Store,
    sets: &mut Sets,
) -> Mem<()>
    requires kept { IsKept bank.now store.old sets.old }
    requires changes { All (IsChangeOf bank.now) changes.now }
    requires new { AreNews (members_in store.old.slots.items) changes.now }
    ensures kept { IfOk result (λ _. IsKept bank.now store.new sets.new) }
    ensures members { IfOk result (λ _. members_in store.new.slots.items ≡ learned (members_in store.old.slots.items) changes.now) }
    ensures mode { IfOk result (λ _. store.new.partners.mode ≡ store.old.partners.mode) }
{
    for change in changes {
        learn_change(bank, change, store, sets)?;
    }
    Ok(())
}
