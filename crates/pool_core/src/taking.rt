// Batches that are taken: first all memory that a return needs, and then what takes none.

ghost use Rattle.std.specs.Prelude.{◌≡◌, ℕ, Bool, ◌+◌, ◌≤◌, ◌++◌, [], ◌∷◌, None, true, is_some, length, IfOk, IfErr, OnOk, OnErr, vec_len, vec_capacity};
ghost use Rattle.term_bank.specs.Bank.{identity};
ghost use Rattle.term_bank.specs.Table.{IsTableOf};
ghost use Rattle.pool_core.specs.CountedList.{keys_in};
ghost use Rattle.pool_core.specs.Placing.{KnowsMore, HasRoom, IsFitWork, IsInBank, IsTakeable, brought, entries_of, heavy_keys_of};
ghost use Rattle.pool_core.specs.Splits.{split_view};
ghost use Rattle.pool_history.specs.Returning.{removals_of};
ghost use Rattle.pool_history.specs.Replay.{replay};
ghost use Rattle.pool_history.specs.declared.event.Event.TheVariants.{Return};

use crate::counted_keys::CountedKeys;
use crate::demand::sum;
use crate::interning::{Prepared, prepare};
use crate::pool::{Pool, ProofState};
use crate::returning::NotTaken;
use kernel_steps::Key;
use plain_types::Mem;
use pool_history::{Batch, Event, Work};
use std::alloc::Global;
use std::sync::Wait;
use term_bank::{Bank, Table};

impl Pool {
    /// Takes the batch of a job whose given clause lives. After an out-of-memory error the pool is as before, and the batch comes back.
    pub(crate) fn take<R: Wait>(
        &mut self,
        rt: &R,
        alloc: Global,
        bank: &Bank,
        number: u32,
        batch: Batch,
    ) -> Result<(), NotTaken>
        requires bank { self.old.bank ≡ identity bank.now }
        requires takeable { IsTakeable self.old.origin self.old.history number batch }
        ensures bank { self.new.bank ≡ self.old.bank }
        ensures origin { self.new.origin ≡ self.old.origin }
        ensures history { OnOk result (self.new.history ≡ self.old.history ++ Return batch ∷ []) }
        ensures open { OnErr result ((replay self.old.origin self.old.history).ended ≡ None) }
        ensures unchanged { OnErr result (self.new ≡ self.old) }
        ensures batch { IfErr result (λ refused. refused.batch ≡ batch) }
    {
        if self.proof.ended.is_some() {
            self.close(number, batch);
            return Ok(());
        }
        let memory = take_return_memory(
            rt,
            alloc,
            bank,
            &mut self.table,
            &mut self.proof,
            &mut self.counted,
            &mut self.set_aside,
            &batch.work,
        );
        let Ok(prepared) = memory else {
            return Err(NotTaken { batch });
        };
        self.jobs.remove(&batch.job);
        self.notes_before.push_reserved(self.proof.notes.len());
        let event = self.history.len();
        let Batch { work, .. } = self.history.push_return(batch);
        self.proof.work(
            bank,
            self.options,
            &mut self.counted,
            number,
            event,
            work,
            prepared,
        );
        Ok(())
    }

    /// Takes the batch of a job once the pool is refuted or spent: the job is done, and that is all.
    fn close(&mut self, number: u32, batch: Batch)
        requires ended { is_some (replay self.old.origin self.old.history).ended ≡ true }
        requires takeable { IsTakeable self.old.origin self.old.history number batch }
        ensures bank { self.new.bank ≡ self.old.bank }
        ensures origin { self.new.origin ≡ self.old.origin }
        ensures history { self.new.history ≡ self.old.history ++ Return batch ∷ [] }
    {
        self.jobs.remove(&batch.job);
        self.notes_before.push_reserved(self.proof.notes.len());
        self.history.push(&Event::Return(batch));
        self.proof.finish(number);
    }
}

/// How many entries there are.
fn entry_count(work: &Work) -> usize
    ensures { result ≡ length (entries_of work.now) }
{
    match work {
        Work::Gone(_) => 0,
        Work::Met { entries, .. } => entries.len(),
    }
}

/// How many clauses may go.
fn removal_count(work: &Work) -> usize
    ensures { result ≡ length (removals_of work.now) }
{
    match work {
        Work::Gone(_) => 1,
        Work::Met { removals, .. } => removals.len(),
    }
}

/// Takes the memory of a return: the results in the bank, room for whatever the work may bring, and at last the names that are set aside, which
/// stay out after an out-of-memory error.
fn take_return_memory<R: Wait>(
    rt: &R,
    alloc: Global,
    bank: &Bank,
    table: &mut Table,
    proof: &mut ProofState,
    counted: &mut CountedKeys,
    set_aside: &mut Vec<Key>,
    work: &Work,
) -> Mem<Prepared>
    requires table { IsTableOf bank.now table.old }
    requires fit { (split : Bool) × (count : ℕ) × IsFitWork split count work.now }
    ensures table { IsTableOf bank.now table.new }
    ensures knows { KnowsMore table.old table.new }
    ensures prepared { IfOk result (λ prepared. (split : Bool) (count : ℕ) → IsFitWork split count work.now
        → IsInBank bank.now table.new split count work.now prepared) }
    ensures clauses { proof.new.register.clauses ≡ proof.old.register.clauses }
    ensures pairs { proof.new.queue.pairs ≡ proof.old.queue.pairs }
    ensures spare { proof.old.queue.spare ≤ proof.new.queue.spare }
    ensures notes { proof.new.notes.items ≡ proof.old.notes.items }
    ensures steps { proof.new.steps.items ≡ proof.old.steps.items }
    ensures ended { proof.new.ended ≡ proof.old.ended }
    ensures splits { split_view proof.new.splits ≡ split_view proof.old.splits }
    ensures asserting { proof.new.asserting.entries ≡ proof.old.asserting.entries }
    ensures room { IfOk result (λ prepared. HasRoom proof.new (brought prepared) (length (removals_of work.now))) }
    ensures counted { keys_in counted.new ≡ keys_in counted.old }
    ensures counted_room { OnOk result
        (vec_len counted.new.keys + (length (entries_of work.now) + length (removals_of work.now)) ≤ vec_capacity counted.new.keys) }
    ensures set_aside { OnOk result (set_aside.new.items ≡ set_aside.old.items ++ heavy_keys_of work.now) }
    ensures not_set_aside { OnErr result (set_aside.new.items ≡ set_aside.old.items) }
{
    let mut prepared = prepare(rt, alloc, bank, table, work)?;
    let demand = prepared.entries.demand.plus(prepared.removals.demand)?;
    proof.reserve(demand, removal_count(work))?;
    counted.reserve(sum(entry_count(work), removal_count(work))?)?;
    set_aside.append(&mut prepared.heavy)?;
    Ok(prepared)
}
