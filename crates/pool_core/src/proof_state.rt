// The part of a pool that the work of a batch changes: clauses come and die. What is done here takes no memory, since there is room.

ghost use Rattle.std.specs.Prelude.{◌≡◌, ℕ, suc, ◌<◌, ◌≤◌, ◌++◌, ◌∷◌, [], Bool, List, length, OnOk};
ghost use Rattle.clause_queue.specs.Pairs.{without};
ghost use Rattle.term_bank.specs.declared.bank.Bank.{Bank};
ghost use Rattle.term_bank.specs.declared.table.Table.{Table};
ghost use Rattle.pool_history.specs.Counting.{result_comes};
ghost use Rattle.pool_core.specs.Demanded.{no_demand, plus};
ghost use Rattle.pool_core.specs.Placing.{IsInterned, IsArrival, IsLiving, HasRoom, with_queue, comes_if, spent_if};
ghost use Rattle.pool_history.specs.Record.{PoolRecord};
ghost use Rattle.pool_history.specs.Returning.{dies, becomes_active};
ghost use Rattle.pool_core.specs.Splits.{split_view};
ghost use Rattle.pool_core.specs.State.{IsProofStateOf};
ghost use Rattle.pool_core.specs.declared.demand.Demand.{Demand};
ghost use Rattle.pool_core.specs.declared.pool.Note.TheVariants.{Died};

use crate::demand::{Demand, sum};
use crate::form::Form;
use crate::interning::Interned;
use crate::pool::{Note, ProofState};
use kernel_steps::Derivation;
use plain_types::Mem;
use pool_history::Outcome;
use term_bank::Bank;

impl ProofState {
    /// Makes room for what results may bring, and for deaths. After an out-of-memory error there may be some of that room.
    pub(crate) fn reserve(&mut self, demand: Demand, deaths: usize) -> Mem<()>
        ensures clauses { self.new.register.clauses ≡ self.old.register.clauses }
        ensures pairs { self.new.queue.pairs ≡ self.old.queue.pairs }
        ensures kept { self.old.queue.spare ≤ self.new.queue.spare }
        ensures notes { self.new.notes.items ≡ self.old.notes.items }
        ensures steps { self.new.steps.items ≡ self.old.steps.items }
        ensures ended { self.new.ended ≡ self.old.ended }
        ensures splits { split_view self.new.splits ≡ split_view self.old.splits }
        ensures asserting { self.new.asserting.entries ≡ self.old.asserting.entries }
        ensures room { OnOk result (HasRoom self.new demand deaths) }
    {
        self.register.reserve(demand.clauses)?;
        self.queue
            .reserve(sum(self.register.len(), demand.clauses)?)?;
        self.asserting.reserve(demand.tags)?;
        self.steps.reserve(demand.lines)?;
        self.splits
            .reserve(demand.parts, demand.splits, demand.names)?;
        self.notes.reserve(deaths)?;
        Ok(())
    }

    /// The result of a batch's lines comes by them, unless the pool is refuted or spent. A result that lives already changes nothing; the empty
    /// clause refutes, and one that is split comes in parts.
    pub(crate) fn arrive(&mut self, bank: &Bank, lines: Derivation, interned: Interned)
        requires arrival { IsArrival bank.now self.old lines interned }
        requires room { HasRoom self.old interned.demand 0 }
        ensures arrived { (table : Table) (split : Bool) (r : PoolRecord) → IsInterned bank.now table split (length r.parts) lines interned
            → IsProofStateOf bank.now table self.old r → IsProofStateOf bank.now table self.new (result_comes split r lines) }
        ensures room { (d : Demand) (deaths : ℕ) → HasRoom self.old (plus interned.demand d) deaths → HasRoom self.new d deaths }
        ensures notes { self.new.notes.items ≡ self.old.notes.items }
    {
        if self.ended.is_some() {
            return;
        }
        let Interned { form, .. } = interned;
        match form {
            Form::Whole(whole) => self.whole_comes(bank, lines, whole),
            Form::Contradiction(asserted) => self.contradiction_comes(bank, lines, asserted),
            Form::Parts(split) => self.split_comes(bank, lines, split),
        }
    }

    /// A result that was counted comes. Where the count has reached the limit only the empty clause does.
    pub(crate) fn arrive_counted(
        &mut self,
        bank: &Bank,
        is_spent: bool,
        lines: Derivation,
        interned: Interned,
    )
        requires arrival { IsArrival bank.now self.old lines interned }
        requires room { HasRoom self.old interned.demand 0 }
        ensures arrived { (table : Table) (split : Bool) (r : PoolRecord) → IsInterned bank.now table split (length r.parts) lines interned
            → IsProofStateOf bank.now table self.old r → IsProofStateOf bank.now table self.new (comes_if split is_spent r lines) }
        ensures room { (d : Demand) (deaths : ℕ) → HasRoom self.old (plus interned.demand d) deaths → HasRoom self.new d deaths }
        ensures notes { self.new.notes.items ≡ self.old.notes.items }
    {
        if !is_spent || interned.form.refutes() {
            self.arrive(bank, lines, interned);
        }
    }

    /// The pool is spent where the count has reached the limit, unless it was refuted.
    pub(crate) fn spend(&mut self, is_spent: bool, count: u64)
        ensures spent { (bank : Bank) (table : Table) (r : PoolRecord) → count ≡ length r.counted
            → IsProofStateOf bank table self.old r → IsProofStateOf bank table self.new (spent_if is_spent r) }
        ensures room { (d : Demand) (deaths : ℕ) → HasRoom self.old d deaths → HasRoom self.new d deaths }
        ensures notes { self.new.notes.items ≡ self.old.notes.items }
    {
        if is_spent && self.ended.is_none() {
            self.ended = Some(Outcome::Spent(count));
        }
    }

    /// A living clause dies in the event of that place.
    pub(crate) fn die(&mut self, number: u32, event: u64)
        requires living { IsLiving self.old.register.clauses number }
        requires room { HasRoom self.old no_demand 1 }
        ensures died { (bank : Bank) (table : Table) (r : PoolRecord) (justifiers : List ℕ) (pairs : List (ℕ × ℕ)) → event ≡ r.events
            → without number self.old.queue.pairs ≡ without number pairs → IsProofStateOf bank table (with_queue pairs self.old) r
            → IsProofStateOf bank table self.new (dies number justifiers r) }
        ensures ended { self.new.ended ≡ self.old.ended }
        ensures room { (d : Demand) (deaths : ℕ) → HasRoom self.old d (suc deaths) → HasRoom self.new d deaths }
        ensures notes { self.new.notes.items ≡ self.old.notes.items ++ Died number ∷ [] }
    {
        self.register.bury(number as usize, event);
        self.queue.remove(number);
        self.notes.push_reserved(Note::Died(number));
    }

    /// The job on a clause is done, and the clause stays. It isn't in the queue.
    pub(crate) fn finish(&mut self, number: u32)
        requires there { number < length self.old.register.clauses }
        ensures finished { (bank : Bank) (table : Table) (r : PoolRecord) (pairs : List (ℕ × ℕ)) → self.old.queue.pairs ≡ without number pairs
            → IsProofStateOf bank table (with_queue pairs self.old) r → IsProofStateOf bank table self.new (becomes_active number r) }
        ensures room { (d : Demand) (deaths : ℕ) → HasRoom self.old d deaths → HasRoom self.new d deaths }
        ensures notes { self.new.notes.items ≡ self.old.notes.items }
        ensures ended { self.new.ended ≡ self.old.ended }
    {
        self.register.set_active(number as usize);
    }
}
