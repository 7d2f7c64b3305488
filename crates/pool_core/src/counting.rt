// The work of a batch as it is counted: entries, and clauses that go. What is done here takes no memory, since there is room.

ghost use Rattle.std.specs.Prelude.{◌≡◌, ℕ, ◌+◌, ◌<◌, ◌≤◌, ◌&&◌, ◌++◌, Bool, List, None, is_none, fold, length, option_to_list, vec_len, vec_capacity};
ghost use Rattle.std.specs.List.{list_all};
ghost use Rattle.kernel_steps.specs.declared.step.Line.{Line};
ghost use Rattle.std.specs.Vec.Iter.{into_iter_items};
ghost use Rattle.term_bank.specs.declared.bank.Bank.{Bank};
ghost use Rattle.term_bank.specs.declared.table.Table.{Table};
ghost use Rattle.pool_core.specs.CountedList.{keys_in};
ghost use Rattle.pool_history.specs.Counting.{counts, keys_of, lines_of_entries, lines_of_fate};
ghost use Rattle.pool_core.specs.Demanded.{no_demand, plus, total};
ghost use Rattle.pool_core.specs.declared.demand.Demand.{Demand};
ghost use Rattle.pool_core.specs.Placing.{
  AreInterned,
  IsResultOf,
  AreArrivals,
  IsReplacement,
  IsWorkOf,
  IsSomeWork,
  IsOfGiven,
  IsLiving,
  IsCountedStateOf,
  NotesDeaths,
  HasRoom,
  brought,
  entries_of,
  lines_of_removals,
};
ghost use Rattle.pool_history.specs.Record.{PoolRecord};
ghost use Rattle.clause_register.specs.Register.{is_living_at};
ghost use Rattle.pool_history.specs.Returning.{removals_of, replaced, proposed, worked};

use crate::counted_keys::CountedKeys;
use crate::interning::{Interned, Prepared};
use crate::pool::ProofState;
use kernel_steps::Key;
use pool_history::{Entry, Fate, MetEntries, Options, Removal, Removals, Work};
use std::vec::IntoIter;
use term_bank::Bank;

impl ProofState {
    /// The given clause of a job goes, or it is done: then its entries are counted, their results come, and the proposed removals take effect.
    pub(crate) fn work(
        &mut self,
        bank: &Bank,
        options: Options,
        counted: &mut CountedKeys,
        number: u32,
        event: u64,
        work: Work,
        prepared: Prepared,
    )
        requires open { self.old.ended ≡ None }
        requires living { IsLiving self.old.register.clauses number }
        requires given { IsOfGiven number work }
        requires work { IsSomeWork bank.now options.split self.old number work prepared }
        requires room { HasRoom self.old (brought prepared) (length (removals_of work)) }
        requires counted_room { vec_len counted.old.keys + (length (entries_of work) + length (removals_of work)) ≤ vec_capacity counted.old.keys }
        ensures worked { (table : Table) (r : PoolRecord) (pairs : List (ℕ × ℕ)) → event ≡ r.events
            → IsWorkOf bank.now table options.split self.old number work prepared pairs r → keys_in counted.old ≡ r.counted
            → IsCountedStateOf bank.now table self.new (keys_in counted.new) (worked options number work r) }
        ensures noted { (table : Table) (r : PoolRecord) (pairs : List (ℕ × ℕ)) → event ≡ r.events
            → IsWorkOf bank.now table options.split self.old number work prepared pairs r → keys_in counted.old ≡ r.counted
            → NotesDeaths r (worked options number work r) self.old.notes.items self.new.notes.items }
        ensures room { HasRoom self.new no_demand 0 }
    {
        let Prepared {
            entries: results,
            removals: replacements,
            ..
        } = prepared;
        match work {
            Work::Gone(removal) => {
                let mut replacements = replacements.clauses.into_iter();
                let interned = next_result(&mut replacements, &removal.fate);
                self.die(removal.victim, event);
                self.replace(
                    bank,
                    options,
                    counted,
                    removal.victim,
                    removal.fate,
                    interned,
                );
            }
            Work::Met { entries, removals } => {
                self.finish(number);
                self.count_entries(bank, options, counted, entries, results.clauses);
                self.propose(
                    bank,
                    options,
                    counted,
                    event,
                    removals,
                    replacements.clauses,
                );
            }
        }
    }

    /// The entries are counted, all together; then their results come in order, until the pool is refuted.
    fn count_entries(
        &mut self,
        bank: &Bank,
        options: Options,
        counted: &mut CountedKeys,
        entries: MetEntries,
        results: Vec<Interned>,
    )
        requires open { self.old.ended ≡ None }
        requires results { AreArrivals bank.now self.old options.split (lines_of_entries entries) results.items }
        requires room { HasRoom self.old (total results.items) 0 }
        requires counted_room { vec_len counted.old.keys + length entries ≤ vec_capacity counted.old.keys }
        ensures counted { (table : Table) (r : PoolRecord) → AreInterned bank.now table options.split (length r.parts) (lines_of_entries entries) results.items
            → IsCountedStateOf bank.now table self.old (keys_in counted.old) r
            → IsCountedStateOf bank.now table self.new (keys_in counted.new) (counts options (keys_of entries) (lines_of_entries entries) r) }
        ensures room { (d : Demand) (deaths : ℕ) → HasRoom self.old (plus (total results.items) d) deaths → HasRoom self.new d deaths }
        ensures counted_len { vec_len counted.new.keys ≡ vec_len counted.old.keys + length entries }
        ensures counted_room { vec_capacity counted.new.keys ≡ vec_capacity counted.old.keys }
        ensures notes { self.new.notes.items ≡ self.old.notes.items }
    {
        let is_spent = counted.len() + entries.len() >= options.inferences as usize;
        let mut results = results.into_iter();
        for entry in entries.into_vec() {
            let Entry { key, fate } = entry;
            counted.push(&key);
            if let Fate::Kept { lines, .. } = fate {
                let Some(interned) = results.next() else {
                    unreachable!();
                };
                self.arrive_counted(bank, is_spent, lines, interned);
            }
        }
        self.spend(is_spent, counted.len() as u64);
    }

    /// The removals take effect in order, each where its victim and all its justifiers live at that moment, until the pool is refuted or spent.
    fn propose(
        &mut self,
        bank: &Bank,
        options: Options,
        counted: &mut CountedKeys,
        event: u64,
        removals: Removals,
        results: Vec<Interned>,
    )
        requires results { AreArrivals bank.now self.old options.split (lines_of_removals removals) results.items }
        requires room { HasRoom self.old (total results.items) (length removals) }
        requires counted_room { vec_len counted.old.keys + length removals ≤ vec_capacity counted.old.keys }
        ensures proposed { (table : Table) (r : PoolRecord) → event ≡ r.events → AreInterned bank.now table options.split (length r.parts) (lines_of_removals removals) results.items
            → IsCountedStateOf bank.now table self.old (keys_in counted.old) r
            → IsCountedStateOf bank.now table self.new (keys_in counted.new) (fold (proposed options) r removals) }
        ensures noted { (table : Table) (r : PoolRecord) → event ≡ r.events → AreInterned bank.now table options.split (length r.parts) (lines_of_removals removals) results.items
            → IsCountedStateOf bank.now table self.old (keys_in counted.old) r
            → NotesDeaths r (fold (proposed options) r removals) self.old.notes.items self.new.notes.items }
        ensures room { HasRoom self.new no_demand 0 }
    {
        let mut results = results.into_iter();
        for removal in removals.into_vec() {
            let interned = next_result(&mut results, &removal.fate);
            if self.takes_effect(&removal) {
                self.die(removal.victim, event);
                self.replace(
                    bank,
                    options,
                    counted,
                    removal.victim,
                    removal.fate,
                    interned,
                );
            }
        }
    }

    /// Whether a removal takes effect now.
    fn takes_effect(&self, removal: &Removal) -> bool
        ensures { let ss = self.now.register.clauses in
            result ≡ (is_none self.now.ended && (is_living_at ss removal.now.victim && list_all (is_living_at ss) removal.now.justifiers)) }
    {
        self.ended.is_none()
            && self.register.is_living(u64::from(removal.victim))
            && self.register.are_living(removal.justifiers.as_slice())
    }

    /// The reduced result of a clause that died, where it has one, is counted as one entry, and comes.
    fn replace(
        &mut self,
        bank: &Bank,
        options: Options,
        counted: &mut CountedKeys,
        victim: u32,
        fate: Fate,
        interned: Option<Interned>,
    )
        requires open { self.old.ended ≡ None }
        requires interned { IsReplacement bank.now self.old options.split fate interned }
        requires room { HasRoom self.old (total (option_to_list interned)) 0 }
        requires counted_room { vec_len counted.old.keys < vec_capacity counted.old.keys }
        ensures replaced { (table : Table) (r : PoolRecord) → IsResultOf bank.now table options.split (length r.parts) fate interned
            → IsCountedStateOf bank.now table self.old (keys_in counted.old) r
            → IsCountedStateOf bank.now table self.new (keys_in counted.new) (replaced options victim fate r) }
        ensures room { (d : Demand) (deaths : ℕ) → HasRoom self.old (plus (total (option_to_list interned)) d) deaths → HasRoom self.new d deaths }
        ensures counted_len { vec_len counted.new.keys ≤ vec_len counted.old.keys + 1 }
        ensures counted_room { vec_capacity counted.new.keys ≡ vec_capacity counted.old.keys }
        ensures notes { self.new.notes.items ≡ self.old.notes.items }
    {
        let Fate::Kept { lines, .. } = fate else {
            return;
        };
        let Some(interned) = interned else {
            unreachable!();
        };
        counted.push(&Key::Replaced(victim));
        let is_spent = counted.len() >= options.inferences as usize;
        self.arrive_counted(bank, is_spent, lines, interned);
        self.spend(is_spent, counted.len() as u64);
    }
}

/// The next result, where the fate has one.
fn next_result(results: &mut IntoIter<Interned>, fate: &Fate) -> Option<Interned>
    ensures next { (bank : Bank) (table : Table) (split : Bool) (count : ℕ) (lss : List (List Line))
        → AreInterned bank table split count (option_to_list (lines_of_fate fate.now) ++ lss) (into_iter_items results.old)
        → IsResultOf bank table split count fate.now result × AreInterned bank table split count lss (into_iter_items results.new) }
    ensures taken { into_iter_items results.old ≡ option_to_list result ++ into_iter_items results.new }
{
    match fate {
        Fate::Kept { .. } => results.next(),
        Fate::Dropped(_) | Fate::Heavy => None,
    }
}
