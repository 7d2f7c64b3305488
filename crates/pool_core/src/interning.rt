// The results of a batch in the bank. This is where a return takes memory, before anything changes.

ghost use Rattle.std.specs.Prelude.{◌≡◌, ℕ, Bool, [], ◌++◌, List, All, OnOk, IfOk, option_to_list};
ghost use Rattle.kernel_steps.specs.declared.step.Line.{Line};
ghost use Rattle.term_bank.specs.Table.{IsTableOf};
ghost use Rattle.pool_history.specs.Counting.{lines_of_fate, lines_of_entries, keys_of};
ghost use Rattle.pool_core.specs.Demanded.{no_demand};
ghost use Rattle.pool_core.specs.Placing.{AreResults, IsInterned, KnowsMore, IsFit, IsFitResult, IsFitWork, IsPrepared, lines_of_removals};
ghost use Rattle.pool_history.specs.Returning.{heavy_entries};
ghost use Rattle.pool_history.specs.declared.batch.Entry.{Entry};
ghost use Rattle.pool_history.specs.declared.batch.Removal.{Removal};

use crate::demand::Demand;
use crate::form::Form;
use fol_base::Clause;
use kernel_steps::{Key, Line};
use plain_types::Mem;
use pool_history::{Entry, Fate, Removal, Work};
use std::alloc::Global;
use std::sync::Wait;
use term_bank::{Bank, Table};

/// A result in the bank: how it comes, and how much it may bring.
#[derive(Drop)]
pub struct Interned {
    pub(crate) form: Form,
    pub(crate) demand: Demand,
}

/// Results, in the order of a batch, and how much they may bring together.
#[derive(Drop)]
pub struct Results {
    pub(crate) clauses: Vec<Interned>,
    pub(crate) demand: Demand,
}

/// The memory that a batch needs, taken: the results of its entries and of its removals, and the names of its heavy inferences.
#[derive(Drop)]
pub struct Prepared {
    pub(crate) entries: Results,
    pub(crate) removals: Results,
    pub(crate) heavy: Vec<Key>,
}

impl Interned {
    /// Makes the result of lines. The results that are handed in are its parts where it is split.
    pub(crate) fn of<R: Wait>(
        rt: &R,
        alloc: Global,
        bank: &Bank,
        table: &mut Table,
        lines: &[Line],
        results: &[Clause],
    ) -> Mem<Interned>
        requires table { IsTableOf bank.now table.old }
        requires fit { (split : Bool) × (count : ℕ) × IsFitResult split count lines.now results.now }
        ensures table { IsTableOf bank.now table.new }
        ensures knows { KnowsMore table.old table.new }
        ensures made { IfOk result (λ made. (split : Bool) (count : ℕ) → IsFitResult split count lines.now results.now
            → IsInterned bank.now table.new split count lines.now made) }
    {
        let clause = &lines[lines.len() - 1].clause;
        let form = Form::of(rt, alloc, bank, table, clause, results)?;
        let demand = form.demand(lines.len())?;
        Ok(Interned { form, demand })
    }
}

impl Results {
    fn new(alloc: Global) -> Results
        ensures clauses { result.clauses.items ≡ [] }
        ensures demand { result.demand ≡ no_demand }
    {
        Results {
            clauses: Vec::new(alloc),
            demand: Demand::none(),
        }
    }

    /// Interns the result of a fate, where there is one.
    fn add<R: Wait>(
        &mut self,
        rt: &R,
        alloc: Global,
        bank: &Bank,
        table: &mut Table,
        fate: &Fate,
    ) -> Mem<()>
        requires table { IsTableOf bank.now table.old }
        requires fit { (split : Bool) × (count : ℕ) × IsFit split count fate.now }
        ensures table { IsTableOf bank.now table.new }
        ensures knows { KnowsMore table.old table.new }
        ensures added { OnOk result ((split : Bool) (count : ℕ) (lss : List (List Line)) → IsFit split count fate.now
            → AreResults bank.now table.old split count lss self.old
            → AreResults bank.now table.new split count (lss ++ option_to_list (lines_of_fate fate.now)) self.new) }
    {
        let Fate::Kept { lines, results } = fate else {
            return Ok(());
        };
        let interned = Interned::of(rt, alloc, bank, table, lines.as_slice(), results.as_slice())?;
        let demand = self.demand.plus(interned.demand)?;
        self.clauses.push(interned)?;
        self.demand = demand;
        Ok(())
    }
}

/// Interns the results of a batch's work, and copies the names of its heavy inferences.
pub(crate) fn prepare<R: Wait>(
    rt: &R,
    alloc: Global,
    bank: &Bank,
    table: &mut Table,
    work: &Work,
) -> Mem<Prepared>
    requires table { IsTableOf bank.now table.old }
    requires fit { (split : Bool) × (count : ℕ) × IsFitWork split count work.now }
    ensures table { IsTableOf bank.now table.new }
    ensures knows { KnowsMore table.old table.new }
    ensures prepared { IfOk result (λ prepared. (split : Bool) (count : ℕ) → IsFitWork split count work.now
        → IsPrepared bank.now table.new split count work.now prepared) }
{
    match work {
        Work::Gone(removal) => {
            let mut removals = Results::new(alloc);
            removals.add(rt, alloc, bank, table, &removal.fate)?;
            Ok(Prepared {
                entries: Results::new(alloc),
                removals,
                heavy: Vec::new(alloc),
            })
        }
        Work::Met { entries, removals } => {
            let heavy = heavy_keys(alloc, entries.as_slice())?;
            let entries = entry_results(rt, alloc, bank, table, entries.as_slice())?;
            let removals = removal_results(rt, alloc, bank, table, removals.as_slice())?;
            Ok(Prepared {
                entries,
                removals,
                heavy,
            })
        }
    }
}

/// The results of entries.
fn entry_results<R: Wait>(
    rt: &R,
    alloc: Global,
    bank: &Bank,
    table: &mut Table,
    entries: &[Entry],
) -> Mem<Results>
    requires table { IsTableOf bank.now table.old }
    requires fit { (split : Bool) × (count : ℕ) × All (λ (e : Entry). IsFit split count e.fate) entries.now }
    ensures table { IsTableOf bank.now table.new }
    ensures knows { KnowsMore table.old table.new }
    ensures results { IfOk result (λ results. (split : Bool) (count : ℕ) → All (λ (e : Entry). IsFit split count e.fate) entries.now
        → AreResults bank.now table.new split count (lines_of_entries entries.now) results) }
{
    let mut results = Results::new(alloc);
    for entry in entries {
        results.add(rt, alloc, bank, table, &entry.fate)?;
    }
    Ok(results)
}

/// The results of removals.
fn removal_results<R: Wait>(
    rt: &R,
    alloc: Global,
    bank: &Bank,
    table: &mut Table,
    removals: &[Removal],
) -> Mem<Results>
    requires table { IsTableOf bank.now table.old }
    requires fit { (split : Bool) × (count : ℕ) × All (λ (m : Removal). IsFit split count m.fate) removals.now }
    ensures table { IsTableOf bank.now table.new }
    ensures knows { KnowsMore table.old table.new }
    ensures results { IfOk result (λ results. (split : Bool) (count : ℕ) → All (λ (m : Removal). IsFit split count m.fate) removals.now
        → AreResults bank.now table.new split count (lines_of_removals removals.now) results) }
{
    let mut results = Results::new(alloc);
    for removal in removals {
        results.add(rt, alloc, bank, table, &removal.fate)?;
    }
    Ok(results)
}

/// The names of the inferences that are too heavy.
fn heavy_keys(alloc: Global, entries: &[Entry]) -> Mem<Vec<Key>>
    ensures { IfOk result (λ keys. keys.items ≡ keys_of (heavy_entries entries.now)) }
{
    let mut keys = Vec::new(alloc);
    for entry in entries {
        if let Fate::Heavy = entry.fate {
            keys.push(entry.key.copy(alloc)?)?;
        }
    }
    Ok(keys)
}
