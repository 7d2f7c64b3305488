// The pool of clauses: how it begins, and what it tells of itself.

ghost use Rattle.std.specs.Prelude.{◌≡◌, ◌<◌, ◌&&◌, ◌==◌, [], not, length, map, position, slice_get, Some, IfOk};
ghost use Rattle.fol_base.specs.Literal.{clause_of};
ghost use Rattle.term_bank.specs.Bank.{identity};
ghost use Rattle.term_bank.specs.Table.{IsTableOf};
ghost use Rattle.pool_core.specs.KeptEvents.{events_of};
ghost use Rattle.pool_history.specs.Inputs.{AreInputs, IsLimit, IsHistoryOf};
ghost use Rattle.pool_history.specs.Outcomes.{is_at_rest, is_of_living, outcome_of};
ghost use Rattle.pool_history.specs.Record.{is_awake, jobs_out, lives};
ghost use Rattle.pool_history.specs.Replay.{replay};

use crate::counted_keys::CountedKeys;
use crate::history::History;
use crate::ready_queue::ReadyQueue;
use crate::splits::Splits;
use crate::tag_index::TagIndex;
use clause_register::Register;
use fol_base::Clauses;
use kernel_steps::{Key, Step};
use plain_types::Mem;
use pool_history::{Options, Outcome};
use std::alloc::Global;
use std::collections::BTreeMap;
use std::marker::Model;
use std::snapshot::Snapshot;
use std::sync::Wait;
use term_bank::{Bank, Table};

/// A job on a given clause that is out.
#[derive(Clone, Copy)]
pub struct OutJob {
    pub(crate) number: u32,
    /// The number of entries at which a batch may stop.
    pub(crate) left: u32,
}

/// The solver's job, of the first propositional clauses, over so many names.
#[derive(Clone, Copy)]
pub struct SolverOut {
    pub(crate) job: u64,
    pub(crate) clauses: usize,
    pub(crate) names: u32,
}

/// An activation or a death, by the number of the clause.
#[derive(Clone, Copy)]
pub enum Note {
    Activated(u32),
    Died(u32),
}

/// The parts of a pool that the work of a batch changes, beside the count.
#[derive(Drop)]
pub struct ProofState {
    pub(crate) register: Register,
    /// The clauses that wait and are awake, with their sizes. It has a node for each registered clause.
    pub(crate) queue: ReadyQueue,
    /// All activations and deaths.
    pub(crate) notes: Vec<Note>,
    /// The steps of the lines.
    pub(crate) steps: Vec<Step>,
    /// Refuted or spent.
    pub(crate) ended: Option<Outcome>,
    pub(crate) splits: Splits,
    /// Which clause asserts which tag.
    pub(crate) asserting: TagIndex,
}

/// A pool of clauses. Contracts see which bank it is of, what it began with, and its history, the list of its events. What it answers is told by
/// the replay of these.
#[derive(Drop)]
pub struct Pool {
    pub(crate) inputs: Snapshot<Clauses>,
    pub(crate) options: Options,
    pub(crate) table: Table,
    pub(crate) proof: ProofState,
    /// The activated clauses, by their positions.
    pub(crate) positions: Vec<u32>,
    /// The jobs on given clauses that are out, by their numbers.
    pub(crate) jobs: BTreeMap<u64, OutJob>,
    /// The solver's job, where it is out.
    pub(crate) solver: Option<SolverOut>,
    /// It has room for an event of each job that is out.
    pub(crate) history: History,
    /// For each event how many activations and deaths came before it. It has the room that the history has.
    pub(crate) notes_before: Vec<usize>,
    pub(crate) counted: CountedKeys,
    pub(crate) set_aside: Vec<Key>,
    pub(crate) last_job: u64,
    /// The place of the next given claim among six.
    pub(crate) place_in_round: u64,
}

impl Model for Pool {
    ghost use Rattle.pool_history.specs.View.{PoolView, view_code};

    ghost Value = { PoolView };

    ghost coded = { view_code };

    ghost use Rattle.pool_core.specs.State.{view_of, IsPool};

    ghost view = { view_of };

    ghost invariant = { IsPool };
}

impl Pool {
    /// A pool of the inputs, which come in order, split where splitting is on. The empty clause among them refutes the pool.
    pub fn new<R: Wait>(
        rt: &R,
        alloc: Global,
        bank: &Bank,
        table: Table,
        inputs: &Clauses,
        options: Options,
    ) -> Mem<Pool>
        requires table { IsTableOf bank.now table }
        requires inputs { AreInputs (map clause_of inputs.now) }
        requires limit { IsLimit options }
        ensures { IfOk result (λ pool. pool ≡ record {
          bank = identity bank.now;
          origin = record { inputs = map clause_of inputs.now; options = options };
          history = [];
        }) }
    {
        let mut table = table;
        let proof = ProofState::of_inputs(
            rt,
            alloc,
            bank,
            &mut table,
            inputs.as_slice(),
            options.split,
        )?;
        Ok(Pool {
            inputs: Snapshot::of(inputs),
            options,
            table,
            proof,
            positions: Vec::new(alloc),
            jobs: BTreeMap::new(alloc),
            solver: None,
            history: History::new(alloc),
            notes_before: Vec::new(alloc),
            counted: CountedKeys::new(alloc),
            set_aside: Vec::new(alloc),
            last_job: 0,
            place_in_round: 0,
        })
    }

    /// The options that it began with.
    pub fn options(&self) -> Options
        ensures { result ≡ self.now.origin.options }
    {
        self.options
    }

    /// How many inferences were counted.
    pub fn counted(&self) -> u64
        ensures { result ≡ length (replay self.now.origin self.now.history).counted }
    {
        self.counted.len() as u64
    }

    /// The name of the inference at a place among those that were set aside as too heavy.
    pub fn heavy_key(&self, place: u64) -> &Key
        requires { place < length (replay self.now.origin self.now.history).set_aside }
        ensures { slice_get (replay self.now.origin self.now.history).set_aside place ≡ Some result.now }
    {
        &self.set_aside[place as usize]
    }

    /// How the pool ends, or None while there is something to do.
    pub fn outcome(&self) -> Option<Outcome>
        ensures { result ≡ outcome_of (replay self.now.origin self.now.history) }
    {
        if self.proof.ended.is_some() {
            return self.proof.ended;
        }
        if !self.is_at_rest() {
            return None;
        }
        match self.heavy_place() {
            Some(place) => Some(Outcome::Heavy(place as u64)),
            None => Some(Outcome::Saturated),
        }
    }

    /// Whether nothing is to be solved or given, and no job is out.
    fn is_at_rest(&self) -> bool
        ensures { result ≡ is_at_rest (replay self.now.origin self.now.history) }
    {
        !self.must_solve() && self.proof.queue.is_empty() && !self.has_jobs()
    }

    /// Whether a job is out.
    fn has_jobs(&self) -> bool
        ensures { result ≡ not (jobs_out (replay self.now.origin self.now.history) == 0) }
    {
        !self.jobs.is_empty() || self.solver.is_some()
    }

    /// The place of the first inference that was set aside and whose premises live and are awake.
    fn heavy_place(&self) -> Option<usize>
        ensures { let r = replay self.now.origin self.now.history in result ≡ position (is_of_living r) r.set_aside }
    {
        self.set_aside
            .as_slice()
            .iter()
            .position(|key| self.is_of_living(key))
    }

    /// Whether all premises of an inference live and are awake.
    fn is_of_living(&self, key: &Key) -> bool
        ensures { result ≡ is_of_living (replay self.now.origin self.now.history) key.now }
    {
        match key {
            Key::Para { first, second, .. } => self.is_member(*first) && self.is_member(*second),
            Key::Refl { clause, .. } | Key::Factor { clause, .. } | Key::Replaced(clause) => {
                self.is_member(*clause)
            }
        }
    }

    /// Whether the clause of a number lives and is awake.
    pub(crate) fn is_member(&self, number: u32) -> bool
        ensures { let r = replay self.now.origin self.now.history in result ≡ (lives r number && is_awake r number) }
    {
        self.proof.register.is_living(u64::from(number)) && self.proof.is_awake(number)
    }

    /// The events so far. They are lawful, and the pool began with inputs and options as it may.
    pub fn history(&self) -> &History
        ensures events { events_of result.now ≡ self.now.history }
        ensures lawful { IsHistoryOf self.now.origin self.now.history }
        ensures inputs { AreInputs self.now.origin.inputs }
        ensures limit { IsLimit self.now.origin.options }
    {
        &self.history
    }
}
