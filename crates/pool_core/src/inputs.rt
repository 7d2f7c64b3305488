// The inputs of a pool: each is made of terms of the bank, finds room and arrives, as the result of a batch does.

ghost use Rattle.std.specs.Prelude.{◌≡◌, ◌≤◌, [], map, IsTrue, OnOk, IfOk};
ghost use Rattle.fol_base.specs.Clause.{clause_size};
ghost use Rattle.fol_base.specs.Canonical.{IsCanonical};
ghost use Rattle.fol_base.specs.Literal.{clause_of};
ghost use Rattle.fol_base.specs.WellFormed.{SymbolUse, are_literals_of};
ghost use Rattle.fol_base.specs.declared.limits.TheConstants.{MOST_SYMBOLS};
ghost use Rattle.term_bank.specs.Table.{IsTableOf};
ghost use Rattle.term_bank.specs.declared.bank.Bank.{Bank};
ghost use Rattle.term_bank.specs.declared.table.Table.{Table};
ghost use Rattle.pool_history.specs.Inputs.{AreInputs};
ghost use Rattle.pool_history.specs.Record.{PoolRecord, nothing_registered};
ghost use Rattle.pool_history.specs.Registering.{with_inputs};
ghost use Rattle.pool_core.specs.Started.{with_input};
ghost use Rattle.pool_core.specs.State.{HasNodes, IsProofStateOf};

use crate::input_parts::input_parts;
use crate::interning::Interned;
use crate::pool::ProofState;
use crate::ready_queue::ReadyQueue;
use crate::splits::Splits;
use crate::tag_index::TagIndex;
use clause_register::Register;
use fol_base::Clause;
use kernel_steps::{Derivation, Line, Step};
use plain_types::Mem;
use std::alloc::Global;
use std::sync::Wait;
use term_bank::{Bank, Table};

impl ProofState {
    /// Nothing is registered.
    fn new(alloc: Global) -> Mem<ProofState>
        ensures empty { IfOk result (λ state. (bank : Bank) (table : Table) → IsProofStateOf bank table state nothing_registered) }
        ensures notes { IfOk result (λ state. state.notes.items ≡ []) }
        ensures nodes { IfOk result (λ state. HasNodes state 0) }
    {
        Ok(ProofState {
            register: Register::new(alloc),
            queue: ReadyQueue::new(alloc)?,
            notes: Vec::new(alloc),
            steps: Vec::new(alloc),
            ended: None,
            splits: Splits::new(alloc),
            asserting: TagIndex::new(alloc),
        })
    }

    /// The inputs have come, in order.
    pub(crate) fn of_inputs<R: Wait>(
        rt: &R,
        alloc: Global,
        bank: &Bank,
        table: &mut Table,
        inputs: &[Clause],
        split: bool,
    ) -> Mem<ProofState>
        requires table { IsTableOf bank.now table.old }
        requires inputs { AreInputs (map clause_of inputs.now) }
        ensures table { OnOk result (IsTableOf bank.now table.new) }
        ensures come { IfOk result (λ state. IsProofStateOf bank.now table.new state
            (with_inputs split 0 (map clause_of inputs.now) nothing_registered)) }
        ensures notes { IfOk result (λ state. state.notes.items ≡ []) }
        ensures nodes { IfOk result (λ state. HasNodes state 0) }
    {
        let mut state = ProofState::new(alloc)?;
        for number in 0..inputs.len() {
            state.take_input(
                rt,
                alloc,
                bank,
                table,
                split,
                number as u64,
                &inputs[number],
            )?;
        }
        Ok(state)
    }

    /// An input comes by the line of its number, unless the empty one came before it: then it costs nothing.
    fn take_input<R: Wait>(
        &mut self,
        rt: &R,
        alloc: Global,
        bank: &Bank,
        table: &mut Table,
        split: bool,
        number: u64,
        input: &Clause,
    ) -> Mem<()>
        requires table { IsTableOf bank.now table.old }
        requires canonical { IsCanonical (clause_of input.now) }
        requires names { input.now.names ≡ [] }
        requires small { clause_size (clause_of input.now) ≤ MOST_SYMBOLS }
        requires formed { (usage : SymbolUse) × IsTrue (are_literals_of usage (clause_of input.now).literals) }
        requires state { (r : PoolRecord) × IsProofStateOf bank.now table.old self.old r }
        ensures table { OnOk result (IsTableOf bank.now table.new) }
        ensures comes { OnOk result ((r : PoolRecord) → IsProofStateOf bank.now table.old self.old r
            → IsProofStateOf bank.now table.new self.new (with_input split number (clause_of input.now) r)) }
        ensures notes { OnOk result (self.new.notes.items ≡ self.old.notes.items) }
        ensures nodes { OnOk result (HasNodes self.old 0 → HasNodes self.new 0) }
    {
        if self.ended.is_some() {
            return Ok(());
        }
        let parts = input_parts(alloc, split, input)?;
        let mut lines = Derivation::new(alloc);
        lines.push(Line {
            step: Step::Clausify(number),
            clause: input.copy(alloc)?,
        })?;
        let interned = Interned::of(rt, alloc, bank, table, lines.as_slice(), parts.as_slice())?;
        self.reserve(interned.demand, 0)?;
        self.arrive(bank, lines, interned);
        Ok(())
    }
}
