// A clause is registered: it gets the next number, its assertions are noted by their tags, and it stands in the queue where it is awake. It takes
// no memory, since there is room.

ghost use Rattle.std.specs.Prelude.{◌≡◌, ℕ, suc, ◌+◌, ◌<◌, All, None, false, length, position};
ghost use Rattle.term_bank.specs.Literal.{AreLiteralsOf};
ghost use Rattle.term_bank.specs.declared.bank.Bank.{Bank};
ghost use Rattle.term_bank.specs.declared.table.Table.{Table};
ghost use Rattle.bank_clause.specs.Clause.{IsKnown, clause_at};
ghost use Rattle.bank_clause.specs.ClauseHash.{clause_hash};
ghost use Rattle.pool_history.specs.Record.{PoolRecord};
ghost use Rattle.pool_history.specs.Registering.{has_none, registered_by};
ghost use Rattle.clause_register.specs.Register.{is_living_copy};
ghost use Rattle.pool_core.specs.State.{HasPlaces, IsProofStateOf};

use crate::pool::ProofState;
use bank_clause::BankClause;

impl ProofState {
    /// Registers a clause of which no living one is a copy, by the line of that number. Its hash is told.
    pub(crate) fn register_new(&mut self, clause: BankClause, hash: u64, line: u64)
        requires told { (bank : Bank) × (table : Table) × (r : PoolRecord) × IsProofStateOf bank table self.old r }
        requires hash { hash ≡ clause_hash clause }
        requires new { position (is_living_copy clause) self.old.register.clauses ≡ None }
        requires tags { All (λ tag. tag < length self.old.splits.parts.parts) clause.names }
        requires room { HasPlaces self.old 1 (length clause.names) }
        ensures registered { (bank : Bank) (table : Table) (r : PoolRecord) → AreLiteralsOf bank clause.literals → All (IsKnown table) clause.literals
            → (r.ended ≡ None → has_none (clause_at clause).literals ≡ false) → IsProofStateOf bank table self.old r
            → IsProofStateOf bank table self.new (registered_by line (clause_at clause) r) }
        ensures room { (clauses assertions : ℕ) → HasPlaces self.old (suc clauses) (length clause.names + assertions)
            → HasPlaces self.new clauses assertions }
        ensures rest { self.new ≡ record self.old {
          register = self.new.register;
          queue = self.new.queue;
          asserting = self.new.asserting;
        } }
    {
        let number = self.register.len() as u32;
        let size = clause.size();
        let is_awake = self.splits.are_true(clause.names());
        self.asserting.add(clause.names(), number);
        self.register.push(clause, hash, line);
        if is_awake {
            self.queue.push(number, size);
        }
    }
}
