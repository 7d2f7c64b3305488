// The clauses and lines that a pool hands out.

ghost use Rattle.std.specs.Prelude.{◌≡◌, map, IfOk};
ghost use Rattle.bank_clause.specs.Clause.{clause_at, AreMembersOf};
ghost use Rattle.kernel_steps.specs.declared.step.Line.{Line};
ghost use Rattle.pool_history.specs.Replay.{replay};
ghost use Rattle.pool_history.specs.Saturated.{member_numbers, members_of};

use crate::pool::Pool;
use bank_clause::{Member, Members};
use kernel_steps::Step;
use plain_types::Mem;
use split_parts::NameTable;
use std::alloc::Global;

impl Pool {
    /// The living awake clauses with their numbers, which rise.
    pub fn members(&self, alloc: Global) -> Mem<Members>
        ensures numbers { IfOk result (λ members. map (λ m. m.number) members ≡ member_numbers (replay self.now.origin self.now.history)) }
        ensures clauses { IfOk result (λ members. map (λ m. clause_at m.clause) members ≡ members_of (replay self.now.origin self.now.history)) }
        ensures of_bank { IfOk result (AreMembersOf self.now.bank) }
    {
        let mut members = Members::new(alloc);
        for number in 0..self.proof.register.len() {
            let number = number as u32;
            if self.is_member(number) {
                let clause = self.proof.register.get(number as usize).clause.copied()?;
                members.push(Member { number, clause })?;
            }
        }
        Ok(members)
    }

    /// The steps of the derivation's lines, in order. A line's clause is its step's conclusion.
    pub fn derivation(&self) -> &[Step]
        ensures { result.now ≡ map (λ (l : Line). l.step) (replay self.now.origin self.now.history).lines }
    {
        self.proof.steps.as_slice()
    }

    /// The parts that were met, with their tags and signed names.
    pub fn parts(&self) -> &NameTable
        ensures { result.now.parts ≡ (replay self.now.origin self.now.history).parts }
    {
        &self.proof.splits.parts
    }
}
