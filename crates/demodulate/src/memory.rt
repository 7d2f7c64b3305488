// What is remembered from one reduction to the next.

ghost use Rattle.std.specs.Prelude.{◌≡◌, ℕ, IfOk, IsTrue, List, Option};
ghost use Rattle.bank_clause.specs.declared.member.Member.{Member};
ghost use Rattle.demodulate.specs.Memory.{Remembers};

use plain_types::Mem;
use rewriting::NormalTerms;
use std::alloc::Global;

/// Terms that no unit rewrites, in clauses with the same assertions. It serves as long as the clauses stay that may be used.
#[derive(Drop)]
pub struct Memory {
    /// The numbers of the names that the clauses assert.
    pub(crate) asserted: Vec<u32>,
    pub(crate) normal: NormalTerms,
}

impl Memory {
    /// Nothing is remembered.
    pub fn new(alloc: Global) -> Memory
        ensures { (equations : List Member) (out : Option ℕ) → Remembers equations out result }
    {
        Memory {
            asserted: Vec::new(alloc),
            normal: NormalTerms::new(alloc),
        }
    }

    /// Begins with a clause that has these assertions: what is remembered of clauses with others is forgotten.
    pub(crate) fn begin(&mut self, asserted: &[u32]) -> Mem<()>
        ensures remembers { (equations : List Member) (out : Option ℕ) → Remembers equations out self.old → Remembers equations out self.new }
        ensures asserted { IfOk result (λ _. self.new.asserted.items ≡ asserted.now) }
    {
        if are_same(self.asserted.as_slice(), asserted) {
            return Ok(());
        }
        self.normal.clear();
        self.asserted.clear();
        self.asserted.extend_from_slice(asserted)?;
        Ok(())
    }
}

/// Whether two lists of numbers are equal.
fn are_same(numbers: &[u32], others: &[u32]) -> bool
    ensures { IsTrue result → numbers.now ≡ others.now }
{
    numbers == others
}
