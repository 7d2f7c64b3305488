// The parts of a result that is split, in the bank. Here they take memory, before they get their tags.

ghost use Rattle.std.specs.Prelude.{◌≡◌, ◌+◌, ◌≤◌, [], ◌∷◌, ◌++◌, List, All, OnOk, IfOk, length, vec_len, vec_capacity};
ghost use Rattle.fol_base.specs.Clause.{TreeLiteral};
ghost use Rattle.fol_base.specs.Literal.{clause_of};
ghost use Rattle.term_bank.specs.Table.{IsTableOf};
ghost use Rattle.bank_clause.specs.ClauseHash.{clause_hash, literals_hash};
ghost use Rattle.pool_core.specs.Parted.{AreParts, IsFitPart, literals_of_parts};
ghost use Rattle.pool_core.specs.Placing.{KnowsMore};

use bank_clause::{BankClause, UnassertedClause, literals_hash, names_hash};
use fol_base::Clause;
use plain_types::Mem;
use split_parts::PartKey;
use std::alloc::Global;
use std::sync::Wait;
use term_bank::{Bank, Table};

/// A part that is to be registered under its tag.
#[derive(Drop)]
pub struct InternedPart {
    /// The clause without its assertion.
    pub(crate) clause: UnassertedClause,
    /// The hash of its literals.
    pub(crate) hash: u64,
}

impl InternedPart {
    /// The clause under a tag as its assertion, and its hash. It takes no memory.
    pub(crate) fn under(self, tag: u32) -> (BankClause, u64)
        ensures clause { result.0 ≡ record { literals = self.clause.literals; names = tag ∷ [] } }
        ensures hash { self.hash ≡ literals_hash self.clause.literals → result.1 ≡ clause_hash result.0 }
    {
        let hash = names_hash(self.hash, &[tag]);
        (self.clause.asserting(tag), hash)
    }
}

/// The parts of a clause, in order.
#[derive(Drop)]
pub struct InternedParts {
    /// The parts as keys, by which they get their tags.
    pub(crate) keys: Vec<PartKey>,
    pub(crate) clauses: Vec<InternedPart>,
    /// The tags that they got. There is room for one of each part.
    pub(crate) tags: Vec<u32>,
}

impl InternedParts {
    /// Interns the parts of a clause.
    pub(crate) fn of<R: Wait>(
        rt: &R,
        alloc: Global,
        bank: &Bank,
        table: &mut Table,
        parts: &[Clause],
    ) -> Mem<InternedParts>
        requires table { IsTableOf bank.now table.old }
        requires fit { All IsFitPart parts.now }
        ensures table { IsTableOf bank.now table.new }
        ensures knows { KnowsMore table.old table.new }
        ensures made { IfOk result (AreParts bank.now table.new (literals_of_parts parts.now)) }
        ensures tags { IfOk result (λ made. made.tags.items ≡ []) }
        ensures room { IfOk result (λ made. vec_len made.tags + length parts.now ≤ vec_capacity made.tags) }
    {
        let mut made = InternedParts {
            keys: Vec::new(alloc),
            clauses: Vec::new(alloc),
            tags: Vec::with_capacity(alloc, parts.len())?,
        };
        for part in parts {
            made.add(rt, alloc, bank, table, part)?;
        }
        Ok(made)
    }

    /// Interns one more part.
    fn add<R: Wait>(
        &mut self,
        rt: &R,
        alloc: Global,
        bank: &Bank,
        table: &mut Table,
        part: &Clause,
    ) -> Mem<()>
        requires table { IsTableOf bank.now table.old }
        requires fit { IsFitPart part.now }
        ensures table { IsTableOf bank.now table.new }
        ensures knows { KnowsMore table.old table.new }
        ensures added { OnOk result ((lss : List (List TreeLiteral)) → AreParts bank.now table.old lss self.old
            → AreParts bank.now table.new (lss ++ (clause_of part.now).literals ∷ []) self.new) }
        ensures tags { self.new.tags ≡ self.old.tags }
    {
        let key = PartKey::of(alloc, part.literals.as_slice())?;
        let clause = BankClause::of_clause(rt, alloc, bank, table, part)?;
        let hash = literals_hash(clause.literals());
        let clause = UnassertedClause::of(alloc, clause)?;
        self.keys.push(key)?;
        self.clauses.push(InternedPart { clause, hash })?;
        Ok(())
    }
}
