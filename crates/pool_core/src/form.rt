// The forms in which results come: as clauses that are registered, as clauses over names, or in parts. Here they take memory.

ghost use Rattle.std.specs.Prelude.{◌≡◌, ◌+◌, ◌≤◌, ◌<◌, ◌&&◌, [], All, Bool, false, IfOk, length, vec_len, vec_capacity};
ghost use Rattle.plain_types.specs.declared.sequence.NameLit.{NameLit};
ghost use Rattle.fol_base.specs.Clause.{TreeClause, clause_size};
ghost use Rattle.fol_base.specs.Canonical.{IsCanonical};
ghost use Rattle.fol_base.specs.Literal.{clause_of};
ghost use Rattle.fol_base.specs.Subsumption.{assertions};
ghost use Rattle.fol_base.specs.declared.limits.TheConstants.{MOST_SYMBOLS};
ghost use Rattle.term_bank.specs.Table.{IsTableOf};
ghost use Rattle.term_bank.specs.declared.bank.Bank.{Bank};
ghost use Rattle.term_bank.specs.declared.table.Table.{Table};
ghost use Rattle.bank_clause.specs.Clause.{AreAssertions};
ghost use Rattle.pool_history.specs.Registering.{has_none};
ghost use Rattle.pool_core.specs.Demanded.{demand_of};
ghost use Rattle.pool_core.specs.Parted.{IsFitPart};
ghost use Rattle.pool_core.specs.Placing.{AreHandedIn, IsFormOf, IsSplitClause, KnowsMore};

use crate::demand::{Demand, sum};
use crate::parts::InternedParts;
use bank_clause::{BankClause, clause_hash};
use fol_base::Clause;
use plain_types::{Mem, NameLit, Parts};
use split_parts::components;
use std::alloc::Global;
use std::sync::Wait;
use term_bank::{Bank, Table};

/// A clause with its terms in the bank, to be registered, and the hash by which it is found.
#[derive(Drop)]
pub struct InternedClause {
    pub(crate) clause: BankClause,
    pub(crate) hash: u64,
}

/// The tags that a clause asserts, and room for the names of its clause over names.
#[derive(Drop)]
pub struct AssertedTags {
    pub(crate) tags: Vec<u32>,
    pub(crate) names: Vec<NameLit>,
}

/// A clause that falls into parts.
#[derive(Drop)]
pub struct SplitClause {
    /// The places of the literals of each part.
    pub(crate) places: Parts,
    pub(crate) parts: InternedParts,
    pub(crate) asserted: AssertedTags,
    /// Room for the number of the line that defines the name of each part.
    pub(crate) definitions: Vec<u64>,
}

/// How a result comes.
#[derive(Drop)]
pub enum Form {
    /// It is registered, unless an equal clause lives; without literals it refutes.
    Whole(InternedClause),
    /// It has no literals, but assertions, of which a clause over names comes.
    Contradiction(AssertedTags),
    /// Its parts are registered, and a clause over names comes.
    Parts(SplitClause),
}

impl Form {
    /// Makes the form of a clause. The results are its parts where it is split.
    pub(crate) fn of<R: Wait>(
        rt: &R,
        alloc: Global,
        bank: &Bank,
        table: &mut Table,
        clause: &Clause,
        results: &[Clause],
    ) -> Mem<Form>
        requires table { IsTableOf bank.now table.old }
        requires given { (split : Bool) × AreHandedIn split (clause_of clause.now) results.now }
        requires parts { 1 < length results.now → All IsFitPart results.now }
        requires canonical { IsCanonical (clause_of clause.now) }
        requires asserts { AreAssertions clause.now.names }
        requires small { clause_size (clause_of clause.now) ≤ MOST_SYMBOLS }
        ensures table { IsTableOf bank.now table.new }
        ensures knows { KnowsMore table.old table.new }
        ensures made { IfOk result (λ form. (split : Bool) → AreHandedIn split (clause_of clause.now) results.now
            → IsFormOf bank.now table.new split (clause_of clause.now) form) }
    {
        if results.len() > 1 {
            let split = SplitClause::of(rt, alloc, bank, table, clause, results)?;
            return Ok(Form::Parts(split));
        }
        if clause.literals.is_empty() && !clause.names.is_empty() {
            let asserted = AssertedTags::of(alloc, clause.names.as_slice(), 0)?;
            return Ok(Form::Contradiction(asserted));
        }
        let clause = BankClause::of_clause(rt, alloc, bank, table, clause)?;
        let hash = clause_hash(&clause);
        Ok(Form::Whole(InternedClause { clause, hash }))
    }

    /// Whether it is the clause without literals and assertions.
    pub(crate) fn refutes(&self) -> bool
        ensures { (bank : Bank) (table : Table) (split : Bool) (c : TreeClause) → IsFormOf bank table split c self.now
            → result ≡ (has_none c.literals && has_none c.names) }
    {
        match self {
            Form::Whole(whole) => whole.clause.literals().is_empty(),
            Form::Contradiction(_) | Form::Parts(_) => false,
        }
    }

    /// What it may bring, by so many lines.
    pub(crate) fn demand(&self, lines: usize) -> Mem<Demand>
        ensures { IfOk result (λ demand. demand ≡ demand_of lines self.now) }
    {
        match self {
            Form::Whole(whole) => Ok(Demand {
                clauses: 1,
                tags: whole.clause.names().len(),
                lines,
                parts: 0,
                splits: 0,
                names: 0,
            }),
            Form::Contradiction(asserted) => Ok(Demand {
                clauses: 0,
                tags: 0,
                lines,
                parts: 0,
                splits: 1,
                names: asserted.tags.len(),
            }),
            Form::Parts(split) => {
                let count = split.parts.clauses.len();
                Ok(Demand {
                    clauses: count,
                    tags: count,
                    lines: sum(lines, sum(sum(count, count)?, 1)?)?,
                    parts: count,
                    splits: 1,
                    names: sum(split.asserted.tags.len(), count)?,
                })
            }
        }
    }
}

impl AssertedTags {
    /// The tags of assertions, with room for their names and for `more`.
    fn of(alloc: Global, names: &[NameLit], more: usize) -> Mem<AssertedTags>
        requires { All (λ (n : NameLit). n.positive ≡ false) names.now }
        ensures tags { IfOk result (λ made. made.tags.items ≡ assertions names.now) }
        ensures names { IfOk result (λ made. made.names.items ≡ []) }
        ensures room { IfOk result (λ made. vec_len made.names + (length made.tags.items + more) ≤ vec_capacity made.names) }
    {
        let mut tags = Vec::with_capacity(alloc, names.len())?;
        for name in names {
            tags.push(name.name)?;
        }
        let names = Vec::with_capacity(alloc, sum(tags.len(), more)?)?;
        Ok(AssertedTags { tags, names })
    }
}

impl SplitClause {
    /// Makes the parts of a clause that is split, and room for what comes by them.
    fn of<R: Wait>(
        rt: &R,
        alloc: Global,
        bank: &Bank,
        table: &mut Table,
        clause: &Clause,
        results: &[Clause],
    ) -> Mem<SplitClause>
        requires table { IsTableOf bank.now table.old }
        requires given { (split : Bool) × AreHandedIn split (clause_of clause.now) results.now }
        requires several { 1 < length results.now }
        requires parts { All IsFitPart results.now }
        requires asserts { AreAssertions clause.now.names }
        ensures table { IsTableOf bank.now table.new }
        ensures knows { KnowsMore table.old table.new }
        ensures made { IfOk result (λ made. (split : Bool) → AreHandedIn split (clause_of clause.now) results.now
            → IsSplitClause bank.now table.new split (clause_of clause.now) made) }
    {
        let places = components(alloc, clause)?;
        let parts = InternedParts::of(rt, alloc, bank, table, results)?;
        let asserted = AssertedTags::of(alloc, clause.names.as_slice(), results.len())?;
        let definitions = Vec::with_capacity(alloc, results.len())?;
        Ok(SplitClause {
            places,
            parts,
            asserted,
            definitions,
        })
    }
}
