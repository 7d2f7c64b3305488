// Results as they come: whole, as a clause over names, or in parts. What is done here takes no memory, since there is room.

ghost use Rattle.std.specs.Prelude.{◌≡◌, ℕ, suc, true, ◌+◌, Bool, List, None, fold, length, map};
ghost use Rattle.fol_base.specs.Clause.{TreeLiteral};
ghost use Rattle.split_parts.specs.Tags.{has_part, tag_of};
ghost use Rattle.term_bank.specs.declared.bank.Bank.{Bank};
ghost use Rattle.term_bank.specs.declared.table.Table.{Table};
ghost use Rattle.pool_history.specs.Counting.{result_comes};
ghost use Rattle.pool_history.specs.Record.{PoolRecord};
ghost use Rattle.pool_history.specs.Registering.{with_part_clause};
ghost use Rattle.pool_core.specs.Demanded.{demand_of, plus};
ghost use Rattle.pool_core.specs.Parted.{AreMet, AreUnasserted, IsUnasserted};
ghost use Rattle.pool_core.specs.Placing.{HasRoom, IsComing, IsSomeComing, outcome_by};
ghost use Rattle.pool_core.specs.State.{HasPlaces, IsProofStateOf};
ghost use Rattle.pool_core.specs.declared.demand.Demand.{Demand};
ghost use Rattle.pool_core.specs.declared.form.Form.TheVariants.{Whole, Contradiction, Parts};

use crate::form::{AssertedTags, InternedClause, SplitClause};
use crate::parts::{InternedPart, InternedParts};
use crate::placing::place_steps;
use crate::pool::ProofState;
use crate::sorting::sort_names;
use kernel_steps::{Derivation, Step};
use plain_types::Numbers;
use pool_history::Outcome;
use term_bank::Bank;

impl ProofState {
    /// A clause that isn't split comes by its lines. One that lives already changes nothing; without literals it refutes.
    pub(crate) fn whole_comes(&mut self, bank: &Bank, lines: Derivation, whole: InternedClause)
        requires open { self.old.ended ≡ None }
        requires coming { IsSomeComing bank.now self.old lines (Whole whole) }
        requires room { HasRoom self.old (demand_of (length lines) (Whole whole)) 0 }
        ensures came { (table : Table) (split : Bool) (r : PoolRecord) → IsComing bank.now table split self.old lines (Whole whole) r
            → IsProofStateOf bank.now table self.new (result_comes split r lines) }
        ensures room { (d : Demand) (deaths : ℕ) → HasRoom self.old (plus (demand_of (length lines) (Whole whole)) d) deaths → HasRoom self.new d deaths }
        ensures notes { self.new.notes.items ≡ self.old.notes.items }
    {
        let InternedClause { clause, hash } = whole;
        if let Some(copy) = self.register.find(&clause, hash) {
            clause.agree(bank, &self.register.get(copy as usize).clause);
            return;
        }
        let refutes = clause.literals().is_empty();
        place_steps(&mut self.steps, &self.register, lines);
        self.ended = outcome_by(refutes);
        let line = self.steps.len() as u64 - 1;
        self.register_new(clause, hash, line);
    }

    /// A clause without literals comes by its lines, under assertions: it gives a clause over names.
    pub(crate) fn contradiction_comes(
        &mut self,
        bank: &Bank,
        lines: Derivation,
        asserted: AssertedTags,
    )
        requires open { self.old.ended ≡ None }
        requires coming { IsSomeComing bank.now self.old lines (Contradiction asserted) }
        requires room { HasRoom self.old (demand_of (length lines) (Contradiction asserted)) 0 }
        ensures came { (table : Table) (split : Bool) (r : PoolRecord) → IsComing bank.now table split self.old lines (Contradiction asserted) r
            → IsProofStateOf bank.now table self.new (result_comes split r lines) }
        ensures room { (d : Demand) (deaths : ℕ) → HasRoom self.old (plus (demand_of (length lines) (Contradiction asserted)) d) deaths
            → HasRoom self.new d deaths }
        ensures notes { self.new.notes.items ≡ self.old.notes.items }
    {
        let AssertedTags { tags, names } = asserted;
        let mut names = names;
        place_steps(&mut self.steps, &self.register, lines);
        self.splits.add_assertions(&tags, &mut names);
        sort_names(&mut names);
        let line = self.steps.len() as u64 - 1;
        self.splits.add_clause(&names, line);
    }

    /// A clause that is split comes by its lines: its parts get their tags, then comes its split line with the clause over names, and the parts
    /// are registered.
    pub(crate) fn split_comes(&mut self, bank: &Bank, lines: Derivation, split: SplitClause)
        requires open { self.old.ended ≡ None }
        requires coming { IsSomeComing bank.now self.old lines (Parts split) }
        requires room { HasRoom self.old (demand_of (length lines) (Parts split)) 0 }
        ensures came { (table : Table) (on : Bool) (r : PoolRecord) → IsComing bank.now table on self.old lines (Parts split) r
            → IsProofStateOf bank.now table self.new (result_comes on r lines) }
        ensures room { (d : Demand) (deaths : ℕ) → HasRoom self.old (plus (demand_of (length lines) (Parts split)) d) deaths → HasRoom self.new d deaths }
        ensures notes { self.new.notes.items ≡ self.old.notes.items }
    {
        let SplitClause {
            places,
            parts,
            asserted,
            definitions,
        } = split;
        let InternedParts {
            keys,
            clauses,
            tags,
        } = parts;
        let AssertedTags {
            tags: asserted,
            names,
        } = asserted;
        let (mut tags, mut names, mut definitions) = (tags, names, definitions);
        place_steps(&mut self.steps, &self.register, lines);
        let parent = self.steps.len() as u64 - 1;
        self.splits.define_parts(&mut self.steps, keys, &mut tags);
        self.splits.add_assertions(&asserted, &mut names);
        self.splits.add_names(&tags, &mut names, &mut definitions);
        sort_names(&mut names);
        let step = Step::Split {
            parent,
            definitions: Numbers::from_vec(definitions),
            parts: places,
        };
        self.splits.add_split(&mut self.steps, step, &names);
        self.register_parts(bank, clauses, tags);
    }

    /// The parts of a clause are registered under their tags, each unless the clause under its tag lives.
    fn register_parts(&mut self, bank: &Bank, parts: Vec<InternedPart>, tags: Vec<u32>)
        requires told { (table : Table) × (r : PoolRecord) × (lss : List (List TreeLiteral)) × AreUnasserted bank.now table lss parts.items
            × AreMet r.parts lss × (tags.items ≡ map (tag_of r.parts) lss) × IsProofStateOf bank.now table self.old r }
        requires room { HasPlaces self.old (length parts.items) (length parts.items) }
        ensures registered { (table : Table) (r : PoolRecord) (lss : List (List TreeLiteral)) → AreUnasserted bank.now table lss parts.items
            → AreMet r.parts lss → tags.items ≡ map (tag_of r.parts) lss → IsProofStateOf bank.now table self.old r
            → IsProofStateOf bank.now table self.new (fold with_part_clause r lss) }
        ensures room { (clauses assertions : ℕ) → HasPlaces self.old (length parts.items + clauses) (length parts.items + assertions)
            → HasPlaces self.new clauses assertions }
        ensures rest { self.new ≡ record self.old { register = self.new.register; queue = self.new.queue; asserting = self.new.asserting } }
    {
        let mut tags = tags.into_iter();
        for part in parts {
            let Some(tag) = tags.next() else {
                unreachable!();
            };
            self.part_comes(bank, part, tag);
        }
    }

    /// A part is registered under its tag, unless that clause lives.
    fn part_comes(&mut self, bank: &Bank, part: InternedPart, tag: u32)
        requires told { (table : Table) × (r : PoolRecord) × (ls : List TreeLiteral) × IsUnasserted bank.now table ls part
            × (tag ≡ tag_of r.parts ls) × (has_part ls r.parts ≡ true) × IsProofStateOf bank.now table self.old r }
        requires room { HasPlaces self.old 1 1 }
        ensures registered { (table : Table) (r : PoolRecord) (ls : List TreeLiteral) → IsUnasserted bank.now table ls part
            → tag ≡ tag_of r.parts ls → has_part ls r.parts ≡ true → IsProofStateOf bank.now table self.old r
            → IsProofStateOf bank.now table self.new (with_part_clause r ls) }
        ensures room { (clauses assertions : ℕ) → HasPlaces self.old (suc clauses) (suc assertions) → HasPlaces self.new clauses assertions }
        ensures rest { self.new ≡ record self.old { register = self.new.register; queue = self.new.queue; asserting = self.new.asserting } }
    {
        let line = self.splits.definition_lines[tag as usize];
        let (clause, hash) = part.under(tag);
        if let Some(copy) = self.register.find(&clause, hash) {
            clause.agree(bank, &self.register.get(copy as usize).clause);
            return;
        }
        self.register_new(clause, hash, line);
    }
}

/// How the pool ends by a clause that refutes, or not.
fn outcome_by(refutes: bool) -> Option<Outcome>
    ensures { result ≡ outcome_by refutes }
{
    if refutes {
        Some(Outcome::Refuted)
    } else {
        None
    }
}
