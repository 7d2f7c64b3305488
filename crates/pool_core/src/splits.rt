// What a pool keeps of splitting: the parts with their tags, the clauses over names, and the last model.

ghost use Rattle.std.specs.Prelude.{◌≡◌, ℕ, Bool, List, OnOk, suc, ◌+◌, ◌<◌, ◌≤◌, [], ◌∷◌, ◌++◌, if◌then◌else◌, ◌==◌, get_or, length, vec_len, vec_capacity};
ghost use Rattle.fol_base.specs.Clause.{TreeLiteral};
ghost use Rattle.kernel_steps.specs.declared.step.Line.{Line};
ghost use Rattle.kernel_steps.specs.declared.step.Step.TheVariants.{Component, Opposite};
ghost use Rattle.split_parts.specs.PartKeys.{key_part};
ghost use Rattle.split_parts.specs.Tags.{tag_of, with_part};
ghost use Rattle.pool_history.specs.Record.{PoolRecord, PropositionalClause};
ghost use Rattle.pool_history.specs.Registering.{with_tag};
ghost use Rattle.pool_core.specs.Splits.{AreSplitsOf, AreStepsAndSplitsOf, HasClauseRoom, HasPartRoom, split_view};

use kernel_steps::Step;
use plain_types::{Mem, NameLit};
use sat_core::{PropClauseBuffer, Truths};
use split_parts::{NameTable, PartKey};
use std::alloc::Global;

/// What a pool keeps of splitting.
#[derive(Drop)]
pub struct Splits {
    /// The parts, with their tags and signed names.
    pub(crate) parts: NameTable,
    /// The number of the component line of each name.
    pub(crate) component_lines: Vec<u64>,
    /// For each tag the number of the line that introduces its signed name.
    pub(crate) definition_lines: Vec<u64>,
    /// The clauses over names, and the numbers of their lines.
    pub(crate) propositional: PropClauseBuffer,
    pub(crate) propositional_lines: Vec<u64>,
    /// Truth values of names. They are a model of the first `modelled` clauses over names.
    pub(crate) model: Truths,
    pub(crate) modelled: usize,
}

impl Splits {
    /// Nothing is split. It takes no memory.
    pub(crate) fn new(alloc: Global) -> Splits
        ensures { AreSplitsOf (split_view result) [] [] [] [] 0 }
    {
        Splits {
            parts: NameTable::new(alloc),
            component_lines: Vec::new(alloc),
            definition_lines: Vec::new(alloc),
            propositional: PropClauseBuffer::new(alloc),
            propositional_lines: Vec::new(alloc),
            model: Truths::new(alloc),
            modelled: 0,
        }
    }

    /// Makes room for parts, for clauses over names and for their literals. What is kept stays as it is.
    pub(crate) fn reserve(&mut self, parts: usize, clauses: usize, literals: usize) -> Mem<()>
        ensures same { split_view self.new ≡ split_view self.old }
        ensures parts { OnOk result (HasPartRoom self.new parts) }
        ensures clauses { OnOk result (HasClauseRoom self.new clauses literals) }
    {
        self.parts.reserve(parts)?;
        self.component_lines.reserve(parts)?;
        self.definition_lines.reserve(parts)?;
        self.propositional.reserve(clauses, literals)?;
        self.propositional_lines.reserve(clauses)?;
        Ok(())
    }

    /// A clause over names comes, by the line of that number. There is room, so it takes no memory.
    pub(crate) fn add_clause(&mut self, names: &[NameLit], line: u64)
        requires room { HasClauseRoom self.old 1 (length names.now) }
        ensures added { (parts : List (List TreeLiteral)) (lines : List Line) (clauses : List PropositionalClause) (model : List Bool) (modelled : ℕ)
            → AreSplitsOf (split_view self.old) parts lines clauses model modelled
            → AreSplitsOf (split_view self.new) parts lines (clauses ++ record { names = names.now; line = line } ∷ []) model modelled }
        ensures room { (clauses literals : ℕ) → HasClauseRoom self.old (suc clauses) (length names.now + literals) → HasClauseRoom self.new clauses literals }
        ensures parts { (parts : ℕ) → HasPartRoom self.old parts → HasPartRoom self.new parts }
    {
        self.propositional.push_reserved(names);
        self.propositional_lines.push_reserved(line);
    }

    /// The tag of a part. A new part brings the lines that introduce its signed name. There is room for them, so it takes no memory.
    pub(crate) fn define(&mut self, steps: &mut Vec<Step>, part: PartKey) -> u32
        requires room { HasPartRoom self.old 1 }
        requires steps_room { vec_len steps.old + 2 ≤ vec_capacity steps.old }
        requires told { (r : PoolRecord) × AreStepsAndSplitsOf (split_view self.old) steps.old.items r }
        ensures added { self.new.parts.parts ≡ with_part self.old.parts.parts (key_part part) }
        ensures tag { result ≡ tag_of self.new.parts.parts (key_part part) }
        ensures defined { (r : PoolRecord) → AreStepsAndSplitsOf (split_view self.old) steps.old.items r
            → AreStepsAndSplitsOf (split_view self.new) steps.new.items (with_tag r (key_part part)) }
        ensures room { (more : ℕ) → HasPartRoom self.old (suc more) → HasPartRoom self.new more }
        ensures steps_len { vec_len steps.new ≤ vec_len steps.old + 2 }
        ensures steps_capacity { vec_capacity steps.new ≡ vec_capacity steps.old }
        ensures clause_room { (clauses literals : ℕ) → HasClauseRoom self.old clauses literals → HasClauseRoom self.new clauses literals }
    {
        let names = self.parts.names();
        let (tag, is_new) = self.parts.put(part);
        if is_new {
            let signed = self.parts.signed(tag);
            note_component(&mut self.component_lines, steps, signed.name, names);
            let line = definition_line(&self.component_lines, steps, signed);
            self.definition_lines.push_reserved(line);
        }
        tag
    }
}

/// A name that is the next one comes with its component line; one that is there has it. There is room.
fn note_component(lines: &mut Vec<u64>, steps: &mut Vec<Step>, name: u32, names: u32)
    requires room { vec_len lines.old < vec_capacity lines.old }
    requires steps_room { vec_len steps.old < vec_capacity steps.old }
    ensures lines { lines.new.items ≡ (if name == names then lines.old.items ++ length steps.old.items ∷ [] else lines.old.items) }
    ensures steps { steps.new.items ≡ (if name == names then steps.old.items ++ Component name ∷ [] else steps.old.items) }
    ensures len { vec_len lines.new ≤ vec_len lines.old + 1 }
    ensures capacity { vec_capacity lines.new ≡ vec_capacity lines.old }
    ensures steps_len { vec_len steps.new ≤ vec_len steps.old + 1 }
    ensures steps_capacity { vec_capacity steps.new ≡ vec_capacity steps.old }
{
    if name == names {
        lines.push_reserved(steps.len() as u64);
        steps.push_reserved(Step::Component(name));
    }
}

/// The number of the line that introduces the signed name of a new part. A positive one has its component line; a negative one gets an
/// opposite line, for which there is room.
fn definition_line(lines: &[u64], steps: &mut Vec<Step>, signed: NameLit) -> u64
    requires there { signed.name < length lines.now }
    requires steps_room { vec_len steps.old < vec_capacity steps.old }
    ensures number { result ≡ (if signed.positive then get_or lines.now signed.name 0 else length steps.old.items) }
    ensures steps { steps.new.items ≡ (if signed.positive then steps.old.items else steps.old.items ++ Opposite signed.name ∷ []) }
    ensures steps_len { vec_len steps.new ≤ vec_len steps.old + 1 }
    ensures steps_capacity { vec_capacity steps.new ≡ vec_capacity steps.old }
{
    if signed.positive {
        return lines[signed.name as usize];
    }
    let line = steps.len() as u64;
    steps.push_reserved(Step::Opposite(signed.name));
    line
}
