// A clause that falls into parts: the tags of the parts, the split line, and the clause over names. What is done here takes no memory, since
// there is room.

ghost use Rattle.std.specs.Prelude.{◌≡◌, ℕ, suc, ◌+◌, ◌*◌, ◌<◌, ◌≤◌, ◌++◌, All, false, fold, get_or, length, map, vec_len, vec_capacity};
ghost use Rattle.plain_types.specs.Names.{opposite};
ghost use Rattle.kernel_steps.specs.Derivation.{introduces_name};
ghost use Rattle.split_parts.specs.PartKeys.{key_part};
ghost use Rattle.split_parts.specs.Tags.{tag_of};
ghost use Rattle.pool_history.specs.Record.{PoolRecord};
ghost use Rattle.pool_history.specs.Registering.{with_split, with_tag};
ghost use Rattle.pool_history.specs.Tags.{name_of_tag};
ghost use Rattle.pool_core.specs.Splits.{AreStepsAndSplitsOf, HasClauseRoom, HasPartRoom, split_view};

use crate::splits::Splits;
use kernel_steps::Step;
use plain_types::{NameLit, opposite};
use split_parts::PartKey;

impl Splits {
    /// The tags of parts, in order.
    pub(crate) fn define_parts(
        &mut self,
        steps: &mut Vec<Step>,
        parts: Vec<PartKey>,
        tags: &mut Vec<u32>,
    )
        requires room { HasPartRoom self.old (length parts.items) }
        requires steps_room { vec_len steps.old + 2 * length parts.items ≤ vec_capacity steps.old }
        requires tags_room { vec_len tags.old + length parts.items ≤ vec_capacity tags.old }
        requires told { (r : PoolRecord) × AreStepsAndSplitsOf (split_view self.old) steps.old.items r }
        ensures defined { (r : PoolRecord) → AreStepsAndSplitsOf (split_view self.old) steps.old.items r
            → AreStepsAndSplitsOf (split_view self.new) steps.new.items (fold with_tag r (map key_part parts.items)) }
        ensures tags { tags.new.items ≡ tags.old.items ++ map (λ part. tag_of self.new.parts.parts (key_part part)) parts.items }
        ensures part_room { (more : ℕ) → HasPartRoom self.old (length parts.items + more) → HasPartRoom self.new more }
        ensures clause_room { (clauses literals : ℕ) → HasClauseRoom self.old clauses literals → HasClauseRoom self.new clauses literals }
        ensures steps_len { vec_len steps.new ≤ vec_len steps.old + 2 * length parts.items }
        ensures steps_capacity { vec_capacity steps.new ≡ vec_capacity steps.old }
    {
        for part in parts {
            let tag = self.define(steps, part);
            tags.push_reserved(tag);
        }
    }

    /// Adds the signed names of tags, and the numbers of the lines that introduce them.
    pub(crate) fn add_names(&self, tags: &[u32], names: &mut Vec<NameLit>, lines: &mut Vec<u64>)
        requires tags { All (λ tag. tag < length self.now.parts.parts) tags.now }
        requires told { length self.now.definition_lines.items ≡ length self.now.parts.parts }
        requires names_room { vec_len names.old + length tags.now ≤ vec_capacity names.old }
        requires lines_room { vec_len lines.old + length tags.now ≤ vec_capacity lines.old }
        ensures names { names.new.items ≡ names.old.items ++ map (name_of_tag self.now.parts.parts) tags.now }
        ensures lines { lines.new.items ≡ lines.old.items ++ map (λ tag. get_or self.now.definition_lines.items tag 0) tags.now }
    {
        for tag in tags {
            names.push_reserved(self.parts.signed(*tag));
            lines.push_reserved(self.definition_lines[*tag as usize]);
        }
    }

    /// Adds the opposites of the signed names of asserted tags, as a line has them.
    pub(crate) fn add_assertions(&self, tags: &[u32], names: &mut Vec<NameLit>)
        requires tags { All (λ tag. tag < length self.now.parts.parts) tags.now }
        requires room { vec_len names.old + length tags.now ≤ vec_capacity names.old }
        ensures names { names.new.items ≡ names.old.items ++ map (λ tag. opposite (name_of_tag self.now.parts.parts tag)) tags.now }
        ensures len { vec_len names.new ≡ vec_len names.old + length tags.now }
        ensures capacity { vec_capacity names.new ≡ vec_capacity names.old }
    {
        for tag in tags {
            names.push_reserved(opposite(self.parts.signed(*tag)));
        }
    }

    /// A split line comes, and its clause over names.
    pub(crate) fn add_split(&mut self, steps: &mut Vec<Step>, step: Step, names: &[NameLit])
        requires room { HasClauseRoom self.old 1 (length names.now) }
        requires steps_room { vec_len steps.old < vec_capacity steps.old }
        requires plain { introduces_name step ≡ false }
        ensures split { (r : PoolRecord) → AreStepsAndSplitsOf (split_view self.old) steps.old.items r
            → AreStepsAndSplitsOf (split_view self.new) steps.new.items (with_split step names.now r) }
        ensures room { (clauses literals : ℕ) → HasClauseRoom self.old (suc clauses) (length names.now + literals) → HasClauseRoom self.new clauses literals }
        ensures parts { (parts : ℕ) → HasPartRoom self.old parts → HasPartRoom self.new parts }
        ensures steps_len { vec_len steps.new ≡ vec_len steps.old + 1 }
        ensures steps_capacity { vec_capacity steps.new ≡ vec_capacity steps.old }
    {
        let line = steps.len() as u64;
        steps.push_reserved(step);
        self.add_clause(names, line);
    }
}
