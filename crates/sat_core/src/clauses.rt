// The clauses that are known: those that were handed in, which are borrowed, and those derived from them.

ghost use Rattle.std.specs.Prelude.{◌≡◌, ℕ, ◌<◌, ◌∷◌, ◌++◌, [], length, IfOk, IsTrue};
ghost use Rattle.sat_core.specs.Answer.{IsRightLog};
ghost use Rattle.sat_core.specs.State.{Derives, clause_at};
ghost use Rattle.sat_core.specs.Known.{known, IsKnown};
ghost use Rattle.sat_core.specs.Trimming.{is_trimmed};

use crate::answer::{Link, Log, PropClauses};
use crate::lists::Lists;
use crate::trimming::trimmed;
use plain_types::{Mem, NameLit};
use std::alloc::Global;

/// The clauses that were handed in, then those that were learned, one for each chain of the log.
#[derive(Drop)]
pub struct Clauses<'a> {
    pub inputs: &'a PropClauses,
    pub learned: Lists<NameLit>,
    /// For each learned clause the number of the clause with which its chain begins.
    pub starts: Vec<u64>,
    /// And the links of its chain.
    pub links: Lists<Link>,
}

impl<'a> Clauses<'a> {
    /// The clauses that are handed in.
    pub fn new(alloc: Global, inputs: &'a PropClauses) -> Clauses<'a>
        ensures inputs { result.inputs.now ≡ inputs.now }
        ensures learned { result.learned ≡ [] }
        ensures starts { result.starts.items ≡ [] }
        ensures links { result.links ≡ [] }
    {
        Clauses {
            inputs,
            learned: Lists::new(alloc),
            starts: Vec::new(alloc),
            links: Lists::new(alloc),
        }
    }

    /// How many there are.
    pub fn len(&self) -> usize
        ensures { result ≡ length (known self.now) }
    {
        self.inputs.len() + self.learned.len()
    }

    /// The literals of a clause.
    pub fn literals(&self, number: usize) -> &[NameLit]
        requires { number < length (known self.now) }
        ensures { result.now ≡ clause_at (known self.now) number }
    {
        if number < self.inputs.len() {
            self.inputs.get(number)
        } else {
            self.learned.get(number - self.inputs.len())
        }
    }

    /// Adds a clause and the chain that derives it.
    pub fn learn(&mut self, start: usize, links: &[Link], clause: &[NameLit]) -> Mem<()>
        requires known { IsKnown self.old }
        requires chain { Derives (known self.old) (record { start = start; links = links.now }) clause.now }
        ensures known { IfOk result (λ _. IsKnown self.new) }
        ensures more { IfOk result (λ _. self.new.learned ≡ self.old.learned ++ clause.now ∷ []) }
        ensures inputs { IfOk result (λ _. self.new.inputs.now ≡ self.old.inputs.now) }
    {
        self.learned.push(clause)?;
        self.starts.push(start as u64)?;
        self.links.push(links)?;
        Ok(())
    }

    /// The log of what the chain of the empty clause needs, that chain last.
    pub fn refutation(&mut self, alloc: Global, start: usize, links: &[Link]) -> Mem<Log>
        requires known { IsKnown self.old }
        requires chain { Derives (known self.old) (record { start = start; links = links.now }) [] }
        ensures right { IfOk result (IsRightLog self.old.inputs.now) }
        ensures trimmed { IfOk result (λ log. IsTrue (is_trimmed (length self.old.inputs.now) log)) }
    {
        let empty = [];
        self.learn(start, links, &empty)?;
        trimmed(alloc, self)
    }
}
