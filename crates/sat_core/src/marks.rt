// The literals that a conflict has met so far.

ghost use Rattle.std.specs.Prelude.{◌≡◌, ℕ, ◌<◌, [], ◌∷◌, ◌++◌, length, replicate, false, slice_index_or, slice_set, IfOk, IsTrue};
ghost use Rattle.std.specs.List.{list_all};
ghost use Rattle.plain_types.specs.declared.sequence.NameLit.{NameLit as Literal};
ghost use Rattle.plain_types.specs.Names.{has_name};
ghost use Rattle.sat_core.specs.State.{AreMarks, AreCovered, SameLiterals};
ghost use Rattle.sat_core.specs.Conflict.{AreWithin, is_covered};

use plain_types::{Mem, NameLit};
use std::alloc::Global;

/// Literals of different names, and for each name whether it is among them.
#[derive(Drop)]
pub struct Marks {
    pub marked: Vec<bool>,
    pub literals: Vec<NameLit>,
}

impl Marks {
    /// Nothing is marked.
    pub fn new(alloc: Global, names: usize) -> Mem<Marks>
        ensures marks { IfOk result (λ marks. AreMarks marks.marked.items marks.literals.items) }
        ensures names { IfOk result (λ marks. length marks.marked.items ≡ names) }
    {
        Ok(Marks {
            marked: vec![in alloc; false; names]?,
            literals: Vec::new(alloc),
        })
    }

    /// Takes all marks away.
    pub fn clear(&mut self)
        requires { AreCovered self.old.marked.items self.old.literals.items }
        ensures marks { AreMarks self.new.marked.items self.new.literals.items }
        ensures empty { self.new.literals.items ≡ [] }
        ensures names { length self.new.marked.items ≡ length self.old.marked.items }
    {
        while let Some(literal) = self.literals.pop() {
            self.marked[literal.name as usize] = false;
        }
    }

    /// Marks a literal, where none of its name is marked.
    pub fn mark(&mut self, literal: NameLit) -> Mem<()>
        requires marks { AreMarks self.old.marked.items self.old.literals.items }
        requires named { literal.name < length self.old.marked.items }
        requires one_sign { (k : Literal) → IsTrue (has_name k self.old.literals.items) → k.name ≡ literal.name → k ≡ literal }
        ensures marks { IfOk result (λ _. AreMarks self.new.marked.items self.new.literals.items) }
        ensures literals { IfOk result (λ _. SameLiterals self.new.literals.items (literal ∷ self.old.literals.items)) }
        ensures names { IfOk result (λ _. length self.new.marked.items ≡ length self.old.marked.items) }
    {
        if !self.marked[literal.name as usize] {
            self.literals.push(literal)?;
            self.marked[literal.name as usize] = true;
        }
        Ok(())
    }

    /// Whether the literal's name is marked.
    pub fn is_marked(&self, literal: NameLit) -> bool
        requires { literal.name < length self.now.marked.items }
        ensures { result ≡ slice_index_or self.now.marked.items literal.name false }
    {
        self.marked[literal.name as usize]
    }

    /// Takes the mark of a literal's name away, and leaves the list of literals.
    pub fn unmark(&mut self, literal: NameLit)
        requires { literal.name < length self.old.marked.items }
        ensures marked { self.new.marked.items ≡ slice_set self.old.marked.items literal.name false }
        ensures literals { self.new.literals.items ≡ self.old.literals.items }
    {
        self.marked[literal.name as usize] = false;
    }

    /// Whether the literals of a clause but for the one that it implies are marked.
    pub fn have_others(&self, literals: &[NameLit], implied: NameLit) -> bool
        requires { AreWithin (length self.now.marked.items) literals.now }
        ensures { result ≡ list_all (is_covered self.now.marked.items implied) literals.now }
    {
        for literal in literals {
            if !self.is_covered(implied, *literal) {
                return false;
            }
        }
        true
    }

    fn is_covered(&self, implied: NameLit, literal: NameLit) -> bool
        requires { literal.name < length self.now.marked.items }
        ensures { result ≡ is_covered self.now.marked.items implied literal }
    {
        implied == literal || self.is_marked(literal)
    }
}
