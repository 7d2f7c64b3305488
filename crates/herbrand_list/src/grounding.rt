// Ground clauses as propositional clauses whose names are equations between nodes.

ghost use Rattle.std.specs.Prelude.{◌≡◌, ◌<◌, nat_lt, length, map, IfOk, IfSome, IsTrue};
ghost use Rattle.fol_base.specs.Ground.{is_ground_literal, is_ground_clause};
ghost use Rattle.fol_base.specs.Literal.{literal_of};
ghost use Rattle.congruence.specs.Congruence.{equation_at, is_between};
ghost use Rattle.herbrand_list.specs.Refuted.{ground_clauses, are_ground_clauses};
ghost use Rattle.herbrand_list.specs.Nodes.{AreAtoms, IsGrown, IsNameOf, AreNamesOf, AreClausesOf};

use crate::terms::TermNodes;
use congruence::Equation;
use fol_base::{Clause, Literal};
use indexmap::IndexMap;
use plain_types::{Mem, NameLit, NoMemory};
use sat_core::PropClauses;
use std::alloc::Global;

/// The most equations.
const MOST_ATOMS: usize = u32::MAX as usize;

/// Nodes, and equations between them: the name of an equation is its number. An equation that came before has its name again, by a table
/// that is looked up and tested.
#[derive(Drop)]
pub(crate) struct Grounding {
    pub terms: TermNodes,
    pub atoms: Vec<Equation>,
    /// The name of an equation by its sides.
    known: IndexMap<u64, u32>,
}

impl Grounding {
    /// No equations.
    pub fn new(alloc: Global) -> Mem<Grounding>
        ensures { IfOk result (λ g. AreAtoms g.terms.nodes.items g.atoms.items) }
    {
        Ok(Grounding {
            terms: TermNodes::new(alloc)?,
            atoms: Vec::new(alloc),
            known: IndexMap::new(alloc),
        })
    }

    /// The propositional clauses of ground clauses, in order.
    pub fn clauses(&mut self, alloc: Global, list: &[Clause]) -> Mem<PropClauses>
        requires no_variables { IsTrue (are_ground_clauses (ground_clauses list.now)) }
        requires atoms { AreAtoms self.old.terms.nodes.items self.old.atoms.items }
        ensures clauses { IfOk result (λ clauses. AreClausesOf self.new.terms.nodes.items self.new.atoms.items (ground_clauses list.now) clauses) }
        ensures atoms { IfOk result (λ _. AreAtoms self.new.terms.nodes.items self.new.atoms.items) }
    {
        let mut clauses = PropClauses::new(alloc);
        for clause in list {
            let names = self.clause(alloc, clause.literals.as_slice())?;
            clauses.push(names.as_slice())?;
        }
        Ok(clauses)
    }

    /// The names of a clause's literals, in order.
    fn clause(&mut self, alloc: Global, literals: &[Literal]) -> Mem<Vec<NameLit>>
        requires no_variables { IsTrue (is_ground_clause (map literal_of literals.now)) }
        requires atoms { AreAtoms self.old.terms.nodes.items self.old.atoms.items }
        ensures names { IfOk result (λ names. AreNamesOf self.new.terms.nodes.items self.new.atoms.items (map literal_of literals.now) names.items) }
        ensures nodes { IfOk result (λ _. IsGrown self.old.terms.nodes.items self.new.terms.nodes.items) }
        ensures equations { IfOk result (λ _. IsGrown self.old.atoms.items self.new.atoms.items) }
        ensures atoms { IfOk result (λ _. AreAtoms self.new.terms.nodes.items self.new.atoms.items) }
    {
        let mut names = Vec::with_capacity(alloc, literals.len())?;
        for literal in literals {
            let name = self.literal(alloc, literal)?;
            names.push(name)?;
        }
        Ok(names)
    }

    /// The name of a literal.
    fn literal(&mut self, alloc: Global, literal: &Literal) -> Mem<NameLit>
        requires no_variables { IsTrue (is_ground_literal (literal_of literal.now)) }
        requires atoms { AreAtoms self.old.terms.nodes.items self.old.atoms.items }
        ensures name { IfOk result (IsNameOf self.new.terms.nodes.items self.new.atoms.items (literal_of literal.now)) }
        ensures nodes { IfOk result (λ _. IsGrown self.old.terms.nodes.items self.new.terms.nodes.items) }
        ensures equations { IfOk result (λ _. IsGrown self.old.atoms.items self.new.atoms.items) }
        ensures atoms { IfOk result (λ _. AreAtoms self.new.terms.nodes.items self.new.atoms.items) }
    {
        let left = self.terms.number(alloc, &literal.left)?;
        let right = self.terms.number(alloc, &literal.right)?;
        let name = self.name(Equation { left, right })?;
        let positive = literal.positive;
        Ok(NameLit { positive, name })
    }

    /// The name of an equation.
    fn name(&mut self, equation: Equation) -> Mem<u32>
        requires between { IsTrue (is_between self.old.terms.nodes.items equation) }
        requires atoms { AreAtoms self.old.terms.nodes.items self.old.atoms.items }
        ensures within { IfOk result (λ name. name < length self.new.atoms.items) }
        ensures equation { IfOk result (λ name. equation_at self.new.atoms.items name ≡ equation) }
        ensures nodes { self.new.terms ≡ self.old.terms }
        ensures equations { IfOk result (λ _. IsGrown self.old.atoms.items self.new.atoms.items) }
        ensures atoms { IfOk result (λ _. AreAtoms self.new.terms.nodes.items self.new.atoms.items) }
    {
        let key = (u64::from(equation.left) << 32) | u64::from(equation.right);
        if let Some(name) = self.find(key, equation) {
            return Ok(name);
        }
        if self.atoms.len() >= MOST_ATOMS {
            return Err(NoMemory);
        }
        let name = self.atoms.len() as u32;
        self.known.insert(key, name)?;
        self.atoms.push(equation)?;
        Ok(name)
    }

    /// The name of an equation, where the table has it.
    fn find(&self, key: u64, equation: Equation) -> Option<u32>
        ensures within { IfSome result (λ name. name < length self.now.atoms.items) }
        ensures equation { IfSome result (λ name. equation_at self.now.atoms.items name ≡ equation) }
    {
        let name = self.known.get(&key).copied()?;
        let place = name as usize;
        if place < self.atoms.len() && is_same(self.atoms[place], equation) {
            return Some(name);
        }
        None
    }
}

/// Whether two equations have the same sides.
fn is_same(first: Equation, second: Equation) -> bool
    ensures { IsTrue result → first ≡ second }
{
    first.left == second.left && first.right == second.right
}
