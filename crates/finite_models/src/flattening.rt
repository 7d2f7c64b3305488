// From the literals of a clause to flat ones, in one walk.

ghost use Rattle.std.specs.Prelude.{◌≡◌, ◌+◌, ◌++◌, [], ◌∷◌, map, sum_by, IfOk};
ghost use Rattle.fol_base.specs.Tree.{trees_of};
ghost use Rattle.fol_base.specs.Term.{tree_of};
ghost use Rattle.fol_base.specs.Literal.{literal_of, clause_of};
ghost use Rattle.finite_models.specs.declared.flat.FlatLiteral.TheVariants.{Entry};
ghost use Rattle.finite_models.specs.Measure.{occurrences, all_occurrences};
ghost use Rattle.finite_models.specs.Flattening.{
  term_slot,
  terms_slots,
  term_literals,
  terms_literals,
  headed_literals,
  equation_literals,
  equation_slots,
  atom_literals,
  atom_slots,
  literal_flattened,
  literal_slots,
  literals_flattened,
  flat_clause,
};

use crate::flat::{FlatClause, FlatClauses, FlatLiteral, FlatLiterals, Slots};
use fol_base::{Clause, Literal, TRUE_SYMBOL, Term, Terms};
use plain_types::{Mem, NoMemory};
use std::alloc::Global;

/// A clause that is being flattened: the literals so far, and the next free slot.
#[derive(Drop)]
struct Flattening {
    literals: Vec<FlatLiteral>,
    next: u32,
}

impl Flattening {
    /// The slot of a term, with the literals that tie the slots of the terms in it to their values.
    #[cycle(flatten)]
    fn term(&mut self, alloc: Global, term: &Term) -> Mem<u32>
        ensures slot { IfOk result (λ slot. slot ≡ term_slot self.old.next (tree_of term.now)) }
        ensures next { IfOk result (λ _. self.new.next ≡ self.old.next + occurrences (tree_of term.now)) }
        ensures literals { IfOk result (λ _. self.new.literals.items ≡ self.old.literals.items ++ term_literals self.old.next (tree_of term.now)) }
    {
        match term {
            Term::Var(variable) => Ok(*variable),
            Term::App(symbol, arguments) => {
                let arguments = self.terms(alloc, arguments)?;
                let slot = self.next;
                self.next = slot.checked_add(1).ok_or(NoMemory)?;
                self.push_entry(alloc, false, *symbol, slot, arguments.as_slice())?;
                Ok(slot)
            }
        }
    }

    /// The slots of terms, in order.
    #[cycle(flatten)]
    fn terms(&mut self, alloc: Global, terms: &Terms) -> Mem<Vec<u32>>
        ensures slots { IfOk result (λ slots. slots.items ≡ terms_slots self.old.next (trees_of terms.now)) }
        ensures next { IfOk result (λ _. self.new.next ≡ self.old.next + all_occurrences (trees_of terms.now)) }
        ensures literals { IfOk result (λ _. self.new.literals.items ≡ self.old.literals.items ++ terms_literals self.old.next (trees_of terms.now)) }
    {
        let mut slots = Vec::new(alloc);
        for term in terms.as_slice() {
            let slot = self.term(alloc, term)?;
            slots.push(slot)?;
        }
        Ok(slots)
    }

    /// Adds the literal that a function has, or hasn't, a slot's value at the arguments in slots.
    fn push_entry(
        &mut self,
        alloc: Global,
        positive: bool,
        symbol: u32,
        value: u32,
        arguments: &[u32],
    ) -> Mem<()>
        ensures next { self.new.next ≡ self.old.next }
        ensures literals { IfOk result (λ _. self.new.literals.items
            ≡ self.old.literals.items ++ Entry positive symbol (value ∷ arguments.now) ∷ []) }
    {
        let mut slots = Vec::with_capacity(alloc, arguments.len())?;
        slots.push(value)?;
        slots.extend_from_slice(arguments)?;
        self.literals.push(FlatLiteral::Entry {
            positive,
            symbol,
            slots: Slots::from_vec(slots),
        })?;
        Ok(())
    }

    /// Adds the literal that a function term is, or isn't, equal to another term.
    fn headed(
        &mut self,
        alloc: Global,
        positive: bool,
        symbol: u32,
        arguments: &Terms,
        other: &Term,
    ) -> Mem<()>
        ensures next { IfOk result (λ _. self.new.next ≡ self.old.next + (all_occurrences (trees_of arguments.now) + occurrences (tree_of other.now))) }
        ensures literals { IfOk result (λ _. self.new.literals.items
            ≡ self.old.literals.items ++ headed_literals self.old.next positive symbol (trees_of arguments.now) (tree_of other.now)) }
    {
        let arguments = self.terms(alloc, arguments)?;
        let value = self.term(alloc, other)?;
        self.push_entry(alloc, positive, symbol, value, arguments.as_slice())?;
        Ok(())
    }

    /// Adds an equation between function terms, or its negation.
    fn equation(&mut self, alloc: Global, positive: bool, left: &Term, right: &Term) -> Mem<()>
        ensures next { IfOk result (λ _. self.new.next ≡ self.old.next + equation_slots (tree_of left.now) (tree_of right.now)) }
        ensures literals { IfOk result (λ _. self.new.literals.items
            ≡ self.old.literals.items ++ equation_literals self.old.next positive (tree_of left.now) (tree_of right.now)) }
    {
        match left {
            Term::App(symbol, arguments) => self.headed(alloc, positive, *symbol, arguments, right),
            Term::Var(x) => match right {
                Term::App(symbol, arguments) => {
                    self.headed(alloc, positive, *symbol, arguments, left)
                }
                Term::Var(y) => Ok(
                    self.literals.push(FlatLiteral::Same {
                        positive,
                        left: *x,
                        right: *y,
                    })?,
                ),
            },
        }
    }

    /// Adds an atom or `$true`, or its negation.
    fn atom(&mut self, alloc: Global, positive: bool, atom: &Term) -> Mem<()>
        ensures next { IfOk result (λ _. self.new.next ≡ self.old.next + atom_slots (tree_of atom.now)) }
        ensures literals { IfOk result (λ _. self.new.literals.items ≡ self.old.literals.items ++ atom_literals self.old.next positive (tree_of atom.now)) }
    {
        match atom {
            Term::Var(_) => Ok(self.literals.push(FlatLiteral::Constant(false))?),
            Term::App(symbol, arguments) => {
                if *symbol == TRUE_SYMBOL {
                    return Ok(self.literals.push(FlatLiteral::Constant(positive))?);
                }
                let slots = self.terms(alloc, arguments)?;
                Ok(
                    self.literals.push(FlatLiteral::Entry {
                        positive,
                        symbol: *symbol,
                        slots: Slots::from_vec(slots),
                    })?,
                )
            }
        }
    }

    /// Adds a literal.
    fn literal(&mut self, alloc: Global, literal: &Literal) -> Mem<()>
        ensures next { IfOk result (λ _. self.new.next ≡ self.old.next + literal_slots (literal_of literal.now)) }
        ensures literals { IfOk result (λ _. self.new.literals.items ≡ self.old.literals.items ++ literal_flattened self.old.next (literal_of literal.now)) }
    {
        if literal.right.is_truth() {
            self.atom(alloc, literal.positive, &literal.left)
        } else {
            self.equation(alloc, literal.positive, &literal.left, &literal.right)
        }
    }

    /// Adds literals.
    fn literals(&mut self, alloc: Global, literals: &[Literal]) -> Mem<()>
        ensures next { IfOk result (λ _. self.new.next ≡ self.old.next + sum_by literal_slots (map literal_of literals.now)) }
        ensures literals { IfOk result (λ _. self.new.literals.items ≡ self.old.literals.items ++ literals_flattened self.old.next (map literal_of literals.now)) }
    {
        for literal in literals {
            self.literal(alloc, literal)?;
        }
        Ok(())
    }
}

/// A clause, flat.
fn flattened(alloc: Global, clause: &Clause) -> Mem<FlatClause>
    ensures { IfOk result (λ flat. flat ≡ flat_clause (clause_of clause.now)) }
{
    let next = u32::try_from(clause.variable_bound()).map_err(|_| NoMemory)?;
    let mut flattening = Flattening {
        literals: Vec::new(alloc),
        next,
    };
    flattening.literals(alloc, clause.literals.as_slice())?;
    let Flattening { literals, next } = flattening;
    Ok(FlatClause {
        slots: next,
        literals: FlatLiterals::from_vec(literals),
    })
}

/// Clauses, flat, in order.
pub(crate) fn all_flattened(alloc: Global, clauses: &[Clause]) -> Mem<FlatClauses>
    ensures { IfOk result (λ flat. flat ≡ map flat_clause (map clause_of clauses.now)) }
{
    let mut flat = Vec::with_capacity(alloc, clauses.len())?;
    for clause in clauses {
        flat.push(flattened(alloc, clause)?)?;
    }
    Ok(FlatClauses::from_vec(flat))
}
