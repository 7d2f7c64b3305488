// Literals and clauses.

ghost use Rattle.std.specs.Prelude.{◌≡◌, [], ◌∷◌, ◌++◌, map, take, length, IfOk, OnErr};
ghost use Rattle.fol_base.specs.Literal.{literal_of, clause_of};
ghost use Rattle.fol_base.specs.Lent.{lent_of};

use crate::literal_ref::LiteralRef;
use crate::term::Term;
use plain_types::{Mem, Names, Sequence};
use std::alloc::Global;

/// An equation between two terms, or its negation. An atom is written as its predicate term on the
/// left and `$true`, the symbol 0, on the right.
#[derive(Drop)]
pub struct Literal {
    pub positive: bool,
    pub left: Term,
    pub right: Term,
}

/// A side of a literal.
#[derive(Clone, Copy, Debug, PartialEq, Eq)]
pub enum Side {
    Left,
    Right,
}

/// Literals, in order.
pub type Literals = Sequence<Literal>;

/// A disjunction of literals and of names of split-off parts; the empty clause is false.
#[derive(Drop)]
pub struct Clause {
    pub literals: Literals,
    pub names: Names,
}

/// Clauses, in order.
pub type Clauses = Sequence<Clause>;

impl Literal {
    /// The literal, lent.
    pub fn lend(&self) -> LiteralRef<'_>
        ensures { lent_of result ≡ literal_of self.now }
    {
        LiteralRef {
            positive: self.positive,
            left: &self.left,
            right: &self.right,
        }
    }

    /// An equal literal.
    pub fn copy(&self, alloc: Global) -> Mem<Literal>
        ensures { IfOk result (λ literal. literal_of literal ≡ literal_of self.now) }
    {
        self.lend().copy(alloc)
    }
}

impl Clause {
    /// An equal clause.
    pub fn copy(&self, alloc: Global) -> Mem<Clause>
        ensures { IfOk result (λ clause. clause_of clause ≡ clause_of self.now) }
    {
        let mut literals = Vec::with_capacity(alloc, self.literals.len())?;
        push_literal_copies(alloc, &mut literals, self.literals.as_slice())?;
        let names = Names::from_slice(alloc, self.names.as_slice())?;
        Ok(Clause {
            literals: Literals::from_vec(literals),
            names,
        })
    }
}

/// Adds copies of the literals at the end; after an out-of-memory error none is added.
pub fn push_literal_copies(alloc: Global, made: &mut Vec<Literal>, literals: &[Literal]) -> Mem<()>
    ensures added { IfOk result (λ _. map literal_of made.new.items ≡ map literal_of made.old.items ++ map literal_of literals.now) }
    ensures unchanged { OnErr result (made.new.items ≡ made.old.items) }
{
    let before = made.len();
    for literal in literals {
        if let Err(error) = push_literal_copy(alloc, made, literal) {
            made.truncate(before);
            return Err(error);
        }
    }
    Ok(())
}

fn push_literal_copy(alloc: Global, made: &mut Vec<Literal>, literal: &Literal) -> Mem<()>
    ensures added { IfOk result (λ _. map literal_of made.new.items ≡ map literal_of made.old.items ++ (literal_of literal.now ∷ [])) }
    ensures kept { take (length made.old.items) made.new.items ≡ made.old.items }
{
    made.push(literal.copy(alloc)?)?;
    Ok(())
}
