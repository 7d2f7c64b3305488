// Sizes: the occurrences of symbols and variables.

ghost use Rattle.std.specs.Prelude.{◌≡◌, ◌-◌, ◌^◌, min};
ghost use Rattle.fol_base.specs.Tree.{tree_size, trees_size, trees_of};
ghost use Rattle.fol_base.specs.Clause.{clause_size, literal_size};
ghost use Rattle.fol_base.specs.Term.{tree_of};
ghost use Rattle.fol_base.specs.Literal.{literal_of, clause_of};

use crate::clause::{Clause, Literal};
use crate::term::{Term, Terms};

impl Term {
    /// The occurrences of symbols and variables, stopping at u64's last value.
    #[cycle(size)]
    pub fn size(&self) -> u64
        ensures { result ≡ min (tree_size (tree_of self.now)) (2 ^ 64 - 1) }
    {
        match self {
            Term::Var(_) => 1,
            Term::App(_, arguments) => arguments.size().saturating_add(1),
        }
    }
}

impl Terms {
    /// The sizes of all terms together, stopping at u64's last value.
    #[cycle(size)]
    pub fn size(&self) -> u64
        ensures { result ≡ min (trees_size (trees_of self.now)) (2 ^ 64 - 1) }
    {
        let mut total: u64 = 0;
        for term in self.as_slice() {
            total = total.saturating_add(term.size());
        }
        total
    }
}

impl Literal {
    /// The sizes of both sides together, stopping at u64's last value.
    pub fn size(&self) -> u64
        ensures { result ≡ min (literal_size (literal_of self.now)) (2 ^ 64 - 1) }
    {
        self.lend().size()
    }
}

impl Clause {
    /// The sizes of all literals together, stopping at u64's last value. Names count nothing.
    pub fn size(&self) -> u64
        ensures { result ≡ min (clause_size (clause_of self.now)) (2 ^ 64 - 1) }
    {
        let mut total: u64 = 0;
        for literal in self.literals.as_slice() {
            total = total.saturating_add(literal.size());
        }
        total
    }
}
