// Traits that lend literals one by one, and the terms of variables: calls over many literals, and calls that speak of instances
// without building them, go by these two traits and take no memory.

ghost use Rattle.std.specs.Prelude.{◌≡◌, ◌<◌, ℕ, List, Some, length, slice_get, option_map, unwrap_or};
ghost use Rattle.fol_base.specs.Tree.{variable};
ghost use Rattle.fol_base.specs.Term.{tree_of};
ghost use Rattle.fol_base.specs.Clause.{TreeLiteral};
ghost use Rattle.fol_base.specs.Instance.{Substitution};
ghost use Rattle.fol_base.specs.Lent.{lent_of};

use crate::clause::{Literal, Literals};
use crate::literal_ref::LiteralRef;
use crate::term::{Term, Terms};

/// A lender of literals by their indices: a list of literals, or a clause of the bank.
pub trait LendsLiterals {
    /// The literals, in order.
    ghost meaning: { Self → List TreeLiteral };

    /// How many literals there are.
    fn count(&self) -> usize
        ensures { result ≡ length (meaning self.now) };

    /// The literal of an index.
    fn literal(&self, index: usize) -> LiteralRef<'_>
        requires { index < length (meaning self.now) }
        ensures { slice_get (meaning self.now) index ≡ Some (lent_of result) };
}

impl LendsLiterals for Literals {
    ghost use Rattle.std.specs.Prelude.{map};
    ghost use Rattle.fol_base.specs.Literal.{literal_of};

    ghost meaning = { λ literals. map literal_of literals };

    fn count(&self) -> usize {
        self.len()
    }

    fn literal(&self, index: usize) -> LiteralRef<'_> {
        self.as_slice()[index].lend()
    }
}

impl LendsLiterals for &[Literal] {
    ghost use Rattle.std.specs.Prelude.{map};
    ghost use Rattle.fol_base.specs.Literal.{literal_of};

    ghost meaning = { λ literals. map literal_of literals.now };

    fn count(&self) -> usize {
        self.len()
    }

    fn literal(&self, index: usize) -> LiteralRef<'_> {
        self[index].lend()
    }
}

/// A lender of the term that a variable stands for: a list of terms, as a unifier's bindings are made into, or the pairs of a matcher.
pub trait LendsTerms {
    /// The term of each variable.
    ghost meaning: { Self → Substitution };

    /// The term of a variable. None only where the variable stands for itself.
    fn term(&self, number: u32) -> Option<&Term>
        ensures { unwrap_or (option_map (λ found. tree_of found.now) result) (variable number) ≡ meaning self.now number };
}

impl LendsTerms for Terms {
    ghost use Rattle.fol_base.specs.Instance.{substitution};

    ghost meaning = { substitution };

    fn term(&self, number: u32) -> Option<&Term> {
        self.as_slice().get(number as usize)
    }
}
