// The pairs of a matcher.

ghost use Rattle.std.specs.Prelude.{◌≡◌, [], ◌∷◌, ◌++◌, true, None, length, map, take, option_map, IfOk, OnErr, OnOk};
ghost use Rattle.fol_base.specs.Term.{tree_of};
ghost use Rattle.fol_base.specs.Instance.{instance, substitution};
ghost use Rattle.fol_base.specs.Canonical.{terms_from};
ghost use Rattle.unifier.specs.Matching.{HasPairs, are_below, by_pairs, term_for};

use fol_base::{LendsTerms, Subst, Term, Terms};
use plain_types::Mem;
use std::alloc::Global;
use std::marker::Model;

/// The variables of a pattern, each with the subterm of the target that it became. The terms are
/// borrowed. Contracts see it as the list of its pairs, in which no variable stands twice.
#[derive(Drop)]
pub struct Matched<'a> {
    pairs: Vec<Pair<'a>>,
}

/// A variable and its term.
#[derive(Clone, Copy)]
struct Pair<'a> {
    variable: u32,
    term: &'a Term,
}

impl<'a> Model for Matched<'a> {
    ghost use Rattle.std.specs.Prelude.{ℕ, List, map};
    ghost use Rattle.std.specs.Coded.{coded_list, coded×, coded_ℕ};
    ghost use Rattle.fol_base.specs.Tree.{Tree};
    ghost use Rattle.fol_base.specs.TreeCode.{tree_code};

    ghost Value = { List (ℕ × Tree) };

    ghost coded = { coded_list (coded× coded_ℕ tree_code) };

    ghost use Rattle.unifier.specs.Walk.{pair_of};
    ghost use Rattle.unifier.specs.Matching.{NoVariableTwice};

    ghost view = { λ m. map pair_of m.pairs.items };

    ghost invariant = { λ m. NoVariableTwice (map pair_of m.pairs.items) };
}

impl<'a> Matched<'a> {
    /// No pairs. It takes no memory.
    pub fn empty(alloc: Global) -> Matched<'a>
        ensures { result ≡ [] }
    {
        Matched {
            pairs: Vec::new(alloc),
        }
    }

    /// The term of a variable.
    pub(crate) fn term_for(&self, variable: u32) -> Option<&'a Term>
        ensures { option_map (λ t. tree_of t.now) result ≡ term_for variable self.now }
    {
        for pair in self.pairs.as_slice() {
            if pair.variable == variable {
                return Some(pair.term);
            }
        }
        None
    }

    /// Adds a pair of a variable that has none. After an out-of-memory error the list is as before.
    pub(crate) fn push(&mut self, variable: u32, term: &'a Term) -> Mem<()>
        requires { term_for variable self.old ≡ None }
        ensures ok { OnOk result (self.new ≡ self.old ++ (variable, tree_of term.now) ∷ []) }
        ensures err { OnErr result (self.new ≡ self.old) }
    {
        self.pairs.push(Pair { variable, term })?;
        Ok(())
    }

    /// How many pairs there are.
    pub(crate) fn len(&self) -> usize
        ensures { result ≡ length self.now }
    {
        self.pairs.len()
    }

    /// Keeps the first `count` pairs.
    pub(crate) fn cut(&mut self, count: usize)
        ensures { self.new ≡ take count self.old }
    {
        self.pairs.truncate(count);
    }

    /// The substitution of that length. A variable without a pair stands for itself. The condition is that
    /// each variable of a pair has a number below `count`, as it has after `match_onto` where `count` is
    /// above the variables of the pattern and of the pairs handed in.
    pub fn subst(&self, count: u32) -> Mem<Subst>
        requires { are_below count self.now ≡ true }
        ensures terms { IfOk result (λ made. made ≡ terms_from 0 count (by_pairs self.now)) }
        ensures pairs { IfOk result (λ made. HasPairs self.now (substitution made)) }
    {
        let alloc = *self.pairs.allocator();
        let mut items = Vec::with_capacity(alloc, count as usize)?;
        for variable in 0..count {
            items.push(self.term_or_variable(alloc, variable)?)?;
        }
        Ok(Terms::from_vec(items))
    }

    /// A copy of the variable's term, or the variable.
    fn term_or_variable(&self, alloc: Global, variable: u32) -> Mem<Term>
        ensures { IfOk result (λ term. tree_of term ≡ by_pairs self.now variable) }
    {
        match self.term_for(variable) {
            Some(term) => term.copy(alloc),
            None => Ok(Term::Var(variable)),
        }
    }

    /// The instance of a term: a variable that has a pair becomes its term, and the others stay.
    #[cycle(apply)]
    pub fn apply(&self, term: &Term) -> Mem<Term>
        ensures { IfOk result (λ made. tree_of made ≡ instance (by_pairs self.now) (tree_of term.now)) }
    {
        match term {
            Term::Var(variable) => self.term_or_variable(*self.pairs.allocator(), *variable),
            Term::App(symbol, arguments) => {
                Ok(Term::App(*symbol, self.apply_all(arguments.as_slice())?))
            }
        }
    }

    #[cycle(apply)]
    fn apply_all(&self, terms: &[Term]) -> Mem<Terms>
        ensures { IfOk result (λ made. made ≡ map (instance (by_pairs self.now)) (map tree_of terms.now)) }
    {
        let mut items = Vec::with_capacity(*self.pairs.allocator(), terms.len())?;
        for term in terms {
            items.push(self.apply(term)?)?;
        }
        Ok(Terms::from_vec(items))
    }

    /// An equal list, of the allocator that `match_onto` is handed.
    pub(crate) fn copied(&self, alloc: Global) -> Mem<Matched<'a>>
        ensures { IfOk result (λ pairs. pairs ≡ self.now) }
    {
        let mut pairs = Vec::with_capacity(alloc, self.pairs.len())?;
        for pair in self.pairs.as_slice() {
            pairs.push(*pair)?;
        }
        Ok(Matched { pairs })
    }
}

/// A matcher lends the terms of its pairs.
impl<'a> LendsTerms for Matched<'a> {
    ghost use Rattle.unifier.specs.Matching.{by_pairs};

    ghost meaning = { by_pairs };

    fn term(&self, number: u32) -> Option<&Term> {
        self.term_for(number)
    }
}
