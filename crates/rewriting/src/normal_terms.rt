// A table of terms that no unit rewrites, from search to search.

ghost use Rattle.std.specs.Prelude.{◌≡◌, ◌+◌, ◌<◌, ℕ, IfSome, IsTrue, Option, map};
ghost use Rattle.fol_base.specs.Tree.{Tree, tree_size, trees_of, trees_size};
ghost use Rattle.fol_base.specs.Term.{tree_of};
ghost use Rattle.fol_base.specs.Clause.{TreeClause};
ghost use Rattle.rewriting.specs.Redex.{inner, IsNormal};
ghost use Rattle.rewriting.specs.NormalTerms.{IsRemembered, RemembersNormal};
ghost use Rattle.rewriting.specs.declared.normal_terms.TheConstants.{PLACES};

use fol_base::{Term, same_term};
use plain_types::Mem;
use std::alloc::Global;
use term_bank::mix;

/// How many terms are remembered at most, each at one place.
const PLACES: usize = 1024;

/// How many symbols and variables a remembered term has at most.
const MOST_SYMBOLS: u64 = 48;

/// More candidates a query than these make it worth while to remember terms.
const FEW_CANDIDATES: u64 = 2;

/// Terms in which a search found no redex, as long as the units stay and what they are used for. Of two with one place the later is
/// remembered. Nothing is remembered, and no term looked up, while such queries have few candidates.
#[derive(Drop)]
pub struct NormalTerms {
    alloc: Global,
    /// Empty until a term is remembered.
    pub(crate) places: Vec<Option<Term>>,
    /// How many queries of the units there were for terms that may be remembered, and how many candidates they had.
    queries: u64,
    candidates: u64,
}

impl NormalTerms {
    /// No terms.
    pub fn new(alloc: Global) -> NormalTerms
        ensures { (clauses : ℕ → Option TreeClause) → RemembersNormal clauses result }
    {
        NormalTerms {
            alloc,
            places: Vec::new(alloc),
            queries: 0,
            candidates: 0,
        }
    }

    /// Forgets all terms, as where other units may be used.
    pub fn clear(&mut self)
        ensures { (clauses : ℕ → Option TreeClause) → RemembersNormal clauses self.new }
    {
        self.places.clear();
    }

    /// Counts a query.
    pub(crate) fn count(&mut self, candidates: usize)
        ensures { self.new.places ≡ self.old.places }
    {
        self.queries = self.queries.saturating_add(1);
        self.candidates = self.candidates.saturating_add(candidates as u64);
    }

    /// The place of a term, if it is one that may be remembered.
    pub(crate) fn place_of(&self, term: &Term) -> Option<usize>
        ensures { IfSome result (λ place. place < PLACES) }
    {
        if self.candidates / FEW_CANDIDATES <= self.queries {
            return None;
        }
        let prefix = Prefix {
            hash: 0,
            left: MOST_SYMBOLS,
        };
        let whole = prefix.with_term(term)?;
        Some((whole.hash >> 32) as usize % PLACES)
    }

    /// Whether a term is remembered at its place.
    pub(crate) fn knows(&self, place: Option<usize>, term: &Term) -> bool
        ensures { IsTrue result → IsRemembered self.now (tree_of term.now) }
    {
        match self.at(place) {
            None => false,
            Some(known) => same_term(known, term),
        }
    }

    /// The term that is remembered at a place.
    fn at(&self, place: Option<usize>) -> Option<&Term>
        ensures { IfSome result (λ t. IsRemembered self.now (tree_of t.now)) }
    {
        let at = place?;
        if at >= self.places.len() {
            return None;
        }
        self.places[at].as_ref()
    }

    /// Remembers a term at its place. After an out-of-memory error nothing else is remembered than before.
    pub(crate) fn put(&mut self, place: Option<usize>, term: &Term) -> Mem<()>
        ensures { (clauses : ℕ → Option TreeClause) → RemembersNormal clauses self.old → IsNormal clauses inner (tree_of term.now)
            → RemembersNormal clauses self.new }
    {
        let Some(at) = place else {
            return Ok(());
        };
        let copy = term.copy(self.alloc)?;
        self.make_places()?;
        if at >= self.places.len() {
            return Ok(());
        }
        self.places[at] = Some(copy);
        Ok(())
    }

    /// Makes the places, if there are none.
    fn make_places(&mut self) -> Mem<()>
        ensures { (t : Tree) → IsRemembered self.new t → IsRemembered self.old t }
    {
        if !self.places.is_empty() {
            return Ok(());
        }
        self.places.reserve(PLACES)?;
        for _place in 0..PLACES {
            self.places.push(None)?;
        }
        Ok(())
    }
}

/// What was read of a term, hashed, and how much more may be read.
#[derive(Clone, Copy)]
struct Prefix {
    hash: u64,
    left: u64,
}

impl Prefix {
    /// One symbol or variable more, if it may be read.
    fn with_value(self, value: u64) -> Option<Prefix>
        ensures { IfSome result (λ more. more.left + 1 ≡ self.left) }
    {
        if self.left == 0 {
            return None;
        }
        Some(Prefix {
            hash: mix(self.hash, value),
            left: self.left - 1,
        })
    }

    /// A term more, if it may be read.
    #[cycle(read)]
    fn with_term(self, term: &Term) -> Option<Prefix>
        ensures { IfSome result (λ more. more.left + tree_size (tree_of term.now) ≡ self.left) }
    {
        match term {
            Term::Var(number) => self.with_value(2 * u64::from(*number)),
            Term::App(symbol, arguments) => {
                let head = self.with_value(2 * u64::from(*symbol) + 1)?;
                head.with_terms(arguments.as_slice())
            }
        }
    }

    #[cycle(read)]
    fn with_terms(self, terms: &[Term]) -> Option<Prefix>
        ensures { IfSome result (λ more. more.left + trees_size (trees_of (map tree_of terms.now)) ≡ self.left) }
    {
        let mut all = self;
        for index in 0..terms.len() {
            all = all.with_term(&terms[index])?;
        }
        Some(all)
    }
}
