// Features of clauses: numbers that are no greater in a clause than in each clause that it subsumes. An index finds by them the few
// clauses that come into question.

ghost use mathlib.Core.Bool.{beq};
ghost use Rattle.std.specs.Prelude.{◌≡◌, ◌+◌, ◌<◌, ◌≤◌, ◌==◌, ℕ, Bool, IsTrue, true, map, min, max, slice_index, if◌then◌else◌};
ghost use Rattle.fol_base.specs.Term.{tree_of};
ghost use Rattle.fol_base.specs.Tree.{trees_of};
ghost use Rattle.fol_base.specs.Lent.{lent_of};
ghost use Rattle.subsume.specs.Features.{AreFeaturesOf, digit_measure, slot, tree_measure, trees_measure, literal_measure};

use fol_base::{LendsLiterals, LiteralRef, Term, Terms};

/// How many features an index keeps of a clause: each measure over the positive literals and over the negative ones.
pub(crate) const FEATURES: usize = 64;

/// The measures: how many literals there are, how many symbols and variables, and how many symbols have a digit at one of three places of
/// their number.
pub(crate) const MEASURES: usize = 32;

/// The measure that counts literals.
const LITERALS: usize = 0;

/// The measure that counts occurrences of symbols and variables.
const SYMBOLS: usize = 1;

/// The first of the measures by the last digit, by the digit before it, and by the one before that.
pub(crate) const LAST_DIGIT: usize = 2;

pub(crate) const TENS_DIGIT: usize = 12;

pub(crate) const HUNDREDS_DIGIT: usize = 22;

/// The digits of a symbol's number. Each of its last three digits, at its place, is a class, so that up to a thousand symbols are told apart.
pub(crate) const DIGITS: u32 = 10;

/// The highest value that is told apart.
const MOST: u16 = u16::MAX;

/// The features of a clause, each up to the highest value that is told apart.
#[derive(Clone, Copy)]
pub(crate) struct Features {
    values: [u16; FEATURES],
}

impl Features {
    /// Those of the empty clause.
    pub(crate) fn none() -> Features
        ensures { (positive : Bool) (k : ℕ) → k < MEASURES → slice_index result.values (slot positive k) ≡ 0 }
    {
        Features {
            values: [0; FEATURES],
        }
    }

    /// Those of a clause.
    pub(crate) fn of<L: LendsLiterals>(literals: &L) -> Features
        ensures { AreFeaturesOf (L.meaning literals.now) result.values }
    {
        let mut features = Features::none();
        for index in 0..literals.count() {
            features.count_literal(literals.literal(index));
        }
        features
    }

    /// The value of a measure over the literals of a sign.
    pub(crate) fn value(&self, positive: bool, measure: usize) -> u16
        requires { measure < MEASURES }
        ensures { result ≡ slice_index self.now.values (slot positive measure) }
    {
        self.values[slot(positive, measure)]
    }

    /// Whether no value is greater than the other's. All are looked at, since the processor compares eight of them at once.
    pub(crate) fn are_at_most(&self, other: &Features) -> bool
        ensures { ((positive : Bool) (k : ℕ) → k < MEASURES
            → slice_index self.now.values (slot positive k) ≤ slice_index other.now.values (slot positive k)) → result ≡ true }
    {
        let mut are = true;
        for index in 0..FEATURES {
            if self.values[index] > other.values[index] {
                are = false;
            }
        }
        are
    }

    /// Raises each value to the other's, where that is greater.
    pub(crate) fn raise(&mut self, other: &Features)
        ensures { (positive : Bool) (k : ℕ) → k < MEASURES → slice_index self.new.values (slot positive k)
            ≡ max (slice_index self.old.values (slot positive k)) (slice_index other.now.values (slot positive k)) }
    {
        for index in 0..FEATURES {
            if self.values[index] < other.values[index] {
                self.values[index] = other.values[index];
            }
        }
    }

    /// Counts a literal, and its symbols and variables.
    fn count_literal(&mut self, literal: LiteralRef<'_>)
        ensures { (positive : Bool) (k : ℕ) → k < MEASURES → slice_index self.old.values (slot positive k) ≤ MOST
            → slice_index self.new.values (slot positive k)
            ≡ min (slice_index self.old.values (slot positive k)
            + (if beq (lent_of literal.entry).positive positive then literal_measure k (lent_of literal.entry) else 0)) MOST }
    {
        self.count(literal.positive, LITERALS);
        self.count_term(literal.positive, literal.left);
        self.count_term(literal.positive, literal.right);
    }

    /// Counts the symbols and variables of a term.
    #[cycle(count_term)]
    fn count_term(&mut self, positive: bool, term: &Term)
        ensures { (sign : Bool) (k : ℕ) → k < MEASURES → slice_index self.old.values (slot sign k) ≤ MOST
            → slice_index self.new.values (slot sign k)
            ≡ min (slice_index self.old.values (slot sign k) + (if beq positive sign then tree_measure k (tree_of term.now) else 0)) MOST }
    {
        self.count(positive, SYMBOLS);
        if let Term::App(symbol, arguments) = term {
            self.count_digits(positive, *symbol);
            self.count_terms(positive, arguments);
        }
    }

    /// Counts a symbol by the last three digits of its number.
    fn count_digits(&mut self, positive: bool, symbol: u32)
        ensures { (sign : Bool) (k : ℕ) → k < MEASURES → slice_index self.old.values (slot sign k) ≤ MOST
            → slice_index self.new.values (slot sign k)
            ≡ min (slice_index self.old.values (slot sign k) + (if beq positive sign then digit_measure k symbol else 0)) MOST }
    {
        self.count(positive, LAST_DIGIT + (symbol % DIGITS) as usize);
        self.count(positive, TENS_DIGIT + (symbol / DIGITS % DIGITS) as usize);
        self.count(
            positive,
            HUNDREDS_DIGIT + (symbol / DIGITS / DIGITS % DIGITS) as usize,
        );
    }

    /// Counts the symbols and variables of terms.
    #[cycle(count_term)]
    fn count_terms(&mut self, positive: bool, terms: &Terms)
        ensures { (sign : Bool) (k : ℕ) → k < MEASURES → slice_index self.old.values (slot sign k) ≤ MOST
            → slice_index self.new.values (slot sign k)
            ≡ min (slice_index self.old.values (slot sign k)
            + (if beq positive sign then trees_measure k (trees_of terms.now) else 0)) MOST }
    {
        for term in terms.as_slice() {
            self.count_term(positive, term);
        }
    }

    /// Adds one to a measure over the literals of a sign.
    fn count(&mut self, positive: bool, measure: usize)
        requires { measure < MEASURES }
        ensures { (sign : Bool) (k : ℕ) → k < MEASURES → slice_index self.new.values (slot sign k)
            ≡ min (slice_index self.old.values (slot sign k) + (if beq positive sign then (if k == measure then 1 else 0) else 0)) MOST }
    {
        let at = slot(positive, measure);
        self.values[at] = self.values[at].saturating_add(1);
    }
}

/// Where the value of a measure over the literals of a sign stands.
fn slot(positive: bool, measure: usize) -> usize
    requires { measure < MEASURES }
    ensures value { result ≡ slot positive measure }
    ensures inside { result < FEATURES }
{
    if positive {
        2 * measure
    } else {
        2 * measure + 1
    }
}
