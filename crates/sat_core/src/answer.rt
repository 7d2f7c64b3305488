// The solver's input and its answers.

ghost use Rattle.std.specs.Prelude.{◌≡◌};
ghost use Rattle.std.specs.List.{list_all};
ghost use Rattle.sat_core.specs.Clause.{is_below, names_below};

use crate::lists::Lists;
use plain_types::{NameLit, Sequence};

/// Propositional clauses, in order, one after another in one list. Each is a disjunction of signed names, read as a set; the empty
/// one is false.
pub type PropClauses = Lists<NameLit>;

/// A truth value for each name, by its number.
pub type Truths = Sequence<bool>;

/// A resolution of what stands before it with an earlier clause.
#[derive(Clone, Copy, Debug, PartialEq, Eq)]
pub struct Link {
    /// The name that is resolved on, with the sign that it has in what stands before.
    pub pivot: NameLit,
    /// The number of the other clause, in which the name has the other sign.
    pub number: u64,
}

/// Resolutions, one after another.
pub type Links = Sequence<Link>;

/// A derivation of one clause by resolutions that begin with an earlier clause.
#[derive(Drop)]
pub struct Chain {
    /// The number of the clause that it begins with.
    pub start: u64,
    pub links: Links,
}

/// Derivations, each of which may use the clauses of those before it. A number below the count of
/// the input clauses is an input clause, and that count plus i is the clause of chain i.
pub type Log = Sequence<Chain>;

/// The answer to a set of propositional clauses.
#[derive(Drop)]
pub enum Answer {
    /// Truth values that make every clause true.
    Model(Truths),
    /// A derivation of the empty clause.
    Refuted(Log),
}

/// Whether each name of the clauses is below a bound.
pub fn names_are_below(clauses: &PropClauses, bound: u32) -> bool
    ensures { result ≡ names_below bound clauses.now }
{
    for number in 0..clauses.len() {
        if !is_clause_below(clauses.get(number), bound) {
            return false;
        }
    }
    true
}

fn is_clause_below(clause: &[NameLit], bound: u32) -> bool
    ensures { result ≡ list_all (is_below bound) clause.now }
{
    clause.iter().all(|literal| literal.name < bound)
}
