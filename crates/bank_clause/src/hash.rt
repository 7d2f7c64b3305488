// The hash of a clause, by which registers find it.

ghost use Rattle.std.specs.Prelude.{◌≡◌, fold};
ghost use Rattle.bank_clause.specs.ClauseHash.{clause_hash, literal_hash, literals_hash, names_hash};

use crate::clause::BankClause;
use term_bank::{BankLit, mix};

/// A hash of a clause's signs, of the numbers of its sides and of the names that it asserts: clauses that are equal by numbers have one.
pub fn clause_hash(clause: &BankClause) -> u64
    ensures { result ≡ clause_hash clause.now }
{
    names_hash(literals_hash(clause.literals()), clause.names())
}

/// The hash of literals, without names: that of a clause is `names_hash` after it.
pub fn literals_hash(literals: &[BankLit]) -> u64
    ensures { result ≡ literals_hash literals.now }
{
    let mut hash = 0;
    for literal in literals {
        hash = literal_hash(hash, literal);
    }
    hash
}

/// A hash after the names that a clause asserts, as where a clause gets its assertion after its literals were hashed.
pub fn names_hash(hash: u64, names: &[u32]) -> u64
    ensures { result ≡ names_hash hash names.now }
{
    let mut named = hash;
    for name in names {
        named = mix(named, u64::from(*name));
    }
    named
}

/// The hash of a literal after others.
fn literal_hash(hash: u64, literal: &BankLit) -> u64
    ensures { result ≡ literal_hash hash literal.now }
{
    let signed = mix(hash, u64::from(literal.positive));
    let left = mix(signed, literal.left.number());
    mix(left, literal.right.number())
}
