//! Clauses whose literals' sides are terms of a bank.
//!
//! **Idea.** Terms are shared: the bank has each term once, under a number (hash consing; Ershov 1958, and for provers Schulz 2002). A
//! clause of the bank holds a sign and two references for each literal, so two clauses of one bank are compared by numbers, copied without
//! copying a term, and hashed without a walk over terms. With its literals a clause has its *assertions*: the tags of the parts that are
//! assumed where the clause was derived (AVATAR, Voronkov 2014), as a rising list of numbers. As a clause with signs it has these names
//! negated: `C` under the tag 3 says "C, or not part 3".
//!
//! **Files.** `clause.rt` has the type and the way to trees and back, by `interning.rt` and `trees.rt`. `unasserted.rt` has clauses that
//! get their assertion later. `equality.rt` compares clauses by numbers, `hash.rt` hashes them; `member.rt` has clauses under the numbers
//! of a register, and `lending.rt` lends literals as trees, without a copy, to what works on either form. `laws.rt` has the laws.
//!
//! **Invariant.** Each clause is canonical: its variables are numbered from 0 by first occurrence, left side before right. Its names rise.
//! Its size, which is below a limit that all crates share, and its number of variables are kept beside it, so that nobody counts them
//! again. All of that is known of every clause that there is, without its bank; that its references are the bank's is a condition of
//! the calls that follow them, since a clause doesn't know its bank.
//!
//! **Assertions that come late.** A pool takes all memory before it changes anything, and a part gets its tag only when it comes, after
//! that. So the clause of a part is made without assertions and with room for one (`UnassertedClause`), and `asserting` puts the tag in.
//! Its hash is told in two steps as well: `literals_hash` before, `names_hash` after the tag is known.
//!
//! **Proved.** `of_clause` makes a clause that stands for the given one, whose references the table knows, and interns its sides and
//! nothing else; after an out-of-memory error some first ones of the sides are interned. `to_clause` gives the clause back. `asserting` gives the
//! literals under that one name, and can't fail. Clauses that are equal by numbers stand for one clause (`agree`) and have one hash; two
//! clauses that stand for one and whose references one table knows are equal by numbers.
//!
//! **Cost.** Up to four literals stand in the clause itself, without an allocation. `of_clause` looks up each subterm once. Equality and
//! hashes are linear in the number of literals and names, whatever the size of the terms. A clause takes 128 bytes.
#![tactic(auto)]

mod clause;
mod equality;
mod hash;
mod interning;
mod lending;
mod member;
mod trees;
mod unasserted;

pub use clause::BankClause;
pub use hash::{clause_hash, literals_hash, names_hash};
pub use lending::BankLiterals;
pub use member::{Member, Members};
pub use term_bank::BankLit;
pub use unasserted::UnassertedClause;

pub mod laws;
