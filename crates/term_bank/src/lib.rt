//! A bank of terms that threads share. A term is kept in it once for each table that interns terms, and is named by a reference of 8 bytes.
//!
//! **Two parts.** The `Bank` holds the terms. It only grows, no term is ever moved, and every thread reads it without a lock: a reference
//! denotes one tree for good. A `Table` knows which trees were interned through it and with which references; it stands in the pool, so one
//! thread at a time interns. Within one table equal trees have equal numbers, so clauses of one table are compared by numbers.
//!
//! **Places.** The terms lie in rows of `boxcar` (`rows.rt`). Each row is twice as long as the one before, up to 2^32 places, so a reference
//! is a row and a place in it. A row's places are made when the first term comes to it. A place is written once.
//!
//! **Finding a tree.** The table chains its entries by the hash of the term (`chains.rt`), and compares with the bank's own terms; it keeps no
//! copy. `hash.rt` mixes the halves of each step, because a plain polynomial modulo 2^64 gives all Thue-Morse words of one length one hash.
//! The hash is a hint: names made to collide cost time, and no answer rests on it.
//!
//! **What is proved.** `intern` gives the reference of that tree, with the number that the table has for it, and every other reference denotes
//! what it did. After out of memory the table is as before. The rules of the rows (`AnyTerm`, `FullLength`, `AllRows`) are what the proofs
//! over `boxcar` need from every thread.
//!
//! **Cost.** A term that is there is hashed and compared once; a new one is hashed, and copied or moved, once. Whole terms are stored, and no
//! subterms are shared between them.
#![tactic(auto)]

mod bank;
mod chains;
mod hash;
mod literal;
mod reference;
mod rows;
mod table;

pub use bank::Bank;
#[doc(hidden)]
pub use chains::{Chains, Entry};
pub use hash::{mix, term_hash};
pub use literal::BankLit;
pub use reference::TermRef;
#[doc(hidden)]
pub use rows::{AllRows, AnyTerm, FullLength, Shown};
pub use table::Table;

pub mod laws;
