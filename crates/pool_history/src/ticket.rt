// The answers of claims and of returns.

use crate::outcome::Outcome;
use bank_clause::{BankClause, Member};
use plain_types::Sequence;
use sat_core::PropClauses;

/// A given clause, and what the caller has to learn before it works on it.
#[derive(Drop)]
pub struct Ticket {
    pub job: u64,
    /// The number of the given clause.
    pub number: u32,
    /// Its position in the order of activation.
    pub position: u32,
    pub clause: BankClause,
    /// The activations and deaths that the caller doesn't know.
    pub news: News,
    /// The number of entries at which a batch may stop.
    pub left: u32,
    /// The length of the history with which the clauses are told.
    pub as_of: u64,
}

/// Activations and deaths, in order.
pub type News = Sequence<Change>;

/// A change of the known clauses.
#[derive(Drop)]
pub enum Change {
    /// A clause was activated.
    Activated(Member),
    /// The clause of that number died.
    Died(u32),
}

/// Propositional clauses to be solved.
#[derive(Drop)]
pub struct PropTicket {
    pub job: u64,
    pub clauses: PropClauses,
    /// The number of names; those in the clauses are below it.
    pub names: u32,
}

/// The answer to a claim.
#[derive(Drop)]
pub enum Claimed {
    /// A clause to work on.
    Given(Ticket),
    /// Propositional clauses to be solved.
    Solve(PropTicket),
    /// No clause is to be given, and this many jobs are out.
    Idle(u32),
    /// An outcome stands.
    Ended(Outcome),
}

/// The answer to a return.
#[derive(Drop)]
pub enum Back {
    /// The batch was taken.
    Taken,
    /// A clause that justifies that the given clause goes has died.
    Stale {
        justifier: u32,
        /// The place of the event in which it died.
        event: u64,
        /// A new ticket of that job, with the news since.
        ticket: Ticket,
    },
    /// The given clause has died, in the event of that place.
    Void(u64),
}
