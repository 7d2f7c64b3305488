// Members: bank clauses under their numbers.

use crate::clause::BankClause;
use plain_types::Sequence;

/// A clause in a bank, with the number under which it was registered.
#[derive(Drop)]
pub struct Member {
    pub number: u32,
    pub clause: BankClause,
}

/// Members, in order.
pub type Members = Sequence<Member>;
