// The known clauses, lent to the work on one of them.

use crate::sets::Sets;
use crate::store::Store;
use term_bank::Bank;

/// The known clauses and what is to be done with results.
#[derive(Clone, Copy)]
pub(crate) struct Known<'a> {
    /// The bank of their terms.
    pub bank: &'a Bank,
    /// The clauses at places in the order of their positions, with their partners and terms.
    pub store: &'a Store,
    /// The same clauses in the sets by which others are simplified.
    pub sets: &'a Sets,
    /// Whether results are given in their finest parts.
    pub split: bool,
}
