// The entries of an index: members with their features.

use crate::vector::Features;
use bank_clause::Member;

/// A member with the features of its clause.
#[derive(Drop)]
pub(crate) struct Entry {
    pub(crate) features: Features,
    pub(crate) member: Member,
}
