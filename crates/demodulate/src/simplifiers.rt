// The clauses by which others are simplified.

use rewriting::Units;
use subsume::Subsumers;
use term_bank::Bank;
use unit_cutting::UnitIndex;

/// The clauses that may be used, in the sets in which they are looked for.
#[derive(Clone, Copy)]
pub struct Simplifiers<'a> {
    pub bank: &'a Bank,
    /// Those that are one equation, which rewrite.
    pub equations: &'a Units,
    /// Those with one literal, of either sign, which cut and subsume.
    pub units: &'a UnitIndex,
    /// All of them, among which the others that subsume are looked for.
    pub members: &'a Subsumers,
    /// The number of a clause that isn't used, so that none simplifies itself.
    pub left_out: Option<u32>,
}
