// The subterms for which the stars of a path stand, as a list that lies in the callers' frames: it takes no memory.

use fol_base::Term;

/// The subterms of a query for which the stars of a path stand, the last one first. There is one for each place at which the entry's term has
/// a variable, in the order of the places.
#[derive(Clone, Copy)]
pub enum Stars<'a> {
    Nothing,
    More(&'a Term, &'a Stars<'a>),
}

/// An entry whose term may be a generalisation of a query, with what its matchers turn its variables into.
#[derive(Clone, Copy)]
pub struct Generalisation<'a> {
    /// The entry's number.
    pub number: u64,
    /// The variables of its term, from left to right.
    pub variables: &'a [u32],
    /// The subterms of the query for which they stand, one by one, the last one first.
    pub stars: &'a Stars<'a>,
}
