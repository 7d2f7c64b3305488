// Terms of the two sides, and equations of variables and such terms.

use fol_base::{Side, Term};

/// How many variables are bound at most; with more of them the way by classes takes over.
pub const MOST_EQUATIONS: usize = 8;

/// How many variables that met themselves are noted at most.
pub const MOST_NOTED: usize = 16;

/// A term of one of the two sides.
#[derive(Clone, Copy)]
pub struct SideTerm<'a> {
    pub side: Side,
    pub term: &'a Term,
}

/// Terms of one of the two sides.
#[derive(Clone, Copy)]
pub struct SideTerms<'a> {
    pub side: Side,
    pub terms: &'a [Term],
}

/// A variable, by its number among those of both sides, and what it is equal to.
#[derive(Clone, Copy)]
pub struct Equation<'a> {
    pub code: u64,
    pub bound: SideTerm<'a>,
}

/// Equations of different variables: the first ones of the items, as many as `len` says. Beside them the variables that
/// met themselves, which no equation need name: the first ones of `noted`, as many as `noted_len` says.
#[derive(Drop)]
pub struct Equations<'a> {
    pub items: [Equation<'a>; MOST_EQUATIONS],
    pub len: usize,
    pub noted: [u64; MOST_NOTED],
    pub noted_len: usize,
}
