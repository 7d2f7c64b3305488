// Entries that are lent.

use tptp_tree::Role;
use typed_tree::{Declaration, TypedFormula};

/// A word, and the symbol's declaration where it is no sort.
#[derive(Clone, Copy)]
pub struct LentDeclaration<'a> {
    pub word: &'a [u8],
    pub symbol: Option<&'a Declaration>,
}

/// What an entry says: a declaration, or a formula with its role.
#[derive(Clone, Copy)]
pub enum LentBody<'a> {
    Declared(LentDeclaration<'a>),
    Formula(Role, &'a TypedFormula),
}

/// What an entry says, and the places of its words and variables, in order.
#[derive(Clone, Copy)]
pub struct LentEntry<'a> {
    pub body: LentBody<'a>,
    pub places: &'a [u32],
}
