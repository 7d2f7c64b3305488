// Sorts, the types of symbols, and variables with their sorts.

use plain_types::{Sequence, Text};

/// A sort: `$i`, or one that a declaration names.
#[derive(Drop)]
pub enum Sort {
    Individual,
    Named(Text),
}

/// Sorts, in order.
pub type Sorts = Sequence<Sort>;

/// The declaration of a symbol: the sorts of its arguments, and the sort of its values, or none for a predicate.
#[derive(Drop)]
pub struct Declaration {
    pub name: Text,
    pub args: Sorts,
    pub result: Option<Sort>,
}

/// Declarations, in order.
pub type Declarations = Sequence<Declaration>;

/// A variable of a quantifier, with its sort.
#[derive(Drop)]
pub struct TypedVar {
    pub name: Text,
    pub sort: Sort,
}

/// Variables of a quantifier, in order.
pub type TypedVars = Sequence<TypedVar>;
