// Typed problems.

use plain_types::{Sequence, Text, Texts};
use tptp_tree::{FileName, Role};
use typed_tree::{Declarations, TypedFormula};

/// A typed formula with its name and role.
#[derive(Drop)]
pub struct TypedAnnotated {
    pub name: Text,
    pub role: Role,
    pub formula: TypedFormula,
    /// The name of the file that has it, which the formulas of the file share.
    pub file: FileName,
    /// The place of its first byte in that file, from 0.
    pub place: u32,
}

/// Typed formulas with their names and roles, in order.
pub type TypedAnnotateds = Sequence<TypedAnnotated>;

/// A typed problem: the sorts that it declares, the declarations of its symbols, and its formulas, each in reading order. A declaration
/// that repeats an earlier one isn't listed again.
#[derive(Drop)]
pub struct TypedProblem {
    pub sorts: Texts,
    pub declared: Declarations,
    pub formulas: TypedAnnotateds,
}
