// Annotated formulas.

use crate::file_name::FileName;
use crate::formula::Formula;
use crate::role::Role;
use plain_types::{Sequence, Text};

/// A formula with its name and role.
#[derive(Drop)]
pub struct Annotated {
    pub name: Text,
    pub role: Role,
    /// Whether it is written with `cnf`, and with `fof` otherwise.
    pub clause: bool,
    pub formula: Formula,
    /// The name of the file that has it, which the formulas of the file share.
    pub file: FileName,
    /// The place of its first byte in that file, from 0.
    pub place: u32,
}

/// Annotated formulas, in order.
pub type AnnotatedList = Sequence<Annotated>;

/// The formulas of a problem, in reading order.
#[derive(Drop)]
pub struct Problem {
    pub formulas: AnnotatedList,
}
