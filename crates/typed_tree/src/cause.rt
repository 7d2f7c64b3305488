// Why a typed problem isn't read, and where.

use plain_types::Text;
use tptp_reader::ReadCause;

/// Why a typed problem isn't read.
#[derive(Clone, Copy, Debug, PartialEq, Eq)]
pub enum TypedCause {
    /// A cause that untyped problems have too, by the typed grammar.
    Read(ReadCause),
    /// The `!` of a polymorphic type, which is left out by name.
    Polymorphic,
    /// A sort word that no declaration makes a sort.
    UnknownSort,
    /// The word of a declaration that gives a declared word another type.
    TwoTypes,
    /// The first token of an argument, or of an equation's right side, whose sort isn't the one that is wanted.
    SortClash,
    /// The first word of an untyped formula.
    Mixed,
}

/// A typed problem isn't read: for out of memory, or for a cause, with the name of a file and the place in it, in bytes from 0.
#[derive(Drop)]
pub enum TypedFault {
    NoMemory,
    At(TypedCause, Text, u32),
}
