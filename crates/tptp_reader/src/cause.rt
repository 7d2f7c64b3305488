// Why a text isn't read, and where.

ghost use Rattle.std.specs.Prelude.{◌≡◌};
ghost use Rattle.tptp_reader.specs.Faults.{IsFaultWhere, IsEndFault};

use plain_types::{NoMemory, Text};
use std::alloc::{AllocError, AllocFailed, Global};
use tptp_token::LexFault;

/// A form of TPTP (Sutcliffe 2017) that this product leaves out by name.
#[derive(Clone, Copy, Debug, PartialEq, Eq)]
pub enum Form {
    /// A formula with `thf`, `tff`, `tcf` or `tpi`.
    Typed,
    /// One of the roles `question`, `type`, `fi_domain`, `fi_functors` and `fi_predicates`.
    RoleForm,
    /// A number as a term.
    Number,
    /// A distinct object as a term.
    Distinct,
    /// A dollar word other than `$true` and `$false` as an atom or a term.
    Dollar,
}

/// Why a text isn't read.
#[derive(Clone, Copy, Debug, PartialEq, Eq)]
pub enum ReadCause {
    /// A byte that neither goes on with a token nor begins one.
    BadByte,
    /// A quoted word, a distinct object or a block comment without an end.
    Unclosed,
    /// The first token after which no text is in the grammar, or the end of the text where one has to go on.
    Syntax,
    /// A variable of a `fof` formula that no quantifier binds.
    FreeVariable,
    /// A role that isn't taken, or a conjecture in `cnf`.
    Role,
    /// The role of a second conjecture.
    SecondConjecture,
    /// A selected name that no formula of the included file has.
    SelectionMissing,
    /// An include in a file that is itself at the limit of includes.
    IncludeDepth,
    /// A file over the limit, or one with which all files are.
    TooLong,
    /// The token that begins a level over the limit.
    Nesting,
    /// A form that is left out by name.
    Inappropriate(Form),
    /// A file that couldn't be loaded.
    Load,
}

/// A text isn't read: for out of memory, or for a cause, with the name of a file and the place in it, in bytes from 0.
#[derive(Drop)]
pub enum ReadFault {
    NoMemory,
    At(ReadCause, Text, u32),
}

impl ReadFault {
    /// A fault in the file of that name.
    pub fn at(alloc: Global, cause: ReadCause, file: &[u8], place: u32) -> ReadFault
        ensures { IsFaultWhere (λ c f p. (c ≡ cause) × (f ≡ file.now) × (p ≡ place)) result }
    {
        match Text::from_slice(alloc, file) {
            Ok(name) => ReadFault::At(cause, name, place),
            Err(_) => ReadFault::NoMemory,
        }
    }
}

/// The cause and the place of a fault after the last token of a text: those of the tokens' own fault, or else `Syntax` at the
/// end of the text, which is handed in as its length in bytes.
pub fn fault_at_end(fault: Option<LexFault>, end: u32) -> (ReadCause, u32)
    ensures { IsEndFault fault end result.0 result.1 }
{
    match fault {
        Some(LexFault::BadByte(place)) => (ReadCause::BadByte, place),
        Some(LexFault::Unclosed(place)) => (ReadCause::Unclosed, place),
        None => (ReadCause::Syntax, end),
    }
}

impl From<NoMemory> for ReadFault {
    ghost use Rattle.std.specs.Prelude.{◌≡◌};
    ghost use Rattle.tptp_reader.specs.declared.cause.ReadFault.TheVariants.{NoMemory as no_memory};

    ghost from_gives = { λ _ e. e ≡ no_memory };

    fn from(_error: NoMemory) -> ReadFault {
        ReadFault::NoMemory
    }
}

impl From<AllocError> for ReadFault {
    ghost use Rattle.std.specs.Prelude.{◌≡◌};
    ghost use Rattle.tptp_reader.specs.declared.cause.ReadFault.TheVariants.{NoMemory as no_memory};

    ghost from_gives = { λ _ e. e ≡ no_memory };

    fn from(_error: AllocError) -> ReadFault {
        ReadFault::NoMemory
    }
}

impl<T: Drop> From<AllocFailed<T>> for ReadFault {
    ghost use Rattle.std.specs.Prelude.{◌≡◌};
    ghost use Rattle.tptp_reader.specs.declared.cause.ReadFault.TheVariants.{NoMemory as no_memory};

    ghost from_gives = { λ _ e. e ≡ no_memory };

    fn from(_error: AllocFailed<T>) -> ReadFault {
        ReadFault::NoMemory
    }
}

/// Why a token ends the reading of an annotated formula.
#[derive(Clone, Copy, Debug, PartialEq, Eq)]
pub enum Refusal {
    Syntax,
    FreeVariable,
    Role,
    Nesting,
    Inappropriate(Form),
}

/// Why reading stops before the end of a phrase.
#[derive(Clone, Copy, Debug, PartialEq, Eq)]
pub enum Halt {
    NoMemory,
    /// The token of that index is refused.
    At(Refusal, usize),
    /// There are no more tokens.
    Ended,
}

impl From<NoMemory> for Halt {
    ghost use Rattle.std.specs.Prelude.{◌≡◌};
    ghost use Rattle.tptp_reader.specs.declared.cause.Halt.TheVariants.{NoMemory as no_memory};

    ghost from_gives = { λ _ e. e ≡ no_memory };

    fn from(_error: NoMemory) -> Halt {
        Halt::NoMemory
    }
}

impl From<AllocError> for Halt {
    ghost use Rattle.std.specs.Prelude.{◌≡◌};
    ghost use Rattle.tptp_reader.specs.declared.cause.Halt.TheVariants.{NoMemory as no_memory};

    ghost from_gives = { λ _ e. e ≡ no_memory };

    fn from(_error: AllocError) -> Halt {
        Halt::NoMemory
    }
}

impl<T: Drop> From<AllocFailed<T>> for Halt {
    ghost use Rattle.std.specs.Prelude.{◌≡◌};
    ghost use Rattle.tptp_reader.specs.declared.cause.Halt.TheVariants.{NoMemory as no_memory};

    ghost from_gives = { λ _ e. e ≡ no_memory };

    fn from(_error: AllocFailed<T>) -> Halt {
        Halt::NoMemory
    }
}
