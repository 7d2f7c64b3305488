// Why a file isn't read, and where, for each language of annotated formulas.

ghost use Rattle.std.specs.Prelude.{◌≡◌};
ghost use Rattle.tptp_problem.specs.Faults.{IsFileFault, IsToldFault, IsReadFault};

use crate::entry::Entry;
use plain_types::{NoMemory, Text};
use std::alloc::{AllocError, AllocFailed, Global};
use tptp_reader::{ReadCause, ReadFault};

/// A file isn't read: for out of memory, or for a cause, with the name of a file and the place in it, in bytes from 0.
#[derive(Drop)]
pub enum FileFault<C> {
    NoMemory,
    At(C, Text, u32),
}

impl<C: Drop> FileFault<C> {
    /// A fault in the file of that name.
    pub fn at(alloc: Global, cause: C, file: &[u8], place: u32) -> FileFault<C>
        ensures { IsFileFault (λ c f p. (c ≡ cause) × (f ≡ file.now) × (p ≡ place)) result }
    {
        match Text::from_slice(alloc, file) {
            Ok(name) => FileFault::At(cause, name, place),
            Err(_) => FileFault::NoMemory,
        }
    }
}

/// A fault that no language has a part in, by its cause in the language of the entries.
pub fn told<E: Entry>(fault: ReadFault) -> FileFault<E::Cause>
    ensures { IsToldFault E.language fault result }
{
    match fault {
        ReadFault::NoMemory => FileFault::NoMemory,
        ReadFault::At(cause, file, place) => FileFault::At(E::cause(cause), file, place),
    }
}

/// The fault of a file with `fof` and `cnf`.
pub fn read_fault(fault: FileFault<ReadCause>) -> ReadFault
    ensures { IsReadFault fault result }
{
    match fault {
        FileFault::NoMemory => ReadFault::NoMemory,
        FileFault::At(cause, file, place) => ReadFault::At(cause, file, place),
    }
}

impl<C> From<NoMemory> for FileFault<C> {
    ghost use Rattle.std.specs.Prelude.{◌≡◌};
    ghost use Rattle.tptp_problem.specs.declared.fault.FileFault.TheVariants.{NoMemory as no_memory};

    ghost from_gives = { λ _ e. e ≡ no_memory };

    fn from(_error: NoMemory) -> FileFault<C> {
        FileFault::NoMemory
    }
}

impl<C> From<AllocError> for FileFault<C> {
    ghost use Rattle.std.specs.Prelude.{◌≡◌};
    ghost use Rattle.tptp_problem.specs.declared.fault.FileFault.TheVariants.{NoMemory as no_memory};

    ghost from_gives = { λ _ e. e ≡ no_memory };

    fn from(_error: AllocError) -> FileFault<C> {
        FileFault::NoMemory
    }
}

impl<T: Drop, C> From<AllocFailed<T>> for FileFault<C> {
    ghost use Rattle.std.specs.Prelude.{◌≡◌};
    ghost use Rattle.tptp_problem.specs.declared.fault.FileFault.TheVariants.{NoMemory as no_memory};

    ghost from_gives = { λ _ e. e ≡ no_memory };

    fn from(_error: AllocFailed<T>) -> FileFault<C> {
        FileFault::NoMemory
    }
}
