// Why a load or a write failed.
ghost use Rattle.std.specs.Prelude.{◌≡◌, Some};
ghost use Rattle.outside.specs.declared.fault.LoadFault.TheVariants.{NoMemory as no_memory};

use plain_types::NoMemory;
use std::alloc::AllocError;
use std::error::Error;
use std::fmt;

/// Why a load gave no bytes.
#[derive(Clone, Copy, Debug, PartialEq, Eq)]
pub enum LoadFault {
    /// The library failed, and has counted it.
    Failed,
    /// There are more bytes than the limit.
    TooLong,
    /// Memory was refused.
    NoMemory,
}

/// Why a write took no bytes.
#[derive(Clone, Copy, Debug, PartialEq, Eq)]
pub enum SinkFault {
    /// The sink failed, and has counted it.
    Failed,
}

impl fmt::Display for LoadFault {
    ghost use Rattle.outside.specs.Messages.{load_fault_text};

    ghost output = { λ fault. Some (load_fault_text fault) };

    fn fmt<W: fmt::Write>(&self, f: &mut fmt::Formatter<W>) -> fmt::Result {
        match self {
            LoadFault::Failed => write!(f, "the load failed"),
            LoadFault::TooLong => write!(f, "more bytes than the limit"),
            LoadFault::NoMemory => write!(f, "out of memory"),
        }
    }
}

impl fmt::Display for SinkFault {
    ghost use Rattle.outside.specs.Messages.{sink_fault_text};

    ghost output = { λ fault. Some (sink_fault_text fault) };

    fn fmt<W: fmt::Write>(&self, f: &mut fmt::Formatter<W>) -> fmt::Result {
        match self {
            SinkFault::Failed => write!(f, "the write failed"),
        }
    }
}

impl Error for LoadFault {}

impl Error for SinkFault {}

impl From<NoMemory> for LoadFault {
    ghost from_gives = { λ _ e. e ≡ no_memory };

    fn from(_error: NoMemory) -> LoadFault {
        LoadFault::NoMemory
    }
}

impl From<AllocError> for LoadFault {
    ghost from_gives = { λ _ e. e ≡ no_memory };

    fn from(_error: AllocError) -> LoadFault {
        LoadFault::NoMemory
    }
}
