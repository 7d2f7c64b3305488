// Why a derivation has no ground list here.

use plain_types::NoMemory;

/// The greatest weight of a ground list.
pub const MOST_WEIGHT: u64 = 10_000_000;

/// Why there is no ground list.
#[derive(Clone, Copy, Debug, PartialEq, Eq)]
pub enum GroundFault {
    /// The first line that speaks of names, counted from 1.
    Names(u64),
    /// The weight is over `MOST_WEIGHT`.
    Large,
    /// Out of memory.
    NoMemory,
}

impl From<NoMemory> for GroundFault {
    ghost use Rattle.std.specs.Prelude.{◌≡◌};
    ghost use Rattle.herbrand_list.specs.declared.fault.GroundFault.TheVariants.{NoMemory as no_memory};

    ghost from_gives = { λ _ e. e ≡ no_memory };

    fn from(_error: NoMemory) -> GroundFault {
        GroundFault::NoMemory
    }
}
