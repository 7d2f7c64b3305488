// Why a line isn't taken.

ghost use Rattle.std.specs.Prelude.{◌≡◌};
ghost use Rattle.tstp_checker.specs.declared.refusal.Refusal.TheVariants.{NoMemory as RefusedMemory};

use crate::cause::Cause;
use plain_types::NoMemory;

/// Why a line isn't taken.
#[derive(Clone, Copy, Debug, PartialEq, Eq)]
pub(crate) enum Refusal {
    /// It is refused for that cause.
    Cause(Cause),
    /// Memory was refused.
    NoMemory,
}

impl From<NoMemory> for Refusal {
    ghost from_gives = { λ _ e. e ≡ RefusedMemory };

    fn from(_error: NoMemory) -> Refusal {
        Refusal::NoMemory
    }
}
