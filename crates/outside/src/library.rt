// Libraries: named texts that can be loaded.
ghost use Rattle.std.specs.Prelude.{◌≡◌, ◌≤◌, ℕ, List, Option, IfOk, IsErrOf, is_some, vec_len};
ghost use Rattle.outside.specs.declared.fault.LoadFault.TheVariants.{Failed, TooLong, NoMemory};
ghost use Rattle.outside.specs.Faults.{Rose};
ghost use Rattle.outside.specs.Library.{Holdings, HoldsExactly, FoundMore, failed_after};

use crate::fault::LoadFault;
use std::alloc::Global;

/// Where texts are loaded from by name.
pub trait Library {
    /// The texts that the library holds, where it tells.
    ghost told: { Self → Option Holdings };

    /// How often the library has failed. Where it is kept in a number, it stops at the number's end.
    ghost faults: { Self → ℕ };

    /// The name of the last load that failed, or the empty text before the first. It is told exactly
    /// where the holdings are.
    ghost failed: { Self → Option (List ℕ) };

    /// How many bytes the last load that was too long had found. Only of use where nothing is told.
    ghost found: { Self → ℕ } = { λ _. 0 };

    /// The bytes under a name, at most `limit` of them. A load changes no holdings.
    ///
    /// `Failed` comes only where the library failed in this call, or its count stands at the end;
    /// `TooLong` only where more than `limit` bytes were found. So where the library tells, a load
    /// that neither failed nor wanted memory is Ok exactly where the name is held within the limit.
    fn load(&mut self, alloc: Global, name: &str, limit: usize) -> Result<Vec<u8>, LoadFault>
        ensures within { IfOk result (λ bytes. vec_len bytes ≤ limit) }
        ensures bytes { IfOk result (λ bytes. HoldsExactly (told self.old) name.now bytes.items) }
        ensures told { told self.new ≡ told self.old }
        ensures later { faults self.old ≤ faults self.new }
        ensures cause { IsErrOf result Failed → Rose (faults self.old) (faults self.new) }
        ensures failed { failed self.new ≡ failed_after name.now result (failed self.old) }
        ensures too_long { IsErrOf result TooLong →
            FoundMore (told self.old) (found self.new) name.now limit }
        ensures no_memory { IsErrOf result NoMemory → faults self.new ≡ faults self.old };

    /// The holdings and the failed name are told together.
    ghost tells_both: { (library : Self) → is_some (failed library) ≡ is_some (told library) };
}
