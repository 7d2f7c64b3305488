// Sinks: what takes the bytes of a report.
ghost use Rattle.std.specs.Prelude.{◌≡◌, ◌<◌, ◌≤◌, ℕ, List, Option, Result, length, take, IfOk, OnOk, OnErr};
ghost use Rattle.outside.specs.Faults.{Rose};
ghost use Rattle.outside.specs.Sink.{with_bytes};
ghost use Rattle.outside.specs.declared.fault.SinkFault.{SinkFault};

use crate::fault::SinkFault;

/// Where bytes are written to.
pub trait Sink {
    /// The bytes taken so far, where the sink tells.
    ghost taken: { Self → Option (List ℕ) };

    /// How often the sink has failed. Where it is kept in a number, it stops at the number's end.
    ghost faults: { Self → ℕ };

    /// One write, as far as it is known: this sink, handed these bytes, answers so and becomes that
    /// sink.
    ghost gives: { Self → List ℕ → Result ℕ SinkFault → Self → Type 0 };

    /// Takes at least the first byte, and says how many it took.
    ///
    /// `Failed` comes only where the sink failed in this call, or its count stands at the end, and
    /// then nothing was taken. Where bytes were taken the count stayed.
    fn write(&mut self, bytes: &[u8]) -> Result<usize, SinkFault>
        requires { 0 < length bytes.now }
        ensures given { gives self.old bytes.now result self.new }
        ensures some { IfOk result (λ n. 0 < n) }
        ensures within { IfOk result (λ n. n ≤ length bytes.now) }
        ensures taken { IfOk result (λ n.
            taken self.new ≡ with_bytes (taken self.old) (take n bytes.now)) }
        ensures nothing { OnErr result (taken self.new ≡ taken self.old) }
        ensures stays { OnOk result (faults self.new ≡ faults self.old) }
        ensures later { faults self.old ≤ faults self.new }
        ensures cause { OnErr result (Rose (faults self.old) (faults self.new)) };
}
