// A sink over the real standard output.
ghost use Rattle.std.specs.Prelude.{◌≡◌, ◌≤◌, ◌<◌, None, length, take, OnErr, IfSome, MatchOption};
ghost use Rattle.outside.specs.Faults.{Rose};
ghost use Rattle.std.specs.Io.KnownBytes.{Appends, Keeps};

use crate::fault::SinkFault;
use crate::sink::Sink;
use std::io;
use std::io::{ErrorKind, Print, Write};

/// The standard output. It tells nothing of what it has taken.
#[derive(Drop)]
pub struct StdoutSink<'a, R> {
    rt: &'a R,
    faults: u64,
}

impl<'a, R> StdoutSink<'a, R> {
    ghost use Rattle.outside.specs.Real.{stdout_faults};

    /// A sink that has not failed yet.
    pub fn new(rt: &'a R) -> StdoutSink<'a, R>
        ensures { stdout_faults result ≡ 0 }
    {
        StdoutSink { rt, faults: 0 }
    }

    /// How many writes have failed.
    pub fn faults(&self) -> u64
        ensures { result ≡ stdout_faults self.now }
    {
        self.faults
    }
}

impl<R: Print> Sink for StdoutSink<'_, R> {
    ghost use Rattle.outside.specs.Real.{stdout_faults, StdoutGives};

    ghost taken = { λ _. None };

    ghost faults = { stdout_faults };

    ghost gives = { StdoutGives };

    fn write(&mut self, bytes: &[u8]) -> Result<usize, SinkFault>
        ensures given { StdoutGives self.old bytes.now result self.new }
        // Clauses of the trait that this gives.
        ensures later { stdout_faults self.old ≤ stdout_faults self.new }
        ensures cause { OnErr result (Rose (stdout_faults self.old) (stdout_faults self.new)) }
    {
        match write_some(&mut io::writer(self.rt), bytes) {
            Some(count) => Ok(count),
            None => {
                self.faults = self.faults.saturating_add(1);
                Err(SinkFault::Failed)
            }
        }
    }
}

// One write, made again where a signal cut it off before it took a byte.
fn write_some<W: Write>(writer: &mut W, bytes: &[u8]) -> Option<usize>
    ensures some { IfSome result (λ n. 0 < n) }
    ensures within { IfSome result (λ n. n ≤ length bytes.now) }
    ensures bytes { MatchOption result (Keeps (W.contents writer.old) (W.contents writer.new))
        (λ n. Appends (W.contents writer.old) (W.contents writer.new) (take n bytes.now)) }
{
    for _ in 0..u64::MAX {
        match writer.write(bytes) {
            Ok(0) => return None,
            Ok(count) => return Some(count),
            Err(error) if error.kind() == ErrorKind::Interrupted => {}
            Err(_) => return None,
        }
    }
    None
}
