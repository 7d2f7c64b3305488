// A whole text, by as many writes as it takes.
ghost use Rattle.std.specs.Prelude.{◌≡◌, ◌≤◌, OnOk, OnErr};
ghost use Rattle.outside.specs.Faults.{Rose};
ghost use Rattle.outside.specs.Sink.{with_bytes, HasPrefixAfter, Delivers};

use crate::fault::SinkFault;
use crate::sink::Sink;

/// Writes a whole text. Each write is handed all that was not yet taken.
///
/// It gives up only where the sink failed; then a proper prefix of the text was taken, and the write
/// that failed is the last. It takes no memory.
pub fn deliver<S: Sink>(sink: &mut S, text: &[u8]) -> Result<(), SinkFault>
    ensures writes { Delivers S.gives sink.old text.now result sink.new }
    ensures whole { OnOk result (S.taken sink.new ≡ with_bytes (S.taken sink.old) text.now) }
    ensures stays { OnOk result (S.faults sink.new ≡ S.faults sink.old) }
    ensures later { S.faults sink.old ≤ S.faults sink.new }
    ensures cause { OnErr result (Rose (S.faults sink.old) (S.faults sink.new)) }
    ensures prefix { OnErr result (HasPrefixAfter (S.taken sink.old) (S.taken sink.new) text.now) }
{
    let mut rest = text;
    while !rest.is_empty() {
        let count = sink.write(rest)?;
        rest = &rest[count..];
    }
    Ok(())
}
