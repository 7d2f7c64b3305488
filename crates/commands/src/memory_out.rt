// The report of out of memory. It is written in pieces, since a text that is built whole would take memory.

ghost use Rattle.std.specs.Prelude.{◌≡◌};
ghost use Rattle.command_reports.specs.Names.{shown, problem_name};
ghost use Rattle.command_reports.specs.Reports.{for_problem, memory_out_report};
ghost use Rattle.commands.specs.Run.{taken_by, IsDelivery, DeliversInPieces};

use command_reports::{problem_bytes, shown_byte};
use outside::{Sink, SinkFault, deliver};

/// Writes that the program is out of memory for the problem in a file. It takes no memory.
pub fn deliver_memory_out<S: Sink>(sink: &mut S, file: &str) -> Result<(), SinkFault>
    ensures taken { IsDelivery (taken_by S.taken S.faults sink.old sink.new) (memory_out_report file.now) result }
    ensures writes { DeliversInPieces S.gives sink.old (memory_out_report file.now) result sink.new }
{
    deliver(sink, b"% SZS status MemoryOut")?;
    deliver_for(sink, file)
}

/// Writes the end of a line that names the problem.
fn deliver_for<S: Sink>(sink: &mut S, file: &str) -> Result<(), SinkFault>
    ensures taken { IsDelivery (taken_by S.taken S.faults sink.old sink.new) (for_problem file.now) result }
    ensures writes { DeliversInPieces S.gives sink.old (for_problem file.now) result sink.new }
{
    deliver(sink, b" for ")?;
    deliver_problem_name(sink, file)?;
    deliver(sink, b"\n")
}

/// Writes the name of the problem in a file.
fn deliver_problem_name<S: Sink>(sink: &mut S, file: &str) -> Result<(), SinkFault>
    ensures taken { IsDelivery (taken_by S.taken S.faults sink.old sink.new) (problem_name file.now) result }
    ensures writes { DeliversInPieces S.gives sink.old (problem_name file.now) result sink.new }
{
    deliver_shown(sink, problem_bytes(file))
}

/// Writes bytes as they are shown, one after another.
fn deliver_shown<S: Sink>(sink: &mut S, bytes: &[u8]) -> Result<(), SinkFault>
    ensures taken { IsDelivery (taken_by S.taken S.faults sink.old sink.new) (shown bytes.now) result }
    ensures writes { DeliversInPieces S.gives sink.old (shown bytes.now) result sink.new }
{
    for byte in bytes {
        deliver(sink, &[shown_byte(*byte)])?;
    }
    Ok(())
}
