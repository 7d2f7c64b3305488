// One run of the program.

ghost use Rattle.std.specs.Prelude.{◌≡◌, IfOk};
ghost use Rattle.command_reports.specs.Outside.{outside_by};
ghost use Rattle.commands.specs.Answer.{IsAnswered};
ghost use Rattle.command_words.specs.WordParts.{command_meant, IsFit};
ghost use Rattle.command_reports.specs.Reports.{memory_out_report};
ghost use Rattle.commands.specs.Rows.{TheoremRow, FormFaultRow, LoadFaultRow, LostOutputRow, UsageRow, MemoryOutRow, ReadFaultRow, CompleteRow};
ghost use Rattle.commands.specs.ProveRows.{PrintedRow, SaturatedRow, PartSaturatedRow, GaveUpRow};
ghost use Rattle.commands.specs.CheckRows.{CheckedRow};
ghost use Rattle.commands.specs.ModelRows.{ModelRow};
ghost use Rattle.commands.specs.GroundRows.{GroundRow};
ghost use Rattle.commands.specs.DecideRows.{DecideRow};
ghost use Rattle.commands.specs.BenchRows.{BenchRow};
ghost use Rattle.commands.specs.Run.{file_of, taken_by, status_after, IsRunBy, DeliveredBy};

use crate::bench::{BENCH_NAME, bench_report};
use crate::check::check_report;
use crate::decide::decide_report;
use crate::ground::ground_report;
use crate::memory_out::deliver_memory_out;
use crate::model::model_report;
use crate::prove::prove_report;
use clausal_form::laws::texts_have_one_answer;
use command_reports::{MEMORY_OUT, Report, SINK_FAILED, USAGE_SHOWN};
use command_words::{Command, Words};
use outside::{Library, Sink, SinkFault, deliver};
use plain_types::{Mem, NoMemory};
use std::alloc::Global;
use std::sync::Wait;
use std::thread::Threads;
use worker_team::Gate;

const USAGE: &[u8] =
    b"usage: prove FILE [--workers=K] [--inferences=N] [--tptp=DIR] [--select=none|negative] [--split=on|off] [--tolerance=T --depth=D]\n       check FILE DERIVATION [--tptp=DIR]\n       bench N\n       model FILE [--size=S] [--tptp=DIR]\n       ground FILE DERIVATION [--tptp=DIR]\n       decide FILE [--tptp=DIR]\n";

/// What the program does with the words of its command line: it proves a problem, from a file or one that it makes, checks a derivation
/// or lists its ground instances, finds a model, or decides a form without variables, and writes the report. Workers that prove pass the
/// gate before each of their jobs. The answer is the status of the report, or `SINK_FAILED`. For words that are usage it takes no memory,
/// and none for the report that it is out of memory. Each clause but the last two is a row of the table of answers and stands alone.
/// `complete` says that `prove` and `check` answer a valid input; what the other commands answer is in their rows. `writes` has the whole:
/// what is due, and by which writes it is delivered.
pub fn run<R: Threads + Wait + Sync, L: Library, S: Sink, G: Gate + Sync>(
    rt: &R,
    alloc: Global,
    words: &Words,
    library: &mut L,
    sink: &mut S,
    gate: &G,
) -> u8
    ensures usage { UsageRow words.now
        (taken_by S.taken S.faults sink.old sink.new)
        result }
    ensures theorem { TheoremRow words.now
        (outside_by L.told L.faults L.found L.failed library.old library.new)
        result }
    ensures printed { PrintedRow words.now
        (outside_by L.told L.faults L.found L.failed library.old library.new)
        (taken_by S.taken S.faults sink.old sink.new)
        result }
    ensures saturated { SaturatedRow words.now
        (outside_by L.told L.faults L.found L.failed library.old library.new)
        (taken_by S.taken S.faults sink.old sink.new)
        result }
    ensures part_saturated { PartSaturatedRow words.now
        (outside_by L.told L.faults L.found L.failed library.old library.new)
        (taken_by S.taken S.faults sink.old sink.new)
        result }
    ensures gave_up { GaveUpRow words.now
        (outside_by L.told L.faults L.found L.failed library.old library.new)
        (taken_by S.taken S.faults sink.old sink.new)
        result }
    ensures read_fault { ReadFaultRow words.now
        (outside_by L.told L.faults L.found L.failed library.old library.new)
        (taken_by S.taken S.faults sink.old sink.new)
        result }
    ensures form_fault { FormFaultRow words.now
        (outside_by L.told L.faults L.found L.failed library.old library.new)
        (taken_by S.taken S.faults sink.old sink.new)
        result }
    ensures load_fault { LoadFaultRow words.now
        (outside_by L.told L.faults L.found L.failed library.old library.new)
        (taken_by S.taken S.faults sink.old sink.new)
        result }
    ensures lost_output { LostOutputRow words.now
        (outside_by L.told L.faults L.found L.failed library.old library.new)
        (taken_by S.taken S.faults sink.old sink.new)
        result }
    ensures checked { CheckedRow words.now
        (outside_by L.told L.faults L.found L.failed library.old library.new)
        (taken_by S.taken S.faults sink.old sink.new)
        result }
    ensures model { ModelRow words.now
        (outside_by L.told L.faults L.found L.failed library.old library.new)
        (taken_by S.taken S.faults sink.old sink.new)
        result }
    ensures listed { GroundRow words.now
        (outside_by L.told L.faults L.found L.failed library.old library.new)
        (taken_by S.taken S.faults sink.old sink.new)
        result }
    ensures decided { DecideRow words.now
        (outside_by L.told L.faults L.found L.failed library.old library.new)
        (taken_by S.taken S.faults sink.old sink.new)
        result }
    ensures bench { BenchRow words.now
        (taken_by S.taken S.faults sink.old sink.new)
        result }
    ensures memory_out { MemoryOutRow words.now
        (taken_by S.taken S.faults sink.old sink.new)
        result }
    ensures complete { CompleteRow words.now
        (outside_by L.told L.faults L.found L.failed library.old library.new)
        result }
    ensures writes { IsRunBy S.gives sink.old sink.new words.now
        (outside_by L.told L.faults L.found L.failed library.old library.new)
        (taken_by S.taken S.faults sink.old sink.new)
        result }
{
    texts_have_one_answer();
    run_words(rt, alloc, words, library, sink, gate)
}

/// The report that is due to the words is made and written.
fn run_words<R: Threads + Wait + Sync, L: Library, S: Sink, G: Gate + Sync>(
    rt: &R,
    alloc: Global,
    words: &Words,
    library: &mut L,
    sink: &mut S,
    gate: &G,
) -> u8
    ensures { IsRunBy S.gives sink.old sink.new words.now
        (outside_by L.told L.faults L.found L.failed library.old library.new)
        (taken_by S.taken S.faults sink.old sink.new)
        result }
{
    match words.command() {
        None => deliver_report(sink, USAGE, USAGE_SHOWN),
        Some(command) => match report_to(rt, alloc, command, library, gate) {
            Ok(report) => deliver_report(sink, report.text.as_slice(), report.status),
            Err(NoMemory) => report_memory_out(sink, file_of(command)),
        },
    }
}

/// Writes a report. The answer is its status, or `SINK_FAILED`.
fn deliver_report<S: Sink>(sink: &mut S, text: &[u8], status: u8) -> u8
    ensures { DeliveredBy S.gives sink.old sink.new
        (taken_by S.taken S.faults sink.old sink.new)
        status text.now result }
{
    status_after(status, deliver(sink, text))
}

/// Writes that the program is out of memory for the problem in a file. The answer is `MEMORY_OUT`, or `SINK_FAILED`.
fn report_memory_out<S: Sink>(sink: &mut S, file: &str) -> u8
    ensures { DeliveredBy S.gives sink.old sink.new
        (taken_by S.taken S.faults sink.old sink.new)
        MEMORY_OUT (memory_out_report file.now) result }
{
    status_after(MEMORY_OUT, deliver_memory_out(sink, file))
}

/// The status that is due, or `SINK_FAILED`.
fn status_after(due: u8, delivered: Result<(), SinkFault>) -> u8
    ensures { result ≡ status_after due delivered }
{
    match delivered {
        Ok(()) => due,
        Err(_) => SINK_FAILED,
    }
}

/// The report that is due to a command.
fn report_to<R: Threads + Wait + Sync, L: Library, G: Gate + Sync>(
    rt: &R,
    alloc: Global,
    command: Command<'_>,
    library: &mut L,
    gate: &G,
) -> Mem<Report>
    requires fit { IsFit (command_meant command) }
    ensures { IfOk result (λ report.
        IsAnswered (command_meant command.entry)
        (outside_by L.told L.faults L.found L.failed library.old library.new)
        report.status report.text) }
{
    match command {
        Command::Prove {
            file,
            root,
            options,
            workers,
        } => prove_report(rt, alloc, library, file, root, options, workers, gate),
        Command::Check {
            file,
            derivation,
            root,
        } => check_report(alloc, library, file, derivation, root),
        Command::Bench { number } => bench_report(rt, alloc, number, gate),
        Command::Model { file, root, most } => model_report(alloc, library, file, root, most),
        Command::Ground {
            file,
            derivation,
            root,
        } => ground_report(alloc, library, file, derivation, root),
        Command::Decide { file, root } => decide_report(alloc, library, file, root),
    }
}

/// The problem's file, or the name of a problem that no file spells.
fn file_of<'a>(command: Command<'a>) -> &'a str
    ensures { result.now ≡ file_of (command_meant command.entry) }
{
    match command {
        Command::Prove { file, .. } => file,
        Command::Check { file, .. } => file,
        Command::Bench { .. } => BENCH_NAME,
        Command::Model { file, .. } => file,
        Command::Ground { file, .. } => file,
        Command::Decide { file, .. } => file,
    }
}
