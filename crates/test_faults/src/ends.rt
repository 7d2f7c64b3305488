// Runs that end early end with the status and the report that are due.

use crate::faults::{CUTS, FAILURE_FILES, FAILURES};
use crate::problems::{ANY, ANY_SATURATED};
use commands::deliver_memory_out;
use outside::MemSink;
use plain_types::Numbers;
use sample_runs::Run;
use sample_runs::problems::TWO_UNITS;

// The first load that fails is told, of the problem's file, of one that it includes, and last of a derivation. A sink that fails has taken
// what came before.
#[test]
fn failures_end_the_run(rt: HostRuntime) {
    for failure in FAILURES {
        let run = Run {
            words: failure.words,
            files: FAILURE_FILES,
            failing_loads: failure.loads,
            failing_writes: failure.writes,
            bytes_a_call: failure.most,
        };
        let ended = run.ended(&rt, rt.alloc()).expect(&rt, "memory");
        assert_eq!(rt; ended.status, failure.status, "{}", failure.report.len());
        assert!(rt;
            ended.report.as_slice() == failure.report,
            "{}",
            failure.report.len()
        );
    }
}

// A sink that takes a byte a call holds the bytes before the call that fails, whichever it is.
#[test]
fn each_failing_write_ends_the_run(rt: HostRuntime) {
    for taken in 0..ANY_SATURATED.len() {
        let run = Run {
            words: &["prove", "r4.p"],
            files: &[("r4.p", ANY)],
            failing_loads: &[],
            failing_writes: &[taken as u64 + 1],
            bytes_a_call: 1,
        };
        let ended = run.ended(&rt, rt.alloc()).expect(&rt, "memory");
        assert_eq!(rt; ended.status, 5, "{taken}");
        assert!(rt;
            ended.report.as_slice() == &ANY_SATURATED[..taken],
            "{taken}"
        );
    }
}

// A problem that is cut off is told where its text ends, or what is missing before; or its first formula is the whole.
#[test]
fn cuts_are_told(rt: HostRuntime) {
    let alloc = rt.alloc();
    for end in 0..TWO_UNITS.len() {
        let files = [("r1.p", &TWO_UNITS[..end])];
        let ended = Run::new(&["prove", "r1.p"], &files).ended(&rt, alloc);
        let ended = ended.expect(&rt, "memory");
        let report = ended.report.as_slice();
        match CUTS.iter().find(|cut| cut.least <= end && end <= cut.most) {
            Some(cut) => {
                assert_eq!(rt; ended.status, cut.status, "{end}");
                assert!(rt; report == cut.report, "{end}");
            }
            None => {
                let at_end = format!(in alloc;
                    "% SZS status InputError for r1\n% Syntax at r1.p:{end}\n"
                );
                assert_eq!(rt; ended.status, 3, "{end}");
                assert!(rt; report == at_end.expect(&rt, "memory").as_bytes(), "{end}");
            }
        }
    }
}

// The report of a run out of memory is printed in pieces, also where the sink fails in the third of them.
#[test]
fn out_of_memory_is_told_in_pieces(rt: HostRuntime) {
    let alloc = rt.alloc();
    let mut sink = MemSink::new(alloc, 64, 1000, Numbers::new(alloc)).expect(&rt, "memory");
    assert!(rt; deliver_memory_out(&mut sink, "dir/\x01r1.p").is_ok());
    assert!(rt; sink.bytes() == b"% SZS status MemoryOut for ?r1\n".as_slice());
    let fourth = Numbers::from_slice(alloc, &[4]).expect(&rt, "memory");
    let mut failing = MemSink::new(alloc, 64, 1000, fourth).expect(&rt, "memory");
    assert!(rt; deliver_memory_out(&mut failing, "r1.p").is_err());
    assert!(rt; failing.bytes() == b"% SZS status MemoryOut for r".as_slice());
}
