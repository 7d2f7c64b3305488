// Runs over memory end with the report that they should, which no clause says.

use crate::cases::CASES;
use crate::refuted::{REFUTED, Refuted};
use plain_types::Mem;
use sample_runs::{Ended, Run};
use std::alloc::Global;
use std::sync::Wait;
use std::thread::Threads;

#[test]
fn runs_report_as_stated(rt: HostRuntime) {
    for case in CASES {
        let run = Run::new(case.words, case.files);
        let ended = run.ended(&rt, rt.alloc()).expect(&rt, "memory");
        assert_eq!(rt; ended.status, case.status, "{}", case.report.len());
        assert!(rt;
            ended.report.as_slice() == case.report,
            "{}",
            case.report.len()
        );
    }
}

/// A list after another one.
fn joined<'a>(alloc: Global, front: &[&'a str], words: &[&'a str]) -> Mem<Vec<&'a str>> {
    let mut list = Vec::new(alloc);
    list.extend_from_slice(front)?;
    list.extend_from_slice(words)?;
    Ok(list)
}

impl Refuted {
    /// How the command that refutes it ends.
    fn ended<R: Threads + Wait + Sync>(&self, rt: &R, alloc: Global) -> Mem<Ended> {
        let mut words = joined(alloc, self.command, &["b.p"])?;
        words.extend_from_slice(self.options)?;
        Run::new(words.as_slice(), self.files).ended(rt, alloc)
    }

    /// How `check` ends on what was printed.
    fn ended_check<R: Threads + Wait + Sync>(
        &self,
        rt: &R,
        alloc: Global,
        printed: &[u8],
    ) -> Mem<Ended> {
        let words = joined(alloc, &["check", "b.p", "d"], self.options)?;
        let mut files = Vec::new(alloc);
        files.extend_from_slice(self.files)?;
        files.push(("d", printed))?;
        Run::new(words.as_slice(), files.as_slice()).ended(rt, alloc)
    }
}

// What is printed of a refutation is accepted by `check`: the lines around a derivation are comments.
#[test]
fn printed_refutations_are_accepted(rt: HostRuntime) {
    let alloc = rt.alloc();
    for problem in REFUTED {
        let ended = problem.ended(&rt, alloc).expect(&rt, "memory");
        assert_eq!(rt; ended.status, 0, "{}", problem.word);
        let printed = ended.report.as_slice();
        let first = format!(in alloc; "% SZS status {} for b\n", problem.word).expect(
            &rt, "memory",
        );
        assert!(rt; printed.starts_with(first.as_bytes()), "{}", problem.word);
        let checked = problem.ended_check(&rt, alloc, printed);
        assert_eq!(rt; checked.expect(&rt, "memory").status, 0, "{}", problem.word);
    }
}
