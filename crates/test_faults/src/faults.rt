// Runs that end early: texts that are cut off, and loads and writes that fail.

use sample_runs::problems::{GROUP, GROUP_AXIOMS};

/// What is due to the first bytes of the two units, so many at least and at most.
pub(crate) struct Cut {
    pub least: usize,
    pub most: usize,
    pub status: u8,
    pub report: &'static [u8],
}

/// Every other cut is a fault of syntax at its end.
pub(crate) const CUTS: &[Cut] = &[
    Cut {
        least: 0,
        most: 0,
        status: 1,
        report: b"% SZS status Satisfiable for r1\n\
% SZS output start Saturation for r1\n\
% SZS output end Saturation for r1\n",
    },
    Cut {
        least: 1,
        most: 2,
        status: 3,
        report: b"% SZS status InputError for r1\n% Syntax at r1.p:0\n",
    },
    Cut {
        least: 7,
        most: 10,
        status: 3,
        report: b"% SZS status InputError for r1\n% Role at r1.p:6\n",
    },
    Cut {
        least: 15,
        most: 16,
        status: 1,
        report: b"% SZS status Satisfiable for r1\n\
% SZS output start Saturation for r1\n\
cnf(s0,plain,p).\n\
% SZS output end Saturation for r1\n",
    },
    Cut {
        least: 17,
        most: 18,
        status: 3,
        report: b"% SZS status InputError for r1\n% Syntax at r1.p:16\n",
    },
    Cut {
        least: 23,
        most: 39,
        status: 3,
        report: b"% SZS status InputError for r1\n% Role at r1.p:22\n",
    },
];

/// A run in which a load or a write fails: the words, the numbers of the loads and writes that fail, how many bytes the sink takes a
/// call, the status, and what the sink has taken.
pub(crate) struct Failure {
    pub words: &'static [&'static str],
    pub loads: &'static [u64],
    pub writes: &'static [u64],
    pub most: usize,
    pub status: u8,
    pub report: &'static [u8],
}

/// Over these files.
pub(crate) const FAILURE_FILES: &[(&str, &[u8])] = &[
    ("probs/r7.p", GROUP),
    ("LIB/Axioms/grp.ax", GROUP_AXIOMS),
    ("d", b""),
    ("r2.p", b""),
];

pub(crate) const FAILURES: &[Failure] = &[
    Failure {
        words: &["prove", "--tptp=LIB", "probs/r7.p"],
        loads: &[1],
        writes: &[],
        most: 64,
        status: 4,
        report: b"% SZS status OSError for r7\n% Load probs/r7.p\n",
    },
    Failure {
        words: &["prove", "--tptp=LIB", "probs/r7.p"],
        loads: &[2],
        writes: &[],
        most: 64,
        status: 4,
        report: b"% SZS status OSError for r7\n% Load LIB/Axioms/grp.ax\n",
    },
    Failure {
        words: &["check", "probs/r7.p", "d", "--tptp=LIB"],
        loads: &[3],
        writes: &[],
        most: 64,
        status: 4,
        report: b"% SZS status OSError for r7\n% Load d\n",
    },
    Failure {
        words: &["prove", "r2.p"],
        loads: &[],
        writes: &[3],
        most: 8,
        status: 5,
        report: b"% SZS status Sat",
    },
    Failure {
        words: &["prove", "r2.p"],
        loads: &[],
        writes: &[1],
        most: 1,
        status: 5,
        report: b"",
    },
];
