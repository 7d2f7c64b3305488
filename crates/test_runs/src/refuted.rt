// Problems that are refuted, whose printed derivations must be accepted.

use crate::problems::{CLAUSES, IMPLICATION, IN_THREE_STEPS, LAST_PART, REACHED, TWO_PARTS};
use sample_runs::problems::{GROUP, GROUP_AXIOMS};

/// Problems that are refuted, whose derivations must be accepted: the command that refutes `b.p`, the options that `check` has too, the files,
/// and the word of the status.
pub(crate) struct Refuted {
    pub command: &'static [&'static str],
    pub options: &'static [&'static str],
    pub files: &'static [(&'static str, &'static [u8])],
    pub word: &'static str,
}

pub(crate) const REFUTED: &[Refuted] = &[
    Refuted {
        command: &["prove"],
        options: &[],
        files: &[("b.p", IMPLICATION)],
        word: "Theorem",
    },
    Refuted {
        command: &["prove"],
        options: &[],
        files: &[("b.p", CLAUSES)],
        word: "Unsatisfiable",
    },
    Refuted {
        command: &["prove"],
        options: &[],
        files: &[("b.p", TWO_PARTS)],
        word: "Unsatisfiable",
    },
    // Of a part of the axioms: what is printed is a derivation from all.
    Refuted {
        command: &["prove", "--tolerance=100", "--depth=1"],
        options: &[],
        files: &[("b.p", REACHED)],
        word: "Theorem",
    },
    Refuted {
        command: &["prove", "--tolerance=1000", "--depth=3"],
        options: &[],
        files: &[("b.p", IN_THREE_STEPS)],
        word: "Theorem",
    },
    Refuted {
        command: &["prove", "--tolerance=1000", "--depth=50", "--split=off"],
        options: &[],
        files: &[("b.p", LAST_PART)],
        word: "Unsatisfiable",
    },
    Refuted {
        command: &["prove"],
        options: &["--tptp=LIB"],
        files: &[("b.p", GROUP), ("LIB/Axioms/grp.ax", GROUP_AXIOMS)],
        word: "Theorem",
    },
    Refuted {
        command: &["prove", "--workers=4"],
        options: &["--tptp=LIB"],
        files: &[("b.p", GROUP), ("LIB/Axioms/grp.ax", GROUP_AXIOMS)],
        word: "Theorem",
    },
];
