// The conclusions of chains of names, on rows worked out by hand. The other rules are shown by derivations that are checked.

use fol_base::{Clause, Literals};
use kernel_steps::*;
use plain_types::{NameLit, Names, Numbers};
use std::alloc::Global;
use std::process::Abort;

/// Names, negated below zero.
fn names(rt: &impl Abort, alloc: Global, numbers: &[i8]) -> Names {
    let mut names = Names::new(alloc);
    for number in numbers {
        let name = NameLit {
            positive: *number > 0,
            name: u32::from(number.unsigned_abs()),
        };
        names.push(name).expect(rt, "memory");
    }
    names
}

/// The lines `spl1 | spl2`, `~spl1` and `~spl2`. Their steps don't matter, as none introduces a name.
fn lines(rt: &impl Abort, alloc: Global) -> Derivation {
    let mut lines = Derivation::new(alloc);
    for numbers in [[1, 2].as_slice(), &[-1], &[-2]] {
        let clause = Clause {
            literals: Literals::new(alloc),
            names: names(rt, alloc, numbers),
        };
        let step = Step::Clausify(0);
        lines.push(Line { step, clause }).expect(rt, "memory");
    }
    lines
}

/// The pivots in the order of the parents lead to the empty clause, and in the other order to none.
#[test]
fn chains_of_names_conclude(rt: HostRuntime) {
    let alloc = rt.alloc();
    let lines = lines(&rt, alloc);
    for (pivots, is_right) in [([1, 2], true), ([2, 1], false)] {
        let step = Step::Chain {
            parents: Numbers::from_slice(alloc, &[0, 1, 2]).expect(&rt, "memory"),
            pivots: names(&rt, alloc, &pivots),
        };
        assert!(rt; step.is_rule_step());
        match conclusion(alloc, &step, &lines) {
            Ok(made) => assert!(rt; is_right && made.literals.is_empty() && made.names.is_empty()),
            Err(fault) => assert!(rt; !is_right && fault == StepFault::Rule),
        }
    }
}
