// Texts at a limit, and one over it, which no clause says as numbers.

use crate::problems::{ANY, MEMBER_P};
use plain_types::Mem;
use sample_runs::{Run, ended_on_derivation};
use std::alloc::Global;

/// A text of which one part stands so many times before the middle and another as often after it, and what is answered to it: a problem, or a
/// derivation where its problem is given.
struct Limit {
    problem: Option<&'static [u8]>,
    front: &'static [u8],
    before: &'static [u8],
    count: usize,
    middle: &'static [u8],
    after: &'static [u8],
    back: &'static [u8],
    status: u8,
    report: &'static [u8],
}

/// A literal `p(X0)` and a step that would drop it, up to the first argument of the term that it binds.
const BOUND: &[u8] = b"cnf(c0,axiom,p(X),file(r,a)).\n\
cnf(c1,plain,p(X0),inference(clausify,[status(esa),index(0)],[c0])).\n\
cnf(c2,plain,$false,inference(refl,[status(thm),lit(0),bind([f(a";

const LIMITS: &[Limit] = &[
    Limit {
        problem: None,
        front: b"cnf(a,axiom,",
        before: b"(",
        count: 500,
        middle: b"p",
        after: b")",
        back: b").",
        status: 1,
        report: MEMBER_P,
    },
    Limit {
        problem: None,
        front: b"cnf(a,axiom,",
        before: b"(",
        count: 501,
        middle: b"p",
        after: b")",
        back: b").",
        status: 3,
        report: b"% SZS status InputError for d\n% Nesting at d.p:512\n",
    },
    // With the atom's own two symbols a parent that is bound may have 8,000.
    Limit {
        problem: Some(ANY),
        front: BOUND,
        before: b",a",
        count: 7_996,
        middle: b"",
        after: b"",
        back: b")])],[c1])).",
        status: 9,
        report: b"% refused at line 3: Rule\n",
    },
    Limit {
        problem: Some(ANY),
        front: BOUND,
        before: b",a",
        count: 7_997,
        middle: b"",
        after: b"",
        back: b")])],[c1])).",
        status: 9,
        report: b"% refused at line 3: Binding\n",
    },
];

impl Limit {
    fn text(&self, alloc: Global) -> Mem<Vec<u8>> {
        let mut text = Vec::new(alloc);
        text.extend_from_slice(self.front)?;
        for _ in 0..self.count {
            text.extend_from_slice(self.before)?;
        }
        text.extend_from_slice(self.middle)?;
        for _ in 0..self.count {
            text.extend_from_slice(self.after)?;
        }
        text.extend_from_slice(self.back)?;
        Ok(text)
    }
}

#[test]
fn limits_are_told(rt: HostRuntime) {
    let alloc = rt.alloc();
    for limit in LIMITS {
        let text = limit.text(alloc).expect(&rt, "memory");
        let text = text.as_slice();
        let told = match limit.problem {
            None => Run::new(&["prove", "d.p"], &[("d.p", text)]).ended(&rt, alloc),
            Some(problem) => ended_on_derivation(&rt, alloc, "check", problem, text),
        };
        let ended = told.expect(&rt, "memory");
        assert_eq!(rt; ended.status, limit.status, "{}", limit.count);
        assert!(rt; ended.report.as_slice() == limit.report, "{}", limit.count);
    }
}
