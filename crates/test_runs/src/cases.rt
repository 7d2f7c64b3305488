// Runs over memory, with the status and the report that each must give: a row or a few for each status.

use crate::problems::{
    APART, APART_SATURATED, EQUAL_TO_SOME, EQUIVALENCES, GROWN, IMPLICATION, NARROW, NARROW_SPLIT,
    NARROW_WHOLE, NO_MEMBERS, TWO_AND_WIDE, TWO_UNITS_DERIVATION, UNREACHED, USAGE,
};
use sample_runs::problems::TWO_UNITS;

/// A run: its words, the files' names and bytes, the status, and the report.
#[derive(Drop)]
pub(crate) struct Case {
    pub words: &'static [&'static str],
    pub files: &'static [(&'static str, &'static [u8])],
    pub status: u8,
    pub report: &'static [u8],
}

pub(crate) const CASES: &[Case] = &[
    // What ends with a saturated set.
    Case {
        words: &["prove", "r2.p"],
        files: &[("r2.p", b"")],
        status: 1,
        report: NO_MEMBERS,
    },
    Case {
        words: &["prove", "r9.p"],
        files: &[("r9.p", b"cnf(a,axiom,f(a) = b). cnf(b,axiom,f(a) = c).")],
        status: 1,
        report: b"% SZS status Satisfiable for r9\n\
% SZS output start Saturation for r9\n\
cnf(s0,plain,f(a) = b).\n\
cnf(s1,plain,b = c).\n\
% SZS output end Saturation for r9\n",
    },
    Case {
        words: &["prove", "--select=none", "--split=off", "r12.p"],
        files: &[("r12.p", NARROW)],
        status: 1,
        report: NARROW_WHOLE,
    },
    Case {
        words: &["prove", "r12.p"],
        files: &[("r12.p", NARROW)],
        status: 1,
        report: NARROW_SPLIT,
    },
    Case {
        words: &["prove", "r18.p"],
        files: &[("r18.p", APART)],
        status: 1,
        report: APART_SATURATED,
    },
    // By two workers, whose one inference makes the last member.
    Case {
        words: &["prove", "--workers=2", "r18.p"],
        files: &[("r18.p", APART)],
        status: 1,
        report: APART_SATURATED,
    },
    Case {
        words: &["prove", "c.p"],
        files: &[("c.p", b"cnf(a,axiom,p). fof(c,conjecture,q).")],
        status: 1,
        report: b"% SZS status CounterSatisfiable for c\n\
% SZS output start Saturation for c\n\
cnf(s0,plain,p).\n\
cnf(s1,plain,~q).\n\
% SZS output end Saturation for c\n",
    },
    // What a selection leaves out.
    Case {
        words: &["prove", "--tolerance=100", "--depth=1", "g17.p"],
        files: &[("g17.p", UNREACHED)],
        status: 10,
        report: b"% SZS status Unknown for g17\n\
% left out 2 of 3\n\
% SZS output start Saturation for g17\n\
cnf(s0,plain,~p(b)).\n\
% SZS output end Saturation for g17\n",
    },
    Case {
        words: &["prove", "--tolerance=200", "--depth=1", "g17.p"],
        files: &[("g17.p", UNREACHED)],
        status: 1,
        report: b"% SZS status CounterSatisfiable for g17\n\
% SZS output start Saturation for g17\n\
cnf(s0,plain,p(a)).\n\
cnf(s1,plain,~r(b)).\n\
cnf(s2,plain,~p(b)).\n\
% SZS output end Saturation for g17\n",
    },
    // Without a goal everything is kept.
    Case {
        words: &["prove", "--depth=50", "n.p", "--tolerance=1000"],
        files: &[("n.p", b"cnf(a,axiom,p). cnf(b,axiom,q).")],
        status: 1,
        report: b"% SZS status Satisfiable for n\n\
% SZS output start Saturation for n\n\
cnf(s0,plain,p).\n\
cnf(s1,plain,q).\n\
% SZS output end Saturation for n\n",
    },
    Case {
        words: &[
            "prove",
            "--tolerance=100",
            "--depth=1",
            "--inferences=10",
            "s.p",
        ],
        files: &[(
            "s.p",
            b"cnf(z,axiom,z). cnf(a,axiom,p(a)). cnf(b,negated_conjecture,~p(X) | p(f(X))). cnf(c,negated_conjecture,p(a)).",
        )],
        status: 2,
        report: b"% SZS status GaveUp for s\n% spent 10 of 10\n",
    },
    // What gives up.
    Case {
        words: &["prove", "--inferences=10", "r15.p"],
        files: &[("r15.p", b"cnf(a,axiom,p(a)). cnf(b,axiom,~p(X) | p(f(X))).")],
        status: 2,
        report: b"% SZS status GaveUp for r15\n% spent 10 of 10\n",
    },
    Case {
        words: &["prove", "r16.p"],
        files: &[(
            "r16.p",
            b"cnf(a,axiom,p(a)). cnf(b,axiom,~p(X) | p(f(X,X))).",
        )],
        status: 2,
        report: b"% SZS status GaveUp for r16\n% heavy para(11,0,left,1,0,left,[])\n",
    },
    // What would be too large to be built.
    Case {
        words: &["prove", "--select=none", "--split=off", "m.p"],
        files: &[("m.p", GROWN)],
        status: 7,
        report: b"% SZS status MemoryOut for m\n",
    },
    // What is no problem.
    Case {
        words: &["prove", "r13.p"],
        files: &[("r13.p", b"fof(a,axiom,p & q | r).")],
        status: 3,
        report: b"% SZS status InputError for r13\n% Syntax at r13.p:18\n",
    },
    Case {
        words: &["prove", "r14.p"],
        files: &[
            ("r14.p", b"include('ax.ax',[one,two])."),
            ("ax.ax", b"cnf(one,axiom,p)."),
        ],
        status: 3,
        report: b"% SZS status InputError for r14\n% SelectionMissing at r14.p:21\n",
    },
    Case {
        words: &["prove", "x.p"],
        files: &[("x.p", EQUIVALENCES)],
        status: 3,
        report: b"% SZS status InputError for x\n% Expansion in a\n",
    },
    Case {
        words: &["prove", "d/\x01 x.p.p"],
        files: &[("d/\x01 x.p.p", b"!")],
        status: 3,
        report: b"% SZS status InputError for ? x.p\n% Syntax at d/? x.p.p:0\n",
    },
    Case {
        words: &["prove", "r21.p"],
        files: &[("r21.p", b"tff(a,axiom,p).")],
        status: 8,
        report: b"% SZS status Inappropriate for r21\n% Typed at r21.p:0\n",
    },
    Case {
        words: &["prove", "none.p"],
        files: &[],
        status: 4,
        report: b"% SZS status OSError for none\n% Load none.p\n",
    },
    // A refutation without a step.
    Case {
        words: &["prove", "dir/r3.p"],
        files: &[("dir/r3.p", b"cnf(a,axiom,$false).")],
        status: 0,
        report: b"% SZS status Unsatisfiable for r3\n\
% SZS output start CNFRefutation for r3\n\
cnf(c0,axiom,$false,file('dir/r3.p',a)).\n\
cnf(c1,plain,$false,inference(clausify,[status(esa),index(0)],[c0])).\n\
% SZS output end CNFRefutation for r3\n",
    },
    // A refutation of one step, by a term for a variable.
    Case {
        words: &["prove", "r6.p"],
        files: &[("r6.p", EQUAL_TO_SOME)],
        status: 0,
        report: b"% SZS status Theorem for r6\n\
% SZS output start CNFRefutation for r6\n\
fof(c0,conjecture,! [X] : ? [Y] : X = Y,file('r6.p',g)).\n\
fof(c1,negated_conjecture,~(! [X] : ? [Y] : X = Y),inference(negate,[status(cth)],[c0])).\n\
cnf(c2,plain,sk0 != X0,inference(clausify,[status(esa),index(0)],[c1])).\n\
cnf(c3,plain,$false,inference(refl,[status(thm),lit(0),bind([sk0])],[c2])).\n\
% SZS output end CNFRefutation for r6\n",
    },
    // Derivations.
    Case {
        words: &["check", "r1.p", "d"],
        files: &[("r1.p", TWO_UNITS), ("d", TWO_UNITS_DERIVATION)],
        status: 0,
        report: b"% accepted 6 lines\n",
    },
    Case {
        words: &["check", "r1.p", "d"],
        files: &[("r1.p", TWO_UNITS), ("d", b"")],
        status: 9,
        report: b"% refused at line 0: NoEmptyClause\n",
    },
    // Finite models.
    Case {
        words: &["model", "r4.p"],
        files: &[("r4.p", b"cnf(a,axiom,p(X)).")],
        status: 11,
        report: b"% SZS status Satisfiable for r4\n\
% SZS output start FiniteModel for r4\n\
% size 1\n\
% p(0) = 1\n\
% SZS output end FiniteModel for r4\n",
    },
    Case {
        words: &["model", "--size=1", "m18.p"],
        files: &[("m18.p", b"cnf(a,axiom,a != b).")],
        status: 12,
        report: b"% SZS status GaveUp for m18\n% no model of size 1 to 1\n",
    },
    Case {
        words: &["model", "m18.p"],
        files: &[("m18.p", b"cnf(a,axiom,a != b).")],
        status: 11,
        report: b"% SZS status Satisfiable for m18\n\
% SZS output start FiniteModel for m18\n\
% size 2\n\
% a = 0\n\
% b = 1\n\
% SZS output end FiniteModel for m18\n",
    },
    Case {
        words: &["model", "m18.p"],
        files: &[("m18.p", TWO_AND_WIDE)],
        status: 12,
        report: b"% SZS status GaveUp for m18\n% too large at size 2\n",
    },
    Case {
        words: &["model", "c.p"],
        files: &[(
            "c.p",
            b"fof(a,axiom,? [X] : p(X)). fof(c,conjecture,! [X] : p(X)).",
        )],
        status: 11,
        report: b"% SZS status CounterSatisfiable for c\n\
% SZS output start FiniteModel for c\n\
% size 2\n\
% p(0) = 1\n\
% p(1) = 0\n\
% SZS output end FiniteModel for c\n",
    },
    // Ground lists and decisions.
    Case {
        words: &["ground", "r1.p", "d"],
        files: &[("r1.p", TWO_UNITS), ("d", TWO_UNITS_DERIVATION)],
        status: 13,
        report: b"% ground instances 2\ncnf(g0,axiom,~p).\ncnf(g1,axiom,p).\n",
    },
    Case {
        words: &["ground", "r1.p", "d"],
        files: &[("r1.p", TWO_UNITS), ("d", b"")],
        status: 9,
        report: b"% refused at line 0: NoEmptyClause\n",
    },
    Case {
        words: &["decide", "r1.p"],
        files: &[("r1.p", TWO_UNITS)],
        status: 15,
        report: b"% ground form refuted\n",
    },
    Case {
        words: &["decide", "g.p"],
        files: &[(
            "g.p",
            b"cnf(a,axiom,a = b | a = c). cnf(b,axiom,f(a) != f(b)).",
        )],
        status: 16,
        report: b"% ground form has a model\n",
    },
    Case {
        words: &["decide", "dir/r5.p"],
        files: &[("dir/r5.p", IMPLICATION)],
        status: 3,
        report: b"% SZS status InputError for r5\n% NotGround in a\n",
    },
    // A problem that no file spells.
    Case {
        words: &["bench", "2"],
        files: &[],
        status: 0,
        report: b"% bench 2 status Theorem\n% counted 4 lines 19\n",
    },
    // Words.
    Case {
        words: &["bench", "2001"],
        files: &[],
        status: 6,
        report: USAGE,
    },
    Case {
        words: &["prove"],
        files: &[],
        status: 6,
        report: USAGE,
    },
    Case {
        words: &["prove", "--depth=1", "r2.p"],
        files: &[("r2.p", b"")],
        status: 6,
        report: USAGE,
    },
];
