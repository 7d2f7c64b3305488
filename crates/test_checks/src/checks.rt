// Derivations that are checked, and changed ones. Where the lines of one are right and lead to no empty clause, they tell the clauses of a form.

use plain_types::Mem;
use sample_runs::ended_on_derivation;
use sample_runs::problems::TWO_UNITS;
use std::alloc::Global;

/// A problem, the lines of a derivation of it, and what is answered to the lines and to changed ones.
#[derive(Drop)]
struct Example {
    problem: &'static [u8],
    lines: &'static [&'static [u8]],
    rows: &'static [Row],
}

/// A place at which no derivation has a line.
const NOWHERE: usize = 1_000;

/// The place of a line that is changed, what stands there, the status and the report.
type Row = (usize, &'static [u8], u8, &'static [u8]);

/// Two units.
const UNITS: Example = Example {
    problem: TWO_UNITS,
    lines: &[
        b"cnf(c0,axiom,p,file('r1.p',a)).",
        b"cnf(c1,negated_conjecture,~p,file('r1.p',b)).",
        b"cnf(c2,plain,p,inference(clausify,[status(esa),index(0)],[c0])).",
        b"cnf(c3,plain,~p,inference(clausify,[status(esa),index(1)],[c1])).",
        b"cnf(c4,plain,~$true,inference(para,[status(thm),from(0,left),into(0,left,[]),bind([]),bind([])],[c2,c3])).",
        b"cnf(c5,plain,$false,inference(refl,[status(thm),lit(0),bind([])],[c4])).",
    ],
    rows: &[
        (NOWHERE, b"", 0, b"% accepted 6 lines\n"),
        (
            5,
            b"cnf(c5,plain,$false,inference(refl,[status(thm),lit(0),bind([])],[c5])).",
            9,
            b"% refused at line 6: UnknownParent\n",
        ),
        (
            5,
            b"cnf(c5,plain,$false,inference(refl,[status(thm),lit(0),bind([])],[c4])).\n\
cnf(c5,plain,$false,inference(refl,[status(thm),lit(0),bind([])],[c4])).",
            9,
            b"% refused at line 7: Order\n",
        ),
        (
            4,
            b"cnf(c4,plain,~$true,inference(para,[status(thm),from(0,left),into(0,left,[0]),bind([]),bind([])],[c2,c3])).",
            9,
            b"% refused at line 5: Rule\n",
        ),
        (
            4,
            b"cnf(c4,plain,~$true,inference(para,[status(thm),from(0,right),into(0,left,[]),bind([]),bind([])],[c2,c3])).",
            9,
            b"% refused at line 5: Rule\n",
        ),
        (
            4,
            b"cnf(c4,plain,~$true,inference(para,[status(thm),from(99999999999999999999,left),into(0,left,[]),bind([]),bind([])],[c2,c3])).",
            9,
            b"% refused at line 5: Rule\n",
        ),
        (
            2,
            b"cnf(c2,plain,p,inference(clausify,[status(esa),index(4294967296)],[c0])).",
            9,
            b"% refused at line 3: Clausify\n",
        ),
    ],
};

/// One implication.
const IMPLICATION: Example = Example {
    problem: b"fof(a,axiom,! [X] : (p(X) => q(X))). fof(b,axiom,p(a)). fof(c,conjecture,q(a)).",
    lines: &[
        b"fof(c0,axiom,! [X] : (p(X) => q(X)),file('r5.p',a)).",
        b"fof(c1,axiom,p(a),file('r5.p',b)).",
        b"fof(c2,conjecture,q(a),file('r5.p',c)).",
        b"fof(c3,negated_conjecture,~q(a),inference(negate,[status(cth)],[c2])).",
        b"cnf(c4,plain,~p(X0) | q(X0),inference(clausify,[status(esa),index(0)],[c0])).",
        b"cnf(c5,plain,p(a),inference(clausify,[status(esa),index(1)],[c1])).",
        b"cnf(c6,plain,~q(a),inference(clausify,[status(esa),index(2)],[c3])).",
        b"cnf(c7,plain,~$true | q(a),inference(para,[status(thm),from(0,left),into(0,left,[]),bind([]),bind([a])],[c5,c4])).",
        b"cnf(c8,plain,q(a),inference(refl,[status(thm),lit(0),bind([])],[c7])).",
        b"cnf(c9,plain,~$true,inference(para,[status(thm),from(0,left),into(0,left,[]),bind([]),bind([])],[c8,c6])).",
        b"cnf(c10,plain,$false,inference(refl,[status(thm),lit(0),bind([])],[c9])).",
    ],
    rows: &[
        (NOWHERE, b"", 0, b"% accepted 11 lines\n"),
        (
            7,
            b"cnf(c7,plain,~$true | q(a),inference(para,[status(thm),from(0,left),into(0,left,[]),bind([]),bind([b])],[c5,c4])).",
            9,
            b"% refused at line 8: Rule\n",
        ),
        (
            7,
            b"cnf(c7,plain,~$true | q(a),inference(para,[status(thm),from(0,left),into(0,left,[])],[c5,c4])).",
            9,
            b"% refused at line 8: Binding\n",
        ),
        (
            8,
            b"cnf(c8,plain,q(X),inference(refl,[status(thm),lit(0),bind([])],[c7])).",
            9,
            b"% refused at line 9: Conclusion\n",
        ),
        (
            10,
            b"cnf(c9,plain,$false,inference(refl,[status(thm),lit(0),bind([])],[c9])).",
            9,
            b"% refused at line 11: Order\n",
        ),
        (
            7,
            b"cnf(c7,plain,~$true | q(a),inference(para,[status(thm),from(0,left),into(0,left,[]),bind([]),bind([a])],[c99,c4])).",
            9,
            b"% refused at line 8: UnknownParent\n",
        ),
        (
            1,
            b"fof(c1,axiom,p(b),file('r5.p',b)).",
            9,
            b"% refused at line 2: Leaf\n",
        ),
        (
            4,
            b"cnf(c4,plain,~p(X0) | q(X0),inference(clausify,[status(esa),index(3)],[c0])).",
            9,
            b"% refused at line 5: Clausify\n",
        ),
        (
            0,
            b"fof(c0,axiom,! [X] : (p(X) => q(X)),file('r5.p',a))",
            9,
            b"% refused at line 1: Text\n",
        ),
        (10, b"", 9, b"% refused at line 10: NoEmptyClause\n"),
        (
            3,
            b"fof(c3,negated_conjecture,~q(a),inference(negate,[status(cth)],[c1])).",
            9,
            b"% refused at line 4: Rule\n",
        ),
        (
            3,
            b"fof(c3,negated_conjecture,~q(b),inference(negate,[status(cth)],[c2])).",
            9,
            b"% refused at line 4: Conclusion\n",
        ),
        (
            1,
            b"fof(c1,axiom,p(X),file('r5.p',b)).",
            9,
            b"% refused at line 2: Text\n",
        ),
    ],
};

/// A variable that differs from itself.
const UNEQUAL: Example = Example {
    problem: b"cnf(a,axiom,X != X).",
    lines: &[
        b"cnf(c0,axiom,X != X,file('r.p',a)).",
        b"cnf(c1,plain,X0 != X0,inference(clausify,[status(esa),index(0)],[c0])).",
        b"cnf(c2,plain,$false,inference(refl,[status(thm),lit(0),bind([hc0])],[c1])).",
    ],
    rows: &[
        (NOWHERE, b"", 0, b"% accepted 3 lines\n"),
        (
            2,
            b"cnf(c2,plain,$false,inference(refl,[status(thm),lit(0),bind([X])],[c1])).",
            0,
            b"% accepted 3 lines\n",
        ),
        (
            2,
            b"cnf(c2,plain,$false,inference(refl,[status(thm),lit(0),bind([zz])],[c1])).",
            9,
            b"% refused at line 3: NewSymbol\n",
        ),
    ],
};

/// A clause of two components.
const COMPONENTS: Example = Example {
    problem: b"cnf(a,axiom,p(X) | q(Y)). cnf(b,axiom,~p(a)). cnf(c,axiom,~q(b)).",
    lines: &[
        b"cnf(c0,axiom,p(X) | q(Y),file('r10.p',a)).",
        b"cnf(c1,axiom,~p(a),file('r10.p',b)).",
        b"cnf(c2,axiom,~q(b),file('r10.p',c)).",
        b"cnf(c3,plain,p(X0) | q(X1),inference(clausify,[status(esa),index(0)],[c0])).",
        b"cnf(c4,plain,~p(a),inference(clausify,[status(esa),index(1)],[c1])).",
        b"cnf(c5,plain,~q(b),inference(clausify,[status(esa),index(2)],[c2])).",
        b"cnf(c6,plain,p(X0) | ~spl0,introduced(definition,[component(spl0)])).",
        b"cnf(c7,plain,q(X0) | ~spl1,introduced(definition,[component(spl1)])).",
        b"cnf(c8,plain,spl0 | spl1,inference(split,[status(esa),parts([[0],[1]])],[c3,c6,c7])).",
        b"cnf(c9,plain,~$true | ~spl0,inference(para,[status(thm),from(0,left),into(0,left,[]),bind([a]),bind([])],[c6,c4])).",
        b"cnf(c10,plain,~spl0,inference(refl,[status(thm),lit(0),bind([])],[c9])).",
        b"cnf(c11,plain,~$true | ~spl1,inference(para,[status(thm),from(0,left),into(0,left,[]),bind([b]),bind([])],[c7,c5])).",
        b"cnf(c12,plain,~spl1,inference(refl,[status(thm),lit(0),bind([])],[c11])).",
        b"cnf(c13,plain,$false,inference(chain,[status(thm),pivots([spl0,spl1])],[c8,c10,c12])).",
    ],
    rows: &[
        (NOWHERE, b"", 0, b"% accepted 14 lines\n"),
        (
            7,
            b"cnf(c7,plain,q(X0) | ~spl0,introduced(definition,[component(spl0)])).",
            9,
            b"% refused at line 8: NewSymbol\n",
        ),
        (
            13,
            b"cnf(c13,plain,$false,inference(chain,[status(thm),pivots([spl1,spl0])],[c8,c10,c12])).",
            9,
            b"% refused at line 14: Rule\n",
        ),
        (
            8,
            b"cnf(c8,plain,spl0 | spl1,inference(split,[status(esa),parts([[0],[0]])],[c3,c6,c7])).",
            9,
            b"% refused at line 9: Rule\n",
        ),
        (
            8,
            b"cnf(c8,plain,spl0 | spl1,inference(split,[status(esa),parts([[0],[1]],x)],[c3,c6,c7])).",
            9,
            b"% refused at line 9: Rule\n",
        ),
        (
            13,
            b"cnf(c13,plain,$false,inference(chain,[status(thm),pivots([spl0,spl1],x)],[c8,c10,c12])).",
            9,
            b"% refused at line 14: Rule\n",
        ),
        (
            9,
            b"cnf(c9,plain,~$true | ~spl0 | ~spl0,inference(para,[status(thm),from(0,left),into(0,left,[]),bind([a]),bind([])],[c6,c4])).",
            9,
            b"% refused at line 10: Text\n",
        ),
        (
            8,
            b"cnf(c8,plain,spl0 | spl0 | spl1,inference(split,[status(esa),parts([[0],[1]])],[c3,c6,c7])).",
            9,
            b"% refused at line 9: Text\n",
        ),
        (
            8,
            b"cnf(c8,plain,spl0 | ~spl0 | spl1,inference(split,[status(esa),parts([[0],[1]])],[c3,c6,c7])).",
            9,
            b"% refused at line 9: Text\n",
        ),
        (
            8,
            b"cnf(c8,plain,~spl0 | spl0 | spl1,inference(split,[status(esa),parts([[0],[1]])],[c3,c6,c7])).",
            9,
            b"% refused at line 9: Conclusion\n",
        ),
    ],
};

/// Ground literals that share names with their complements, over a further clause, which the lines don't use.
const SIGNED: Example = Example {
    problem: b"cnf(a,axiom,p | q). cnf(b,axiom,~p | q). cnf(c,axiom,p | ~q). cnf(d,axiom,~p | ~q). cnf(e,axiom,r(a)).",
    lines: &[
        b"cnf(c0,axiom,p | q,file('r11.p',a)).",
        b"cnf(c1,axiom,~p | q,file('r11.p',b)).",
        b"cnf(c2,axiom,p | ~q,file('r11.p',c)).",
        b"cnf(c3,axiom,~p | ~q,file('r11.p',d)).",
        b"cnf(c4,plain,p | q,inference(clausify,[status(esa),index(0)],[c0])).",
        b"cnf(c5,plain,~p | q,inference(clausify,[status(esa),index(1)],[c1])).",
        b"cnf(c6,plain,p | ~q,inference(clausify,[status(esa),index(2)],[c2])).",
        b"cnf(c7,plain,~p | ~q,inference(clausify,[status(esa),index(3)],[c3])).",
        b"cnf(c8,plain,p | ~spl0,introduced(definition,[component(spl0)])).",
        b"cnf(c9,plain,q | ~spl1,introduced(definition,[component(spl1)])).",
        b"cnf(c10,plain,~p | spl0,introduced(definition,[opposite(spl0)])).",
        b"cnf(c11,plain,~q | spl1,introduced(definition,[opposite(spl1)])).",
        b"cnf(c12,plain,spl0 | spl1,inference(split,[status(esa),parts([[0],[1]])],[c4,c8,c9])).",
        b"cnf(c13,plain,~spl0 | spl1,inference(split,[status(esa),parts([[0],[1]])],[c5,c10,c9])).",
        b"cnf(c14,plain,spl0 | ~spl1,inference(split,[status(esa),parts([[0],[1]])],[c6,c8,c11])).",
        b"cnf(c15,plain,~spl0 | ~spl1,inference(split,[status(esa),parts([[0],[1]])],[c7,c10,c11])).",
        b"cnf(c16,plain,spl1,inference(chain,[status(thm),pivots([spl0])],[c12,c13])).",
        b"cnf(c17,plain,~spl1,inference(chain,[status(thm),pivots([spl0])],[c14,c15])).",
        b"cnf(c18,plain,$false,inference(chain,[status(thm),pivots([spl1])],[c16,c17])).",
    ],
    rows: &[
        (NOWHERE, b"", 0, b"% accepted 19 lines\n"),
        (
            8,
            b"cnf(c8,plain,p | r(a) | ~spl0,introduced(definition,[component(spl0)])).",
            9,
            b"% refused at line 11: Rule\n",
        ),
    ],
};

/// Both clauses of an equivalence.
const EQUIVALENCE: Example = Example {
    problem: b"fof(a,axiom,p <=> q).",
    lines: &[
        b"fof(c0,axiom,p <=> q,file(r,a)).",
        b"cnf(c1,plain,~p | q,inference(clausify,[status(esa),index(0)],[c0])).",
        b"cnf(c2,plain,p | ~q,inference(clausify,[status(esa),index(1)],[c0])).",
    ],
    rows: &[(NOWHERE, b"", 9, b"% refused at line 3: NoEmptyClause\n")],
};

/// A Skolem term.
const SKOLEM_TERM: Example = Example {
    problem: b"fof(a,axiom,! [X] : ? [Y] : r(X,Y)).",
    lines: &[
        b"fof(c0,axiom,! [X] : ? [Y] : r(X,Y),file(r,a)).",
        b"cnf(c1,plain,r(X0,sk0(X0)),inference(clausify,[status(esa),index(0)],[c0])).",
    ],
    rows: &[(NOWHERE, b"", 9, b"% refused at line 2: NoEmptyClause\n")],
};

/// A Skolem symbol beside a name of the problem that begins as it would.
const OTHER_PREFIX: Example = Example {
    problem: b"fof(a,axiom,? [X] : skip(X)).",
    lines: &[
        b"fof(c0,axiom,? [X] : skip(X),file(r,a)).",
        b"cnf(c1,plain,skip(sk_0),inference(clausify,[status(esa),index(0)],[c0])).",
    ],
    rows: &[(NOWHERE, b"", 9, b"% refused at line 2: NoEmptyClause\n")],
};

/// A product of 64 clauses, which has no name.
const SIX: Example = Example {
    problem: b"fof(a,axiom,(p0 & q0) | (p1 & q1) | (p2 & q2) | (p3 & q3) | (p4 & q4) | (p5 & q5)).",
    lines: &[
        b"fof(c0,axiom,(p0 & q0) | (p1 & q1) | (p2 & q2) | (p3 & q3) | (p4 & q4) | (p5 & q5),file(r,a)).",
        b"cnf(c1,plain,p0 | p1 | p2 | p3 | p4 | p5,inference(clausify,[status(esa),index(0)],[c0])).",
        b"cnf(c2,plain,q0 | q1 | q2 | q3 | q4 | q5,inference(clausify,[status(esa),index(63)],[c0])).",
    ],
    rows: &[
        (NOWHERE, b"", 9, b"% refused at line 3: NoEmptyClause\n"),
        (
            2,
            b"cnf(c2,plain,$false,inference(clausify,[status(esa),index(64)],[c0])).",
            9,
            b"% refused at line 3: Clausify\n",
        ),
    ],
};

/// A product with a name that has a variable: its clauses first, and last the one before which 64 define the name.
const SEVEN: Example = Example {
    problem: b"fof(a,axiom,! [X] : ((p0(X) & q0(X)) | (p1(X) & q1(X)) | (p2(X) & q2(X)) | (p3(X) & q3(X)) | (p4(X) & q4(X)) | (p5(X) & q5(X)) | (p6(X) & q6(X)))).",
    lines: &[
        b"fof(c0,axiom,! [X] : ((p0(X) & q0(X)) | (p1(X) & q1(X)) | (p2(X) & q2(X)) | (p3(X) & q3(X)) | (p4(X) & q4(X)) | (p5(X) & q5(X)) | (p6(X) & q6(X))),file(r,a)).",
        b"cnf(c1,plain,nm0(X0) | p6(X0),inference(clausify,[status(esa),index(0)],[c0])).",
        b"cnf(c2,plain,nm0(X0) | q6(X0),inference(clausify,[status(esa),index(1)],[c0])).",
        b"cnf(c3,plain,~nm0(X0) | p0(X0) | p1(X0) | p2(X0) | p3(X0) | p4(X0) | p5(X0),inference(clausify,[status(esa),index(2)],[c0])).",
        b"cnf(c4,plain,~nm0(X0) | q0(X0) | q1(X0) | q2(X0) | q3(X0) | q4(X0) | q5(X0),inference(clausify,[status(esa),index(65)],[c0])).",
    ],
    rows: &[
        (NOWHERE, b"", 9, b"% refused at line 5: NoEmptyClause\n"),
        (
            4,
            b"cnf(c4,plain,$false,inference(clausify,[status(esa),index(66)],[c0])).",
            9,
            b"% refused at line 5: Clausify\n",
        ),
    ],
};

/// A product with two names.
const THIRTEEN: Example = Example {
    problem: b"fof(a,axiom,(p0 & q0) | (p1 & q1) | (p2 & q2) | (p3 & q3) | (p4 & q4) | (p5 & q5) | (p6 & q6) | (p7 & q7) | (p8 & q8) | (p9 & q9) | (p10 & q10) | (p11 & q11) | (p12 & q12)).",
    lines: &[
        b"fof(c0,axiom,(p0 & q0) | (p1 & q1) | (p2 & q2) | (p3 & q3) | (p4 & q4) | (p5 & q5) | (p6 & q6) | (p7 & q7) | (p8 & q8) | (p9 & q9) | (p10 & q10) | (p11 & q11) | (p12 & q12),file(r,a)).",
        b"cnf(c1,plain,nm1 | p12,inference(clausify,[status(esa),index(0)],[c0])).",
        b"cnf(c2,plain,nm1 | q12,inference(clausify,[status(esa),index(1)],[c0])).",
        b"cnf(c3,plain,~nm0 | p0 | p1 | p2 | p3 | p4 | p5,inference(clausify,[status(esa),index(2)],[c0])).",
        b"cnf(c4,plain,~nm1 | nm0 | p6 | p7 | p8 | p9 | p10 | p11,inference(clausify,[status(esa),index(66)],[c0])).",
        b"cnf(c5,plain,~nm1 | nm0 | q6 | q7 | q8 | q9 | q10 | q11,inference(clausify,[status(esa),index(129)],[c0])).",
    ],
    rows: &[
        (NOWHERE, b"", 9, b"% refused at line 6: NoEmptyClause\n"),
        (
            5,
            b"cnf(c5,plain,$false,inference(clausify,[status(esa),index(130)],[c0])).",
            9,
            b"% refused at line 6: Clausify\n",
        ),
    ],
};

/// The lines, of which one may be another.
fn changed(alloc: Global, lines: &[&[u8]], place: usize, other: &[u8]) -> Mem<Vec<u8>> {
    let mut text = Vec::new(alloc);
    for (index, line) in lines.iter().enumerate() {
        let line = if index == place { other } else { *line };
        text.extend_from_slice(line)?;
        text.push(b'\n')?;
    }
    Ok(text)
}

#[test]
fn derivations_are_answered(rt: HostRuntime) {
    let alloc = rt.alloc();
    let examples = [
        &UNITS,
        &IMPLICATION,
        &UNEQUAL,
        &COMPONENTS,
        &SIGNED,
        &EQUIVALENCE,
        &SKOLEM_TERM,
        &OTHER_PREFIX,
        &SIX,
        &SEVEN,
        &THIRTEEN,
    ];
    for (number, example) in examples.iter().enumerate() {
        for (index, (place, other, wanted, report)) in example.rows.iter().enumerate() {
            let text = changed(alloc, example.lines, *place, other).expect(&rt, "memory");
            let text = text.as_slice();
            let told = ended_on_derivation(&rt, alloc, "check", example.problem, text);
            let ended = told.expect(&rt, "memory");
            assert_eq!(rt; ended.status, *wanted, "example {number}, row {index}");
            assert!(rt;
                ended.report.as_slice() == *report,
                "example {number}, row {index}"
            );
        }
    }
}

// A derivation that ends early has no empty clause.
#[test]
fn beginnings_are_refused(rt: HostRuntime) {
    let alloc = rt.alloc();
    for left in 0..UNITS.lines.len() {
        let text = changed(alloc, &UNITS.lines[..left], NOWHERE, b"").expect(&rt, "memory");
        let told = ended_on_derivation(&rt, alloc, "check", UNITS.problem, text.as_slice());
        let ended = told.expect(&rt, "memory");
        let refused = format!(in alloc; "% refused at line {left}: NoEmptyClause\n");
        let report = refused.expect(&rt, "memory");
        assert_eq!(rt; ended.status, 9, "{left}");
        assert!(rt; ended.report.as_slice() == report.as_bytes(), "{left}");
    }
}

// A derivation with names has no ground list.
#[test]
fn names_have_no_ground_list(rt: HostRuntime) {
    let alloc = rt.alloc();
    let text = changed(alloc, COMPONENTS.lines, NOWHERE, b"").expect(&rt, "memory");
    let told = ended_on_derivation(&rt, alloc, "ground", COMPONENTS.problem, text.as_slice());
    let ended = told.expect(&rt, "memory");
    assert_eq!(rt; ended.status, 14);
    assert!(rt; ended.report.as_slice() == b"% refused at line 7: Names\n".as_slice());
}
