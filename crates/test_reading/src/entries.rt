// Annotated formulas: outside rows, and that calls succeed, which no clause says.

use std::alloc::Global;
use std::process::Abort;
use tptp_reader::{Read, ReadFault, annotated};
use tptp_token::{MOST_TEXT_BYTES, tokens};
use tptp_tree::{MOST_NESTING, Role, print_formula};

/// The answer for the entry with which a text begins.
fn answer(rt: &impl Abort, alloc: Global, text: &[u8], nesting: u32) -> Result<Read, ReadFault> {
    assert!(rt; text.len() <= MOST_TEXT_BYTES);
    let lexed = tokens(alloc, text).expect(rt, "memory");
    assert!(rt; 0 < lexed.tokens.len());
    annotated(alloc, text, &lexed, 0, nesting)
}

/// The formula as it is printed, or the cause that the entry isn't read for and its place.
fn shown(rt: &impl Abort, alloc: Global, answer: &Result<Read, ReadFault>) -> Vec<u8> {
    match answer {
        Ok(read) => print_formula(alloc, &read.annotated.formula)
            .expect(rt, "memory")
            .into_vec(),
        Err(ReadFault::At(cause, _, place)) => format!(in alloc; "{cause:?}@{place}")
            .expect(rt, "memory")
            .into_bytes(),
        Err(ReadFault::NoMemory) => rt.panic("memory"),
    }
}

/// A text, and what is shown of its answer.
type Row = (&'static [u8], &'static [u8]);

/// How formulas are read, and at which connective they can't go on.
const FORMULAS: &[Row] = &[
    (b"fof(a,axiom,p).", b"p"),
    (b"fof(a,axiom,a=b).", b"a = b"),
    (b"fof(a,axiom,![X]:X!=a).", b"! [X] : X != a"),
    (
        b"fof(a,axiom,! [X,Y] : ? [X] : r(X,Y)).",
        b"! [X,Y] : ? [X] : r(X,Y)",
    ),
    (b"fof(a,axiom,p&q&r).", b"p & q & r"),
    (b"fof(a,axiom,(p&q)&r).", b"(p & q) & r"),
    (b"fof(a,axiom,p|q&r).", b"Syntax@15"),
    (b"fof(a,axiom,p&q|r).", b"Syntax@15"),
    (b"fof(a,axiom,p=>q=>r).", b"Syntax@16"),
    (b"fof(a,axiom,p~|q).", b"p ~| q"),
    (b"fof(a,axiom,p~&q).", b"p ~& q"),
    (b"fof(a,axiom,p<~>(q<=r)).", b"p <~> (q <= r)"),
    (b"fof(a,axiom,p<=>q).", b"p <=> q"),
    (b"fof(a,axiom,![X]:(p(X)=>q)).", b"! [X] : (p(X) => q)"),
    (b"fof(a,axiom,~(p&q)).", b"~(p & q)"),
    (b"fof(a,axiom,![X,Y]:~(X=Y)).", b"! [X,Y] : ~(X = Y)"),
    (b"fof(a,axiom,(((p)))).", b"p"),
    (b"fof(a,axiom,~~ ~p).", b"~~~p"),
    (b"fof(a,axiom,~a=b).", b"~(a = b)"),
    (b"fof(a,axiom,![X]:p(X)&q).", b"! [X] : p(X) & q"),
    (b"fof(a,axiom,$true|$false).", b"$true | $false"),
    (b"fof(a,axiom,'p'('\\'','\\\\',b)).", b"p('\\'','\\\\',b)"),
    (
        b"fof(a,conjecture,f(g(a,b),c)!='A').",
        b"f(g(a,b),c) != 'A'",
    ),
    (b"fof(a,axiom,'$true').", b"'$true'"),
    (b"fof(a,axiom,p)./*x*/%", b"p"),
];

/// Faults of a formula, a role or a name, and then of the first word and of arguments and variables, with its first place.
const FAULTS: &[Row] = &[
    (b"fof(a,axiom,X).", b"FreeVariable@12"),
    (b"fof(a,axiom,(![X]:p(X))&q(X)).", b"FreeVariable@26"),
    (b"fof(a,axiom,![X]:X).", b"Syntax@18"),
    (b"fof(a,axiom,![]:p).", b"Syntax@14"),
    (b"fof(a,axiom,![X,]:p).", b"Syntax@16"),
    (b"fof(a,axiom,p()).", b"Syntax@14"),
    (b"fof(a,axiom,p(a,)).", b"Syntax@16"),
    (b"fof(a,axiom,3=a).", b"Inappropriate(Number)@12"),
    (b"fof(a,axiom,p(3.)).", b"Inappropriate(Number)@14"),
    (b"fof(a,axiom,a=\"b\").", b"Inappropriate(Distinct)@14"),
    (b"fof(a,axiom,$less(a,b)).", b"Inappropriate(Dollar)@12"),
    (b"fof(a,axiom,p($$x)).", b"Inappropriate(Dollar)@14"),
    (b"fof(a,axiom,p($true)).", b"Syntax@14"),
    (b"fof(a,axiom,$true=a).", b"Syntax@17"),
    (b"fof(a,axiom,''=a).", b"BadByte@13"),
    (b"fof(a,axiom,'a).", b"Unclosed@12"),
    (b"fof(a,axiom,p)", b"Syntax@14"),
    (b"fof(a,question,p).", b"Inappropriate(RoleForm)@6"),
    (b"fof(a,type,p).", b"Inappropriate(RoleForm)@6"),
    (b"cnf(a,fi_domain,p).", b"Inappropriate(RoleForm)@6"),
    (b"fof(a,fi_functors,p).", b"Inappropriate(RoleForm)@6"),
    (b"fof(a,fi_predicates,p).", b"Inappropriate(RoleForm)@6"),
    (b"fof(a,unknown,p).", b"Role@6"),
    (b"fof(a,axiom-x,p).", b"Syntax@11"),
    (b"tff(a,axiom,p).", b"Inappropriate(Typed)@0"),
    (b"thf(a,axiom,p).", b"Inappropriate(Typed)@0"),
    (b"tcf(a,axiom,p).", b"Inappropriate(Typed)@0"),
    (b"tpi(a,axiom,p).", b"Inappropriate(Typed)@0"),
    (b"include(a).", b"Syntax@0"),
    (b"fof(1.5,axiom,p).", b"Syntax@4"),
    (b"fof(X,axiom,p).", b"Syntax@4"),
    (b"fof(a,axiom,[p] --> [q]).", b"Syntax@12"),
    (b"'fof'(a,axiom,p).", b"Syntax@0"),
    (b"fof(a,'axiom',p).", b"Syntax@6"),
    (b"fof(a,axiom,p(a b)).", b"Syntax@16"),
    (b"fof(a,axiom,!X:p).", b"Syntax@13"),
    (b"fof(a,axiom,![X Y]:p).", b"Syntax@16"),
];

/// Clauses and notes.
const CLAUSES: &[Row] = &[
    (
        b"cnf(12,hypothesis,( ~ p(X) | X != 'A b' ), inference(res,[status(thm)],[c_1,\"x\",$fof(p),-3.5e2])).",
        b"~p(X) | X != 'A b'",
    ),
    (b"cnf(12,unknown,p).", b"Role@7"),
    (b"cnf(a,conjecture,p).", b"Role@6"),
    (b"cnf(a,plain,((p|q))).", b"p | q"),
    (b"cnf(a,plain,(p)|q).", b"Syntax@15"),
    (b"cnf(a,plain,p|(q)).", b"Syntax@14"),
    (b"cnf(a,plain,~(a=b)|~q).", b"~(a = b) | ~q"),
    (b"cnf(a,plain,~a!=b).", b"Syntax@14"),
    (b"cnf(a,plain,~(X!=b)).", b"Syntax@15"),
    (b"cnf(a,plain,~~p).", b"Syntax@13"),
    (b"cnf(a,plain,p&q).", b"Syntax@13"),
    (b"cnf(a,plain,$false).", b"$false"),
    (b"cnf(a,plain,p,{[(a)],}).", b"p"),
    (b"cnf(a,plain,p,).", b"Syntax@14"),
    (b"cnf(a,plain,p,[a)).", b"Syntax@16"),
    (b"cnf(a,plain,p,a]).", b"Syntax@15"),
    (b"cnf(a,plain,p,#.;X).", b"p"),
    (b"cnf('1',plain,p).", b"p"),
];

/// The answer at a limit of nesting of two.
const LEVELS: &[Row] = &[
    (b"fof(a,axiom,~~p).", b"~~p"),
    (b"fof(a,axiom,~~~p).", b"Nesting@14"),
    (b"fof(a,axiom,((p))).", b"p"),
    (b"fof(a,axiom,(((p)))).", b"Nesting@14"),
    (b"fof(a,axiom,![X]:p(X)).", b"! [X] : p(X)"),
    (b"fof(a,axiom,~![X]:p).", b"Nesting@14"),
    (b"fof(a,axiom,p(f(a))).", b"p(f(a))"),
    (b"fof(a,axiom,p(f(g(a)))).", b"Nesting@17"),
    (b"cnf(a,plain,~(p)).", b"~p"),
    (b"cnf(a,plain,(~(p))).", b"Nesting@14"),
    (b"cnf(a,plain,p,([])).", b"p"),
    (b"cnf(a,plain,p,([{}])).", b"Nesting@16"),
];

#[test]
fn reads_entries(rt: HostRuntime) {
    let alloc = rt.alloc();
    for (rows, nesting) in [
        (FORMULAS, MOST_NESTING),
        (FAULTS, MOST_NESTING),
        (CLAUSES, MOST_NESTING),
        (LEVELS, 2),
    ] {
        for (index, (text, wanted)) in rows.iter().enumerate() {
            let found = shown(&rt, alloc, &answer(&rt, alloc, text, nesting));
            assert!(rt; found.as_slice() == *wanted, "row {index}");
        }
    }
}

#[test]
fn keeps_names_and_roles(rt: HostRuntime) {
    let alloc = rt.alloc();
    let read = answer(&rt, alloc, b"cnf(12,hypothesis,p).", MOST_NESTING);
    let entry = read.ok().expect(&rt, "an entry").annotated;
    assert!(rt; entry.name.as_slice() == b"12".as_slice());
    assert!(rt; entry.clause && entry.role == Role::Hypothesis);
}
