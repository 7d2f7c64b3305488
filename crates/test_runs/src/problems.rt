// The problems of these tests, and what is printed of some of them.

/// What is printed where the words are no command.
pub(crate) const USAGE: &[u8] =
    b"usage: prove FILE [--workers=K] [--inferences=N] [--tptp=DIR] [--select=none|negative] [--split=on|off] [--tolerance=T --depth=D]\n       \
check FILE DERIVATION [--tptp=DIR]\n       bench N\n       model FILE [--size=S] [--tptp=DIR]\n       ground FILE DERIVATION [--tptp=DIR]\n       \
decide FILE [--tptp=DIR]\n";

pub(crate) const TWO_UNITS_DERIVATION: &[u8] = b"cnf(c0,axiom,p,file('r1.p',a)).\n\
cnf(c1,negated_conjecture,~p,file('r1.p',b)).\n\
cnf(c2,plain,p,inference(clausify,[status(esa),index(0)],[c0])).\n\
cnf(c3,plain,~p,inference(clausify,[status(esa),index(1)],[c1])).\n\
cnf(c4,plain,~$true,inference(para,[status(thm),from(0,left),into(0,left,[]),bind([]),bind([])],[c2,c3])).\n\
cnf(c5,plain,$false,inference(refl,[status(thm),lit(0),bind([])],[c4])).\n";

pub(crate) const CLAUSES: &[u8] =
    b"cnf(a,axiom,p|q). cnf(b,axiom,~p|q). cnf(c,axiom,p|~q). cnf(d,axiom,~p|~q).";

/// A clause of two parts, and what refutes each.
pub(crate) const TWO_PARTS: &[u8] =
    b"cnf(a,axiom,p(X) | q(Y)). cnf(b,axiom,~p(a)). cnf(c,axiom,~q(b)).";

pub(crate) const IMPLICATION: &[u8] =
    b"fof(a,axiom,! [X] : (p(X) => q(X))). fof(b,axiom,p(a)). fof(c,conjecture,q(a)).";

/// Twenty atoms in nested equivalences.
pub(crate) const EQUIVALENCES: &[u8] =
    b"fof(a,axiom,p0 <=> (p1 <=> (p2 <=> (p3 <=> (p4 <=> (p5 <=> (p6 <=> (p7 <=> (p8 <=> (p9 <=> \
(p10 <=> (p11 <=> (p12 <=> (p13 <=> (p14 <=> (p15 <=> (p16 <=> (p17 <=> (p18 <=> p19))))))))))))))))))).";

/// Two constants, and a function of 24 arguments.
pub(crate) const TWO_AND_WIDE: &[u8] =
    b"cnf(a,axiom,a != b). cnf(b,axiom,f(X1,X2,X3,X4,X5,X6,X7,X8,X9,X10,X11,X12,X13,X14,X15,X16,X17,X18,\
X19,X20,X21,X22,X23,X24) = a).";

/// What is printed of an empty problem.
pub(crate) const NO_MEMBERS: &[u8] = b"% SZS status Satisfiable for r2\n\
% SZS output start Saturation for r2\n\
% SZS output end Saturation for r2\n";

/// A quantifier that ends before the arrow.
pub(crate) const NARROW: &[u8] = b"fof(a,axiom,! [X] : p(X) => q).";

pub(crate) const NARROW_WHOLE: &[u8] = b"% SZS status Satisfiable for r12\n\
% SZS output start Saturation for r12\n\
cnf(s0,plain,~p(sk0) | q).\n\
% SZS output end Saturation for r12\n";

/// Units and a clause that resolves with one of them.
pub(crate) const APART: &[u8] = b"cnf(a,axiom,p(a)). cnf(b,axiom,~p(X) | q(X)). cnf(c,axiom,r).";

pub(crate) const APART_SATURATED: &[u8] = b"% SZS status Satisfiable for r18\n\
% SZS output start Saturation for r18\n\
cnf(s0,plain,p(a)).\n\
cnf(s1,plain,~p(X0) | q(X0)).\n\
cnf(s2,plain,r).\n\
cnf(s3,plain,q(a)).\n\
% SZS output end Saturation for r18\n";

/// Its clause is split, and no name is true at first: so the part holds that denies one.
pub(crate) const NARROW_SPLIT: &[u8] = b"% SZS status Satisfiable for r12\n\
% SZS output start Saturation for r12\n\
cnf(s0,plain,~p(sk0)).\n\
% SZS output end Saturation for r12\n";

/// A conjecture whose negation has one clause, which its Skolem constant makes empty.
pub(crate) const EQUAL_TO_SOME: &[u8] = b"fof(g,conjecture,! [X] : ? [Y] : X = Y).";

/// A goal that shares its rare symbol with two axioms, and an axiom about another one.
pub(crate) const REACHED: &[u8] =
    b"fof(a1,axiom,! [X] : (p(X) => q(X))). fof(a2,axiom,p(a)). fof(a3,axiom,r(b)). fof(c,conjecture,q(a)).";

/// A goal whose symbols are the frequent ones of both axioms.
pub(crate) const UNREACHED: &[u8] =
    b"fof(a1,axiom,p(a)). fof(a2,axiom,~r(b)). fof(c,conjecture,p(b)).";

/// Axioms of which each is reached through the one after it, after one that isn't needed.
pub(crate) const IN_THREE_STEPS: &[u8] =
    b"fof(z,axiom,z0 | z1). fof(a,axiom,p(a)). fof(b,axiom,! [X] : (p(X) => q(X))). \
fof(c,axiom,! [X] : (q(X) => r(X))). fof(d,conjecture,r(a)).";

/// A goal of two clauses after axioms that it doesn't reach.
pub(crate) const LAST_PART: &[u8] =
    b"cnf(y,axiom,y | z). cnf(z,axiom,~z). cnf(a,axiom,p(X) | q(Y)). cnf(b,negated_conjecture,~p(a)). \
cnf(c,negated_conjecture,~q(b)).";

/// Two literals of over 2^31 symbols each under the unifier of the first one's sides: no size tells which is the greater.
pub(crate) const GROWN: &[u8] =
    b"cnf(a,axiom,f(X1,X2,X3,X4,X5,X6,X7,X8,X9,X10,X11,g(X1,X1,X1,X1,X1,X1,X1,X1),g(X2,X2,X2,X2,X2,X2,X2,X2),g(X3,X3,X3,X3,X3,X3,X3,X3),\
g(X4,X4,X4,X4,X4,X4,X4,X4),g(X5,X5,X5,X5,X5,X5,X5,X5),g(X6,X6,X6,X6,X6,X6,X6,X6),g(X7,X7,X7,X7,X7,X7,X7,X7),g(X8,X8,X8,X8,X8,X8,\
X8,X8),g(X9,X9,X9,X9,X9,X9,X9,X9),g(X10,X10,X10,X10,X10,X10,X10,X10)) != f(Y1,Y2,Y3,Y4,Y5,Y6,Y7,Y8,Y9,Y10,Y11,Y2,Y3,Y4,Y5,Y6,Y7,\
Y8,Y9,Y10,Y11) | h(X1,X2,X3,X4,X5,X6,X7,X8,X9,X10,X11,g(X1,X1,X1,X1,X1,X1,X1,X1),g(X2,X2,X2,X2,X2,X2,X2,X2),g(X3,X3,X3,X3,X3,X3,\
X3,X3),g(X4,X4,X4,X4,X4,X4,X4,X4),g(X5,X5,X5,X5,X5,X5,X5,X5),g(X6,X6,X6,X6,X6,X6,X6,X6),g(X7,X7,X7,X7,X7,X7,X7,X7),g(X8,X8,X8,X8,\
X8,X8,X8,X8),g(X9,X9,X9,X9,X9,X9,X9,X9),g(X10,X10,X10,X10,X10,X10,X10,X10)) != a).";
