// Problems that tests of several crates run on.

/// Two clauses that contradict each other.
pub const TWO_UNITS: &[u8] = b"cnf(a,axiom,p). cnf(b,negated_conjecture,~p).";

/// The problem of a right identity in groups, as it is ordinarily used.
pub const GROUP: &[u8] = b"%--------------------------------------------------------------\n\
% File     : r7.p\n\
%--------------------------------------------------------------\n\
include('Axioms/grp.ax').\n\
fof(right_id,conjecture,! [X] : mult(X,e) = X).\n";

/// The axioms that it includes, under the name `Axioms/grp.ax`.
pub const GROUP_AXIOMS: &[u8] =
    b"fof(left_id,axiom,! [X] : mult(e,X) = X, file('grp.ax',left_id), [useful(1)]).\n\
fof(left_inv,axiom,! [X] : mult(inv(X),X) = e).\n\
cnf(assoc,axiom,( mult(mult(X,Y),Z) = mult(X,mult(Y,Z)) )).\n";
