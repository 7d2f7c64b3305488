// The problems of these tests, and what is printed of them.

/// One clause, and the set that it is.
pub(crate) const ANY: &[u8] = b"cnf(a,axiom,p(X)).";

pub(crate) const ANY_SATURATED: &[u8] = b"% SZS status Satisfiable for r4\n\
% SZS output start Saturation for r4\n\
cnf(s0,plain,p(X0)).\n\
% SZS output end Saturation for r4\n";

/// What is printed of a problem `d.p` whose one clause is `p`.
pub(crate) const MEMBER_P: &[u8] = b"% SZS status Satisfiable for d\n\
% SZS output start Saturation for d\n\
cnf(s0,plain,p).\n\
% SZS output end Saturation for d\n";
