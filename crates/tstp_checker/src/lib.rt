//! The checker: whether the text of a derivation proves a problem, judged line by line.
//!
//! A derivation is a list of TPTP formulas, each with a source that says how it follows (Sutcliffe 2009). The checker trusts nothing in the
//! text. It reads one line after another, judges each by the lines before it, the problem and the problem's clausal form, and stops at the first
//! bad line. What it accepts is a refutation, whoever wrote it; so an accepted derivation stands without trust in the search.
//!
//! **The lines.** There are four sorts, told by the source:
//!
//! - *formula lines* (`formula_lines.rt`): a formula of the problem, and the negation of the conjecture;
//! - *clausify lines* (`clause_lines.rt`): a clause of the problem's clausal form, named by its number, with the formula that it comes from;
//! - *component and opposite lines* (`clause_lines.rt`): the definition of a name for a component of a split clause, and its other half;
//! - *rule lines* (`rule_lines.rt`): a step of the kernel with its parents, the literals it takes part in, and what each parent's variables
//!   become. The checker binds the parents, makes the step's conclusion by `kernel_steps`, and compares it with the clause in the text. It never
//!   searches or unifies: all substitutions are in the text.
//!
//! **One verdict.** `lines.rt` has the state: the lines taken so far with their names (`taken.rt`), the problem's formulas (`inputs.rt`) and its
//! clausal form. A line's conditions are asked in a fixed order, that of the variants of `Cause`, and the first that fails is the answer. So
//! the answer for a bad derivation is determined too: the first bad line and its first cause. A line that is taken has its clause stored; the
//! text of a line is dropped when it is judged. `reading.rt` reads one line with the problem reader's own grammar, `tstp_lines` reads its parts,
//! and `derivation.rt` runs over the text.
//!
//! **Names and symbols.** A symbol has the number that it has in the clausal form. Symbols that the form doesn't have get further numbers
//! while a line is read, so that a line with such a symbol is refused for that and not for a wrong conclusion. Names of split components
//! live apart from predicates, and a name may be introduced once.
//!
//! **Equal formulas.** A formula may stand in a problem more than once, and a line may cite any of the equal ones. `entries.rt` and
//! `hashing.rt` look a formula up by its content, and `classes.rt` keeps for each formula the place of the first equal one. So two
//! formulas are compared by two numbers, however large they are.
//!
//! **What is proved.** `check` answers Ok exactly where the text is an accepted derivation (`IsAcceptedDerivation` of `clausal_form`); this is
//! the definition that the reader of a theorem must believe. Then the clausal form is refuted by finitely many ground instances, and by the
//! laws of `laws_meaning` the conjecture follows from the axioms in every finite interpretation. Otherwise it answers exactly the first bad
//! line and cause. `read_lines` is the same check, and its Ok has the lines. No hint is involved: nothing that the checker keeps may be wrong without changing an answer, and all of it is proved.
//!
//! **Invariant.** Between lines (`IsReady`): the names in the table are those of the lines, in order; each introduced name has the place of its
//! component line; the numbers of symbols are again those of the form; and the table of formulas knows every formula of the problem.
//!
//! **Cost.** The text is scanned into tokens once. A line costs its own length, hash look-ups of its names, and its conclusion, which can be
//! longer than the line by the sizes of its parents. Taken clauses stay in memory to the end.
#![tactic(auto)]

mod cause;
mod classes;
mod clause_lines;
mod derivation;
mod entries;
mod formula_lines;
mod hashing;
mod inputs;
mod lines;
mod reading;
mod refusal;
mod rule_lines;
mod taken;

pub use cause::Cause;
pub use derivation::{Accepted, CheckFault, check, read_lines};
