// How far the reading of a problem has come.

ghost use Rattle.std.specs.Prelude.{◌≤◌};
ghost use Rattle.tptp_problem.specs.declared.limits.TheConstants.{MOST_PROBLEM_BYTES};

/// How far the reading of a problem has come.
#[derive(Drop)]
pub struct Reading<'a> {
    /// The text before the names of included files.
    pub base: &'a str,
    /// The bytes of the files loaded so far.
    pub loaded: usize,
    /// Whether a conjecture was met that no selection leaves out.
    pub met: bool,
    ghost in_limit: { loaded ≤ MOST_PROBLEM_BYTES },
}
