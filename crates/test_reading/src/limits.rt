// The limit of a problem's size, as a number.

ghost use Rattle.std.specs.Prelude.{◌≡◌, ◌^◌};
ghost use Rattle.tptp_tree.specs.declared.limits.TheConstants.{MOST_PROBLEM_SIZE};

/// The most that the parts of a problem may be together.
pub fn limit_examples()
    ensures size { MOST_PROBLEM_SIZE ≡ 2 ^ 31 }
{}
