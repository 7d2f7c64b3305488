// Worked examples of printed members.

ghost use Rattle.std.specs.Prelude.{◌≡◌, [], ◌∷◌, ◌++◌, codes};
ghost use Rattle.pool_writer.specs.Saturation.{saturation_text};
ghost use Rattle.pool_writer.specs.SaturationExamples.{symbols, p_of_all, f_of_a, b_is_c, asserted};

/// No member has no line, two have one each, in order. Names that a clause asserts aren't printed.
pub fn printed_member_examples()
    ensures none { saturation_text symbols [] ≡ [] }
    ensures one { saturation_text symbols (p_of_all ∷ []) ≡ codes "cnf(s0,plain,p(X0)).\n" }
    ensures two { saturation_text symbols (f_of_a ∷ b_is_c ∷ []) ≡ codes "cnf(s0,plain,f(a) = b).\n" ++ codes "cnf(s1,plain,b = c).\n" }
    ensures asserted { saturation_text symbols (asserted ∷ []) ≡ codes "cnf(s0,plain,~p(a) | p(f(X0))).\n" }
{}
