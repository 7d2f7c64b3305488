// The law of what carries over to lines that are made again, and a worked example.

ghost use Rattle.std.specs.Prelude.{◌≡◌, [], ◌∷◌};
ghost use Rattle.kernel_steps.specs.Examples.{opposites};
ghost use Rattle.kernel_steps.specs.ParentNumbers.{with_parents};
ghost use Rattle.kernel_steps.specs.declared.step.Step.TheVariants.{Refl, Clausify};
ghost use Rattle.tstp_writer.specs.Cone.{IsStepCone};
ghost use Rattle.pool_writer.specs.Retraced.{place_among, AreRefutingSteps, AreRetraced, RefutingStepsGoBack, steps_of};
ghost use Rattle.pool_writer.specs.RetracedLaws.{TestsCarryOver};
ghost use Rattle.pool_writer.specs.RetracedExamples.{with_unneeded, needed_numbers, needed_alone};
ghost use Rattle.pool_writer.specs.SplitExamples.{two_parts, two_bodies, two_parts_lines, four_clauses, four_bodies, four_clauses_lines};

/// A test that all lines of a derivation pass is passed by the lines that are made again, where it doesn't look at the numbers of
/// parents.
pub fn tests_carry_over()
    ensures { TestsCarryOver }
{}

/// The steps of a refutation: there is one, and the parents of each are earlier.
pub fn refuting_steps_go_back()
    ensures { RefutingStepsGoBack }
{}

/// Of five lines the first isn't needed, so each other one moves up.
pub fn retracing_examples()
    ensures refuting { AreRefutingSteps opposites [] (steps_of with_unneeded) }
    ensures needed { IsStepCone (steps_of with_unneeded) 4 needed_numbers }
    ensures unneeded_kept { IsStepCone (steps_of with_unneeded) 4 (0 ∷ needed_numbers) → ⊥ }
    ensures place { place_among needed_numbers 3 ≡ 2 }
    ensures step { with_parents (place_among needed_numbers) (Refl 3 0 []) ≡ Refl 2 0 [] }
    ensures no_parents { with_parents (place_among needed_numbers) (Clausify 1) ≡ Clausify 1 }
    ensures lines { AreRetraced needed_numbers with_unneeded needed_alone }
{}

/// The steps of two refutations in which clauses are split: of one into parts with variables, of four into ground literals, where a literal and its
/// complement share a name.
pub fn split_examples()
    ensures two_parts { AreRefutingSteps two_parts two_bodies (steps_of two_parts_lines) }
    ensures four_clauses { AreRefutingSteps four_clauses four_bodies (steps_of four_clauses_lines) }
{}
