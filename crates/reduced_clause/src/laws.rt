// The laws of reduced clauses, and worked examples: each is the contract of a function without arguments and with an empty body.

ghost use Rattle.std.specs.Prelude.{◌≡◌, ◌+◌, [], ◌∷◌, None, Some, false};
ghost use Rattle.fol_base.specs.Examples.{a, b, c, clause, f, is_predicate};
ghost use Rattle.fol_base.specs.Rules.{disequation};
ghost use Rattle.kernel_steps.specs.declared.step.TheConstants.{CLAUSE_NUMBERS};
ghost use Rattle.kernel_steps.specs.Lines.{clauses_named};
ghost use Rattle.reduced_clause.specs.Reduced.{IsReduced, with_number};
ghost use Rattle.reduced_clause.specs.Extending.{AreLinesOfMove, MovesExtend, StepsGoOn, last_number, noted, parents_with};
ghost use Rattle.reduced_clause.specs.Examples.{first_line, given, move_to, reduced_to, rewriting_lines, second_line, units};
ghost use Rattle.kernel_steps.specs.Lines.{clause_parents};

/// Two rewrites one after another, and what is no reduced clause: a list of used clauses that leaves one out, a line that has a later
/// one as its parent, and a result that isn't the last line.
pub fn reduction_examples()
    ensures named { clauses_named (rewriting_lines (CLAUSE_NUMBERS + 1)) ≡ 0 ∷ 1 ∷ [] }
    ensures noted { with_number 1 (0 ∷ []) ≡ 0 ∷ 1 ∷ [] }
    ensures noted_before { with_number 0 (0 ∷ 1 ∷ []) ≡ 0 ∷ 1 ∷ [] }
    ensures rewritten { IsReduced is_predicate units given
        (reduced_to (disequation c c ∷ []) (rewriting_lines (CLAUSE_NUMBERS + 1)) (0 ∷ 1 ∷ [])) }
    ensures one_left_out { IsReduced is_predicate units given
        (reduced_to (disequation c c ∷ []) (rewriting_lines (CLAUSE_NUMBERS + 1)) (0 ∷ [])) → ⊥ }
    ensures later_parent { IsReduced is_predicate units given
        (reduced_to (disequation c c ∷ []) (rewriting_lines (CLAUSE_NUMBERS + 2)) (0 ∷ 1 ∷ [])) → ⊥ }
    ensures earlier_line { IsReduced is_predicate units given
        (reduced_to (disequation (f a) c ∷ []) (rewriting_lines (CLAUSE_NUMBERS + 1)) (0 ∷ 1 ∷ [])) → ⊥ }
{}

/// A reduced clause that goes on by the lines of a move is a reduced clause of the same clause.
pub fn moves_extend_reductions()
    ensures moves { MovesExtend }
    ensures goes_on { StepsGoOn }
{}

/// The last line's number, what its clause is to the lines after it, units that are noted, and the lines of one move: not those of a move
/// by no unit where they name one.
pub fn extending_examples()
    ensures none { last_number [] ≡ CLAUSE_NUMBERS }
    ensures one { last_number (first_line ∷ []) ≡ CLAUSE_NUMBERS + 1 }
    ensures result { parents_with (clause_parents units) (CLAUSE_NUMBERS + 1) given (CLAUSE_NUMBERS + 1)
        ≡ Some (record { clause = given; introduces = false }) }
    ensures earlier { parents_with (clause_parents units) (CLAUSE_NUMBERS + 1) given CLAUSE_NUMBERS ≡ None }
    ensures by_a_unit { noted (Some 1) (0 ∷ []) ≡ 0 ∷ 1 ∷ [] }
    ensures by_none { noted None (0 ∷ []) ≡ 0 ∷ [] }
    ensures lines { AreLinesOfMove is_predicate units (clause (disequation (f a) c ∷ [])) (CLAUSE_NUMBERS + 1)
        (move_to (Some 1) (disequation c c ∷ [])) (second_line (CLAUSE_NUMBERS + 1) ∷ []) }
    ensures unit_not_told { AreLinesOfMove is_predicate units (clause (disequation (f a) c ∷ [])) (CLAUSE_NUMBERS + 1)
        (move_to None (disequation c c ∷ [])) (second_line (CLAUSE_NUMBERS + 1) ∷ []) → ⊥ }
{}
