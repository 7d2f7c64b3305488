// The laws of rewriting, and worked examples: each is the contract of a function without arguments and with an empty body.

ghost use Rattle.std.specs.Prelude.{◌≡◌, [], ◌∷◌, None, Some};
ghost use Rattle.fol_base.specs.Examples.{x, a, b, c, clause, equation, f, is_predicate, p};
ghost use Rattle.fol_base.specs.Rules.{disequation};
ghost use Rattle.reduced_clause.specs.Examples.{given, units};
ghost use Rattle.demodulate.specs.Examples.{alone, as_it_was, members};
ghost use Rattle.demodulate.specs.Rank.{clause_rank, tree_rank, RanksFall, RanksKept};
ghost use Rattle.demodulate.specs.Simplified.{IsOutcome, LeadsToTautology};
ghost use Rattle.demodulate.specs.Usable.{without};
ghost use Rattle.demodulate.specs.declared.simplifying.Simplified.TheVariants.{Subsumed};

/// Each rewriting step makes a natural number of the clause smaller, its rank, and numbering its variables anew keeps it. So rewriting
/// ends, whatever steps are made.
pub fn rewriting_ends()
    ensures falls { RanksFall }
    ensures kept { RanksKept }
{}

/// Ranks among the ground terms of one symbol over `$true`, a and b.
pub fn rank_examples()
    ensures of_b { tree_rank 3 1 b ≡ 2 }
    ensures of_a { tree_rank 3 1 a ≡ 1 }
    ensures of_a_variable { tree_rank 3 1 (x 0) ≡ 0 }
    ensures of_a_clause { clause_rank 3 1 (clause (equation b a ∷ [])) ≡ 3 }
{}

/// The unit of two, with the numbers 0 and 1, that isn't left out may be used; and a tautology, to which no step needs to lead.
pub fn simplification_examples()
    ensures left_out { without (Some 1) units 1 ≡ None }
    ensures kept { without (Some 1) units 0 ≡ Some (clause (equation a b ∷ [])) }
    ensures tautology { LeadsToTautology is_predicate units (clause (equation a a ∷ [])) }
{}

/// The reduction of p(a), which stands alone in a set: where it is left out, it stays as it was, and isn't subsumed; else it is subsumed by
/// itself, and doesn't stay. Nor does a tautology stay, or a clause that a unit rewrites.
pub fn outcome_examples()
    ensures stays { IsOutcome is_predicate (without (Some 0) members) alone (as_it_was (p a)) }
    ensures left_out { IsOutcome is_predicate (without (Some 0) members) alone (Subsumed 0) → ⊥ }
    ensures subsumed { IsOutcome is_predicate (without None members) alone (Subsumed 0) }
    ensures not_subsumed { IsOutcome is_predicate (without None members) alone (as_it_was (p a)) → ⊥ }
    ensures tautology { IsOutcome is_predicate units (clause (equation a a ∷ [])) (as_it_was (equation a a)) → ⊥ }
    ensures rewritten { IsOutcome is_predicate units given (as_it_was (disequation (f b) c)) → ⊥ }
{}
