// The laws of redexes, and worked examples: each is the contract of a function without arguments and with an empty body.

ghost use Rattle.std.specs.Prelude.{◌≡◌, [], ◌∷◌, None, Some, IsTrue, IsFalse};
ghost use Rattle.fol_base.specs.Examples.{x, a, b, c, f, p, equation};
ghost use Rattle.fol_base.specs.Rules.{disequation};
ghost use Rattle.fol_base.specs.declared.clause.Side.TheVariants.{Left, Right};
ghost use Rattle.rewriting.specs.Units.{has_other_variables, is_kept, may_rewrite};
ghost use Rattle.bank_clause.specs.Clause.{side_number};
ghost use Rattle.rewriting.specs.Redex.{inner, is_within, root_spot, spot_at};
ghost use Rattle.rewriting.specs.Laws.{NormalClausesStay, RedexesGive, RedexesRewrite};

/// A clause without a redex is rewritten by no unit, and one in which a redex is found is rewritten by the unit that was found. So the
/// search finds a redex exactly where some unit rewrites the clause.
pub fn redexes_are_rewritten()
    ensures normal { NormalClausesStay }
    ensures found { RedexesRewrite }
    ensures given { RedexesGive }
{}

/// Which sides have the other's variables, and the spots of a literal: what is put at the root of a side of an equation has to be below
/// the other side, and a spot below the root has no limit.
pub fn redex_examples()
    ensures has_variable { IsTrue (has_other_variables Left (equation (f (x 0)) (x 0))) }
    ensures lacks_variable { IsFalse (has_other_variables Left (equation (f (x 0)) (x 1))) }
    ensures other_side { IsFalse (has_other_variables Left (equation a (f (x 0)))) }
    ensures smaller_side { IsFalse (may_rewrite Right (equation (f a) b)) }
    ensures greater_side { IsTrue (may_rewrite Left (equation (f a) b)) }
    ensures left_number { side_number 3 Left ≡ 6 }
    ensures right_number { side_number 3 Right ≡ 7 }
    ensures left_out { IsFalse (is_kept (Some 3) 3) }
    ensures equation_root { (root_spot Left (equation (f a) b)).limit ≡ Some b }
    ensures disequation_root { (root_spot Left (disequation (f a) b)).limit ≡ None }
    ensures atom_root { IsTrue (root_spot Left (p a)).is_atom }
    ensures below { spot_at (root_spot Left (p a)) (0 ∷ []) ≡ inner }
    ensures smaller { IsTrue (is_within (Some b) a) }
    ensures not_smaller { IsFalse (is_within (Some b) c) }
{}
