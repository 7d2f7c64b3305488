// Worked examples of the definitions: the contract of a function without arguments and with an empty body.

ghost use Rattle.std.specs.Prelude.{◌≡◌, ◌+◌, ◌*◌, [], ◌∷◌, None, Some, IsTrue, IsFalse};
ghost use Rattle.fol_base.specs.Examples.{a, b, f, equation};
ghost use Rattle.fol_base.specs.declared.clause.Side.TheVariants.{Left, Right};
ghost use Rattle.kernel_steps.specs.declared.key.Key.TheVariants.{Para, Refl};
ghost use Rattle.superpose.specs.Examples.{place_at, side_at};
ghost use Rattle.partners.specs.Examples.{bare, two};
ghost use Rattle.partners.specs.Index.{site_number};
ghost use Rattle.partners.specs.Meeting.{is_meeting, name_into};
ghost use Rattle.partners.specs.Partners.{partner_before};
ghost use Rattle.partners.specs.SiteTerms.{place_term, start_term};

/// Terms at sites of `f(a) = b`, numbers of sites, the members 3 and 5 of a set as partners, and the superpositions between the clause 7 and
/// the members whose position is below 1.
pub fn examples()
    ensures side { start_term (equation (f a) b ∷ []) (side_at 0 Left) ≡ Some (f a) }
    ensures place { place_term (equation (f a) b ∷ []) (place_at 0 Left (0 ∷ [])) ≡ Some a }
    ensures no_place { place_term (equation (f a) b ∷ []) (place_at 0 Right (0 ∷ [])) ≡ None }
    ensures no_literal { start_term (equation (f a) b ∷ []) (side_at 1 Left) ≡ None }
    ensures number { site_number 3 7 ≡ 3 * 4294967296 + 7 }
    ensures below { partner_before 1 two 3 ≡ Some (bare 3) }
    ensures not_below { partner_before 1 two 5 ≡ None }
    ensures not_there { partner_before 2 two 4 ≡ None }
    ensures from { IsTrue (is_meeting 1 two 7 (Para 7 0 Left 3 0 Left [])) }
    ensures into { IsTrue (is_meeting 1 two 7 (Para 3 0 Right 7 1 Left (0 ∷ []))) }
    ensures later { IsFalse (is_meeting 1 two 7 (Para 7 0 Left 5 0 Left [])) }
    ensures of_others { IsFalse (is_meeting 2 two 7 (Para 3 0 Left 5 0 Left [])) }
    ensures alone { IsFalse (is_meeting 2 two 7 (Refl 7 0)) }
    ensures no_site { name_into 1 two 7 (side_at 0 Left) (site_number 3 0) ≡ None }
{}
