// The law of sites, and worked examples of the definitions: the contracts of functions without arguments and with empty bodies.

ghost use Rattle.std.specs.Prelude.{◌≡◌, [], ◌∷◌, None, Some, IsTrue, IsFalse};
ghost use Rattle.fol_base.specs.Tree.{variable};
ghost use Rattle.fol_base.specs.Examples.{x, a, b, c, f, f₂, g, p, q, equation};
ghost use Rattle.fol_base.specs.Selection.{select_negative, select_nothing};
ghost use Rattle.fol_base.specs.declared.clause.Side.TheVariants.{Left, Right};
ghost use Rattle.kernel_steps.specs.Examples.{not_p};
ghost use Rattle.kernel_steps.specs.declared.key.Key.TheVariants.{Para, Refl};
ghost use Rattle.superpose.specs.Examples.{place_at, side_at};
ghost use Rattle.superpose.specs.Settled.{IsSettled};
ghost use Rattle.superpose.specs.Sites.{
  SitesDiffer,
  SuperpositionsHaveSites,
  all_sides,
  below_path,
  can_enter,
  can_start,
  enter_sites,
  inner_places,
  is_positive_atom,
  is_usable,
  open_places,
  places,
  start_sites,
};
ghost use Rattle.superpose.specs.Superposing.{allows, are_alike, enters_under, is_heavy, others_coincide, para_key, starts_under};
ghost use Rattle.superpose.specs.Pairing.{entry_of, is_between, is_from_into, is_superposition, keys_between};

/// Each superposition of well-formed clauses starts from a site of the first clause and goes into one of the second: an index of the sites
/// misses none. And no site stands twice, so the names of the superpositions from sites into sites differ.
pub fn superpositions_have_sites()
    ensures there { SuperpositionsHaveSites }
    ensures differ { SitesDiffer }
{}

/// Sites of `p(a)`, of `~p(X0) | q(X0)`, of `f(a) = b` and of `f(X0) = g(X0)`, and the places of `f(X0,g(a))`.
pub fn site_examples()
    ensures sides { all_sides 2 ≡ side_at 0 Left ∷ side_at 0 Right ∷ side_at 1 Left ∷ side_at 1 Right ∷ [] }
    ensures places { places (f₂ (x 0) (g a)) ≡ [] ∷ (1 ∷ []) ∷ (1 ∷ 0 ∷ []) ∷ [] }
    ensures inner { inner_places (f₂ (x 0) (g a)) ≡ (1 ∷ []) ∷ (1 ∷ 0 ∷ []) ∷ [] }
    ensures below { below_path (side_at 0 Left) (2 ∷ []) (1 ∷ []) ≡ place_at 0 Left (2 ∷ 1 ∷ []) }
    ensures from_unit { start_sites select_negative (p a ∷ []) ≡ side_at 0 Left ∷ [] }
    ensures into_unit { enter_sites select_negative (p a ∷ []) ≡ place_at 0 Left (0 ∷ []) ∷ [] }
    ensures none_chosen { start_sites select_negative (not_p (x 0) ∷ q (x 0) ∷ []) ≡ [] }
    ensures into_chosen { enter_sites select_negative (not_p (x 0) ∷ q (x 0) ∷ []) ≡ place_at 0 Left [] ∷ [] }
    ensures from_greater { start_sites select_nothing (equation (f a) b ∷ []) ≡ side_at 0 Left ∷ [] }
    ensures lower_side { IsFalse (can_start select_nothing (equation (f a) b ∷ []) (side_at 0 Right)) }
    ensures higher_head { start_sites select_nothing (equation (f (x 0)) (g (x 0)) ∷ []) ≡ side_at 0 Right ∷ [] }
    ensures truth { IsFalse (is_usable Right (p a)) }
    ensures positive_atom { IsTrue (is_positive_atom Left (p a)) }
    ensures negative_atom { IsFalse (is_positive_atom Left (not_p a)) }
    ensures whole_side { open_places Left (equation a b) ≡ [] ∷ [] }
    ensures settled { IsSettled (not_p (x 0) ∷ q (x 0) ∷ []) (Some 0) (side_at 0 Left) }
    ensures not_chosen { IsFalse (can_enter select_negative (not_p (x 0) ∷ q (x 0) ∷ []) (side_at 1 Left)) }
{}

/// The condition on two sites: at the root of a positive literal the other sides mustn't become one term.
pub fn superposition_examples()
    ensures named { para_key 3 (side_at 0 Right) 5 (place_at 1 Left (2 ∷ [])) ≡ Para 3 0 Right 5 1 Left (2 ∷ []) }
    ensures coincide { IsTrue (others_coincide (side_at 0 Left) (place_at 0 Left []) variable variable (equation (f a) b) (equation (f a) b)) }
    ensures differ { IsFalse (others_coincide (side_at 0 Left) (place_at 0 Left []) variable variable (equation (f a) b) (equation (f a) c)) }
    ensures below_root { IsFalse (others_coincide
        (side_at 0 Left) (place_at 0 Left (0 ∷ [])) variable variable (equation a b) (equation (f a) b)) }
    ensures starts { IsTrue (starts_under (equation (f a) b ∷ []) (side_at 0 Left) variable) }
    ensures enters { IsTrue (enters_under
        (equation (f a) b ∷ []) (side_at 0 Left) (equation (f a) c ∷ []) (place_at 0 Left []) None variable variable) }
    ensures allowed { IsTrue (allows (equation (f a) b ∷ []) (side_at 0 Left) (equation (f a) c ∷ []) (place_at 0 Left []) None variable variable) }
    ensures not_allowed { IsFalse (allows
        (equation (f a) b ∷ []) (side_at 0 Left) (equation (f a) b ∷ []) (place_at 0 Left []) None variable variable) }
    ensures atoms { IsTrue (are_alike (side_at 0 Left) (place_at 0 Left []) (p a) (not_p (x 0)) (p (x 0)).left) }
    ensures heavy { IsTrue (is_heavy 2000 2100 49) }
    ensures light { IsFalse (is_heavy 2000 2100 50) }
    ensures atom_and_term { IsFalse (are_alike (side_at 0 Left) (place_at 0 Left (0 ∷ [])) (p a) (not_p a) a) }
{}

/// Names of superpositions, and the entries of a list.
pub fn name_examples()
    ensures between { IsTrue (is_between (Para 3 0 Right 5 1 Left (2 ∷ []))) }
    ensures within { IsFalse (is_between (Para 3 0 Right 3 1 Left (2 ∷ []))) }
    ensures superposition { IsTrue (is_superposition (Para 3 0 Right 3 1 Left (2 ∷ []))) }
    ensures resolution { IsFalse (is_superposition (Refl 3 0)) }
    ensures from_into { IsTrue (is_from_into 3 5 (Para 3 0 Right 5 1 Left (2 ∷ []))) }
    ensures the_other_way { IsFalse (is_from_into 5 3 (Para 3 0 Right 5 1 Left (2 ∷ []))) }
    ensures no_entry { entry_of (Refl 3 0) None ≡ [] }
    ensures keys { keys_between 3 (side_at 0 Left ∷ []) 5 (place_at 0 Left [] ∷ place_at 1 Right (2 ∷ []) ∷ [])
        ≡ Para 3 0 Left 5 0 Left [] ∷ Para 3 0 Left 5 1 Right (2 ∷ []) ∷ [] }
{}
