// The laws of compatible terms, and worked examples: the contracts of functions without arguments and with
// empty bodies.

ghost use Rattle.std.specs.Prelude.{◌≡◌, true, false, None, Some, [], ◌∷◌, IsTrue, IsFalse};
ghost use Rattle.fol_base.specs.Examples.{x, a, b, f, f₂, g};
ghost use Rattle.fol_base.specs.Compatible.{compatible, compatible_generalisation, compatible_instance};
ghost use Rattle.disc_tree.specs.Entries.{IsBeginning, IsIn, numbers_where};
ghost use Rattle.disc_tree.specs.Examples.{accepts_two, three};
ghost use Rattle.disc_tree.specs.Firsts.{IsFirst};
ghost use Rattle.disc_tree.specs.Generalisations.{MatchersAreReadOff, generalisations, stood_for};
ghost use Rattle.disc_tree.specs.declared.label.Label.TheVariants.{Star, Symbol};
ghost use Rattle.disc_tree.specs.Path.{path};
ghost use Rattle.disc_tree.specs.Prefixes.{can_read, prefixes, compatible_prefixes};
ghost use Rattle.disc_tree.specs.Laws.{UnifiableAreCompatible, GeneralisationsAreCompatible, InstancesAreCompatible};

/// Terms with a common instance are compatible, and so are a term and its instance in either sense. So a query misses no
/// entry that unifies with it, none that is more general and none that is an instance.
pub fn retrieval_misses_none()
    ensures unifiers { UnifiableAreCompatible }
    ensures generalisations { GeneralisationsAreCompatible }
    ensures instances { InstancesAreCompatible }
{}

/// A substitution turns an entry's term into the query exactly where it turns the term's variables, one by one, into the subterms that a
/// generalisation hands out. So one that stands twice has to stand for the same twice.
pub fn matchers_are_read_off()
    ensures { MatchersAreReadOff }
{}

/// The entries that are found among 1 at `f(X0,a)`, 2 at `f(b,X0)` and 3 at `g(a)`, and which terms are compatible: a variable
/// that stands twice is none that has to be the same twice, and a symbol with fewer arguments is another one.
pub fn examples()
    ensures unifiable { numbers_where (λ t. compatible t (f₂ b a)) three ≡ 1 ∷ 2 ∷ [] }
    ensures generalisations { numbers_where (λ t. compatible_generalisation t (f₂ b a)) three ≡ 1 ∷ 2 ∷ [] }
    ensures instances { numbers_where (λ t. compatible_instance t (f₂ (x 0) (x 1))) three ≡ 1 ∷ 2 ∷ [] }
    ensures no_instances { numbers_where (λ t. compatible_instance t (f₂ b a)) three ≡ [] }
    ensures all { numbers_where (λ t. compatible t (x 0)) three ≡ 1 ∷ 2 ∷ 3 ∷ [] }
    ensures fewer_arguments { numbers_where (λ t. compatible t (f (x 0))) three ≡ [] }
    ensures twice { compatible (f₂ (x 0) (x 0)) (f₂ a b) ≡ true }
    ensures below { compatible (g (f a)) (g (f b)) ≡ false }
    ensures variables { compatible_generalisation (x 0) (x 1) ≡ true }
    ensures variables_too { compatible_instance (x 0) (x 1) ≡ true }
    ensures there { IsIn (f₂ b (x 0), 2) three }
    ensures stood_for { stood_for (f₂ (x 0) (g (x 1))) (f₂ (f a) (g b)) ≡ f a ∷ b ∷ [] }
    ensures handed_out { generalisations (f₂ b a) three ≡ ((f₂ (x 0) a, 1), b ∷ []) ∷ ((f₂ b (x 0), 2), a ∷ []) ∷ [] }
    ensures first_accepted { IsFirst accepts_two (1 ∷ 2 ∷ 3 ∷ []) (Some 7) }
    ensures none_accepted { IsFirst accepts_two (1 ∷ 3 ∷ []) None }
    ensures none_is_wrong { ¬ IsFirst accepts_two (2 ∷ []) None }
    ensures other_is_wrong { ¬ IsFirst accepts_two (2 ∷ 3 ∷ []) (Some 8) }
    ensures refusal_is_no_end { ¬ IsFirst accepts_two (1 ∷ 2 ∷ []) None }
    ensures begins { IsBeginning (1 ∷ []) (1 ∷ 2 ∷ []) }
    ensures begins_otherwise { ¬ IsBeginning (1 ∷ []) (2 ∷ 1 ∷ []) }
    ensures not_there { ¬ IsIn (f₂ b (x 1), 2) three }
{}

/// Prefixes of paths, and those that a query is compatible with.
pub fn prefix_examples()
    ensures prefixes_of_a_path { prefixes (path (f a)) ≡ [] ∷ (Symbol 4 1 ∷ []) ∷ (Symbol 4 1 ∷ Symbol 1 0 ∷ []) ∷ [] }
    ensures star_passes_over_a_subterm { IsTrue (can_read (f₂ (g b) a ∷ []) (Symbol 4 2 ∷ Star ∷ Symbol 1 0 ∷ [])) }
    ensures symbol_stands_at_its_place { IsFalse (can_read (f₂ (g b) a ∷ []) (Symbol 4 2 ∷ Symbol 5 1 ∷ Symbol 1 0 ∷ [])) }
    ensures other_arity { IsFalse (can_read (f a ∷ []) (Symbol 4 2 ∷ [])) }
    ensures six { compatible_prefixes (f₂ b a) three ≡ 6 }
    ensures equal_paths_count_once { compatible_prefixes a ((x 0, 1) ∷ (x 1, 2) ∷ []) ≡ 2 }
    ensures empty_one_alone { compatible_prefixes a [] ≡ 1 }
{}
