// The chains of a log as steps of resolution on names.

ghost use Rattle.std.specs.Prelude.{◌≡◌, Some, map, [], ◌∷◌};
ghost use Rattle.plain_types.specs.Names.{positive_of};
ghost use Rattle.sat_core.specs.Examples.{chain, link};
ghost use Rattle.kernel_steps.specs.Names.{chained};
ghost use Rattle.pool_history.specs.Chains.{cited, pivots_of};
ghost use Rattle.laws_pool_examples.specs.Examples.{names_in_examples};

/// Over `0 or 1`, `not 0`, `not 1`, of which the first stands with its names exchanged: a chain on 0 gives `1`, and one on both
/// names gives none.
pub fn chain_examples()
    ensures one { chained (map names_in_examples (cited (chain 0 (link (positive_of 0) 1 ∷ [])))) (pivots_of (chain 0 (link (positive_of 0) 1 ∷ [])))
        ≡ Some (positive_of 1 ∷ []) }
    ensures two { chained (map names_in_examples (cited (chain 0 (link (positive_of 0) 1 ∷ link (positive_of 1) 2 ∷ []))))
        (pivots_of (chain 0 (link (positive_of 0) 1 ∷ link (positive_of 1) 2 ∷ []))) ≡ Some [] }
{}
