// The laws of the definitions: each is the contract of a function without arguments and with an empty body.

ghost use Rattle.std.specs.Prelude.{◌≡◌, false, [], ◌∷◌, IsFalse};
ghost use Rattle.plain_types.specs.Names.{positive_of, negative_of};
ghost use Rattle.fol_base.specs.Examples.{x, a, b, p, q, equation};
ghost use Rattle.fol_base.specs.Rules.{disequation};
ghost use Rattle.kernel_steps.specs.Derivation.{complement};
ghost use Rattle.split_parts.specs.Components.{IsComponents};
ghost use Rattle.split_parts.specs.ComponentLaws.{ComponentsAreUnique, ComponentsAreWhole, ComponentsSplit};
ghost use Rattle.split_parts.specs.PartHash.{part_hash};
ghost use Rattle.split_parts.specs.Tags.{has_part, with_part, tag_of};
ghost use Rattle.split_parts.specs.TagLaws.{TagsTellParts, TagsStay, PartsStandAtTheirTags, MetPartsAreThere};
ghost use Rattle.split_parts.specs.SignedNames.{is_ground_negative, named, signed_name};
ghost use Rattle.split_parts.specs.SignedLaws.{SignedNamesStay, SignedNamesTellParts, ComplementsAreOpposite, NamesAreBelow};

/// Two lists of components of the same literals are equal.
pub fn components_are_unique()
    ensures { ComponentsAreUnique }
{}

/// The literals of a component are one component.
pub fn components_are_whole()
    ensures { ComponentsAreWhole }
{}

/// With a definition for each part, components meet the condition of a split.
pub fn components_split()
    ensures { ComponentsSplit }
{}

/// Components of clauses with three literals, and of the empty clause.
pub fn component_examples()
    ensures shared { IsComponents (p (x 0) ∷ q (x 1) ∷ q (x 0) ∷ []) ((0 ∷ 2 ∷ []) ∷ (1 ∷ []) ∷ []) }
    ensures ground_literals { IsComponents (p a ∷ q (x 0) ∷ q b ∷ []) ((0 ∷ []) ∷ (1 ∷ []) ∷ (2 ∷ []) ∷ []) }
    ensures chained { IsComponents (equation (x 0) (x 1) ∷ p (x 2) ∷ equation (x 1) (x 2) ∷ []) ((0 ∷ 1 ∷ 2 ∷ []) ∷ []) }
    ensures none { IsComponents [] [] }
{}

/// Different parts have different tags.
pub fn tags_tell_parts()
    ensures { TagsTellParts }
{}

/// A part keeps its tag when another is met.
pub fn tags_stay()
    ensures { TagsStay }
{}

/// A part that was met is there, and stands at its tag.
pub fn parts_stand_at_their_tags()
    ensures there { MetPartsAreThere }
    ensures at { PartsStandAtTheirTags }
{}

/// A part keeps its signed name when another is met, different parts have different ones, and their names count from 0.
pub fn signed_names_tell_parts()
    ensures stay { SignedNamesStay }
    ensures tell { SignedNamesTellParts }
    ensures below { NamesAreBelow }
{}

/// A ground literal and its complement have opposite signed names.
pub fn complements_are_opposite()
    ensures { ComplementsAreOpposite }
{}

/// Tags of parts with one literal.
pub fn tag_examples()
    ensures none { tag_of [] (p (x 0) ∷ []) ≡ 0 }
    ensures first { with_part [] (p (x 0) ∷ []) ≡ (p (x 0) ∷ []) ∷ [] }
    ensures next { tag_of ((p (x 0) ∷ []) ∷ []) (q (x 0) ∷ []) ≡ 1 }
    ensures known { tag_of ((p (x 0) ∷ []) ∷ (q (x 0) ∷ []) ∷ []) (p (x 0) ∷ []) ≡ 0 }
    ensures met_again { with_part ((p (x 0) ∷ []) ∷ (q (x 0) ∷ []) ∷ []) (p (x 0) ∷ []) ≡ (p (x 0) ∷ []) ∷ (q (x 0) ∷ []) ∷ [] }
    ensures sides_exchanged { IsFalse (has_part (equation (x 0) (x 1) ∷ []) ((equation (x 1) (x 0) ∷ []) ∷ [])) }
{}

/// Signed names: `~p(a), p(a)` share the name 0; after `q(X0)` they share the name 1; parts of more literals, and those with variables,
/// are positive; an equation and the one with its sides exchanged have two names.
pub fn signed_examples()
    ensures negative_first { signed_name ((complement (p a) ∷ []) ∷ []) (complement (p a) ∷ []) ≡ negative_of 0 }
    ensures positive_second { signed_name ((complement (p a) ∷ []) ∷ (p a ∷ []) ∷ []) (p a ∷ []) ≡ positive_of 0 }
    ensures after_another { signed_name ((q (x 0) ∷ []) ∷ (complement (p a) ∷ []) ∷ (p a ∷ []) ∷ []) (complement (p a) ∷ [])
        ≡ negative_of 1 }
    ensures named { named ((q (x 0) ∷ []) ∷ (complement (p a) ∷ []) ∷ (p a ∷ []) ∷ []) ≡ (q (x 0) ∷ []) ∷ (p a ∷ []) ∷ [] }
    ensures with_variables { is_ground_negative (complement (p (x 0)) ∷ []) ≡ false }
    ensures of_two_literals { is_ground_negative (complement (p a) ∷ complement (q a) ∷ []) ≡ false }
    ensures sides_exchanged { named ((disequation a b ∷ []) ∷ (equation b a ∷ []) ∷ []) ≡ (equation a b ∷ []) ∷ (equation b a ∷ []) ∷ [] }
{}

/// Hashes of small parts, no two of which are equal: another sign, symbol, argument, side or order of literals gives another hash.
pub fn hash_examples()
    ensures positive { part_hash 0 (p a ∷ []) ≡ 16758383481192967165 }
    ensures negative { part_hash 0 (complement (p a) ∷ []) ≡ 3042323838258274714 }
    ensures of_another_symbol { part_hash 0 (q a ∷ []) ≡ 7738767765886179430 }
    ensures of_another_argument { part_hash 0 (p b ∷ []) ≡ 11039911857085542412 }
    ensures of_a_variable { part_hash 0 (p (x 0) ∷ []) ≡ 11685576449966363452 }
    ensures of_an_equation { part_hash 0 (equation a b ∷ []) ≡ 645664597955944715 }
    ensures sides_exchanged { part_hash 0 (equation b a ∷ []) ≡ 13373937046741237510 }
    ensures of_two_literals { part_hash 0 (p a ∷ q a ∷ []) ≡ 10341199691591040868 }
    ensures literals_exchanged { part_hash 0 (q a ∷ p a ∷ []) ≡ 13155968657246177114 }
{}
