// Laws of the selection and of parts of forms.

ghost use Rattle.axiom_filter.specs.Restriction.{PartsDerive, PartsAreInputs};
ghost use Rattle.axiom_filter.specs.Examples.{SelectsByRarity, ToleranceTakesMore, DepthTakesMore, KeepsWithoutGoal, KeepsWithoutSymbols, PartOfForm};

/// Each line of a derivation from a part of a form is, with its clause's number in the form, a line of one from the form.
pub fn parts_derive()
    ensures { PartsDerive }
{}

/// What a pool asks of its inputs goes from a form to its parts.
pub fn parts_are_inputs()
    ensures { PartsAreInputs }
{}

/// Worked selections.
pub fn selection_examples()
    ensures by_rarity { SelectsByRarity }
    ensures tolerance { ToleranceTakesMore }
    ensures depth { DepthTakesMore }
    ensures no_goal { KeepsWithoutGoal }
    ensures no_symbols { KeepsWithoutSymbols }
    ensures part { PartOfForm }
{}
