// Worked derivations, as texts.

ghost use Rattle.std.specs.Prelude.{[], codes};
ghost use Rattle.clausal_form.specs.DerivationCauses.{text, no_empty_clause};
ghost use Rattle.clausal_form.specs.DerivationTexts.{IsAcceptedDerivation, IsRefusedDerivation, SpellsDerivation};
ghost use Rattle.clausal_form.specs.DerivationExamples.{falsum, falsum_text, falsum_text_then_dot, falsum_lines};

/// A text that spells two lines, the empty text, one that begins with no line, one that has none after two, and one whose
/// first byte is at fault.
pub fn text_examples()
    ensures spelled { SpellsDerivation falsum_text falsum_lines }
    ensures accepted { IsAcceptedDerivation falsum falsum_text 2 }
    ensures no_lines { IsRefusedDerivation falsum [] 0 no_empty_clause }
    ensures no_line { IsRefusedDerivation falsum (codes ".") 1 text }
    ensures third_line { IsRefusedDerivation falsum falsum_text_then_dot 3 text }
    ensures bad_byte { IsRefusedDerivation falsum (codes "_") 1 text }
{}
