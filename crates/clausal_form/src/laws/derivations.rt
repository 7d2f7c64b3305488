// The laws of derivations: what an accepted one proves.

ghost use Rattle.clausal_form.specs.DerivationLaws.{FormsHaveFunctions, TakenLinesAreSteps, AcceptedLinesRefute, TakenLinesAreGrounded, AcceptedDerivationsRefute, SpelledLinesAreAnswered, TextsHaveOneAnswer, TextsHaveSomeAnswer};

use tptp_source::laws::one_source;

/// The function symbols of a clausal form are a list over which ground instances are told.
pub fn forms_have_functions()
    ensures { FormsHaveFunctions }
{}

/// Lines that are taken are kernel steps whose bindings are over the form's function symbols, and each clause line is
/// grounded; lines that are accepted are a refutation of the form.
pub fn taken_lines_are_steps()
    ensures steps { TakenLinesAreSteps }
    ensures grounded { TakenLinesAreGrounded }
    ensures refutation { AcceptedLinesRefute }
{}

/// A problem that has an accepted derivation is refuted by finitely many ground instances of its clausal form, over the
/// form's own function symbols.
pub fn accepted_derivations_refute()
    ensures { AcceptedDerivationsRefute }
{}

/// A text that spells lines has the answer that the lines have.
pub fn spelled_lines_are_answered()
    ensures { SpelledLinesAreAnswered }
{}

/// A text has at most one answer, and none is without one.
pub fn texts_have_one_answer()
    ensures at_most_one { TextsHaveOneAnswer }
    ensures some { TextsHaveSomeAnswer }
{
    one_source();
}
