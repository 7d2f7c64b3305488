// The laws of the definitions, and worked examples: each is the contract of a function without arguments and with an empty body.

ghost use Rattle.std.specs.Prelude.{◌≡◌, true, false, [], ◌∷◌, codes};
ghost use Rattle.plain_types.specs.Names.{positive_of};
ghost use Rattle.clausal_form.specs.DerivationExamples as example;
ghost use Rattle.kernel_steps.specs.Examples.{halves, line};
ghost use Rattle.kernel_steps.specs.declared.step.Step.TheVariants.{Component, Opposite, Split, Chain, Clausify};
ghost use Rattle.tstp_writer.specs.Cone.{needs, IsCone};
ghost use Rattle.tstp_writer.specs.ConeExamples.{split_lines};
ghost use Rattle.tstp_writer.specs.ConeLaws.{DerivationsNeedEarlier};
ghost use Rattle.fol_base.specs.Tree.{variable};
ghost use Rattle.fol_base.specs.Clause.{TreeClause};
ghost use Rattle.clausal_form.specs.DerivationCauses.{text};
ghost use Rattle.clausal_form.specs.DerivationLines.{verdict_on_lines, accepted, refused_line};
ghost use Rattle.tstp_writer.specs.DerivedLines.{DerivedLinesAreTaken};
ghost use Rattle.tstp_writer.specs.LineTexts.{line_text, lines_text};
ghost use Rattle.tstp_writer.specs.LineTrees.{script_of, derived_name, step_source, clause_tree, derivation_trees};
ghost use Rattle.tstp_writer.specs.ReadableExamples as factor;
ghost use Rattle.tstp_writer.specs.ReadableLines.{IsReadable, NumbersFit, read_clause, read_renaming, read_terms};
ghost use Rattle.tstp_writer.specs.Printable.{PrintedLinesAreSpelled};
ghost use Rattle.tstp_writer.specs.ProblemLaws.{ProblemLinesArePrintable, ScriptFormulasArePrintable, BeginningsArePrintable, LineNamesAreShown};
ghost use Rattle.tstp_writer.specs.WrittenTexts.{FormSymbolsAreShown, ReadableLinesArePrintable, ReadableDerivationsArePrintable, ReadableDerivationsAreSpelled, WrittenTextsAreAccepted};
ghost use Rattle.tstp_writer.specs.WrittenLaws.{WrittenLinesAreAccepted};
ghost use Rattle.tstp_writer.specs.TextExamples.{implication_steps, implication_numbers, implication_text, named_components, components_steps, components_numbers, components_text, split_or_q, signed_steps, signed_numbers, signed_text};

/// The lines of a derivation need earlier lines alone.
pub fn derivations_need_earlier()
    ensures { DerivationsNeedEarlier }
{}

/// An opposite line needs the component line of its name, a split its parent and its definitions, a chain all its parents; what
/// these need in turn isn't asked.
pub fn needed_line_examples()
    ensures component { needs (Opposite 0) 1 (line (Component 0) []) ≡ true }
    ensures other_component { needs (Opposite 0) 2 (line (Component 1) []) ≡ false }
    ensures split_parent { needs (Split 0 (2 ∷ 4 ∷ []) halves) 0 (line (Clausify 0) []) ≡ true }
    ensures first_definition { needs (Split 0 (2 ∷ 4 ∷ []) halves) 2 (line (Component 1) []) ≡ true }
    ensures second_definition { needs (Split 0 (2 ∷ 4 ∷ []) halves) 4 (line (Opposite 0) []) ≡ true }
    ensures component_of_definition { needs (Split 0 (2 ∷ 4 ∷ []) halves) 1 (line (Component 0) []) ≡ false }
    ensures chain_parent { needs (Chain (6 ∷ 7 ∷ []) (positive_of 0 ∷ [])) 7 (line (Clausify 2) []) ≡ true }
    ensures clause_of_form { needs (Clausify 0) 0 (line (Clausify 0) []) ≡ false }
{}

/// The last line needs itself, its parent, the definitions of both parts, and the component line of the second one's name. In the
/// other derivation a clausify line isn't needed, and stands in no cone.
pub fn cone_examples()
    ensures split { IsCone split_lines 5 (0 ∷ 1 ∷ 2 ∷ 4 ∷ 5 ∷ []) }
    ensures implication { IsCone implication_steps 7 implication_numbers }
{}

/// Where the formulas of a problem can be printed, so can the lines of them and of a conjecture's negation, where their names and the
/// file's name are shown, and so those with which a written derivation begins.
pub fn problems_are_printable()
    ensures lines { ProblemLinesArePrintable }
    ensures by_places { ScriptFormulasArePrintable }
    ensures beginnings { BeginningsArePrintable }
{}

/// The names that lines have are shown.
pub fn line_names_are_shown()
    ensures { LineNamesAreShown }
{}

/// The lines that are written for derivations, and their texts: one implication, where the fourth line isn't needed; two components;
/// and an opposite line with a negative pivot, over a problem with a symbol that begins with `spl`.
pub fn written_examples()
    ensures implication_lines { derivation_trees (script_of (codes "r5.p") example.implication) implication_steps implication_numbers
        ≡ example.implication_lines }
    ensures implication_text { lines_text example.implication_lines ≡ implication_text }
    ensures components_lines { derivation_trees (script_of (codes "r10.p") example.components) components_steps components_numbers
        ≡ example.components_lines }
    ensures components_text { lines_text example.components_lines ≡ components_text }
    ensures signed_text { lines_text (derivation_trees (script_of (codes "r11.p") split_or_q) signed_steps signed_numbers) ≡ signed_text }
{}

/// A factor line with variables and equations, and its text.
pub fn factor_line_examples()
    ensures text { line_text (clause_tree factor.script (derived_name factor.layout 1) factor.factor_clause
        (step_source factor.script factor.layout factor.factor_step)) ≡ factor.factor_text }
    ensures readable { IsReadable factor.symbols factor.factor_step factor.factor_clause }
    ensures numbers { NumbersFit factor.factor_step factor.factor_clause }
{}

/// A canonical clause keeps its variables when its line is read. A variable that a bound term alone has is numbered after them.
pub fn read_variable_examples()
    ensures of_clause { read_terms (read_renaming factor.factor_step factor.factor_clause) (variable 0 ∷ []) ≡ variable 0 ∷ [] }
    ensures alone { read_terms (read_renaming factor.other_step factor.factor_clause) (variable 7 ∷ variable 0 ∷ []) ≡ variable 1 ∷ variable 0 ∷ [] }
{}

/// A component line and a split line, which can be read again. Names 2 and 5, if no others are introduced, are read as 0 and 1.
pub fn named_line_examples()
    ensures component { IsReadable factor.symbols (Component 2) factor.component_clause }
    ensures component_numbers { NumbersFit (Component 2) factor.component_clause }
    ensures split { IsReadable factor.symbols factor.split_step factor.split_clause }
    ensures split_numbers { NumbersFit factor.split_step factor.split_clause }
    ensures names { read_clause (2 ∷ 5 ∷ []) factor.split_clause
        ≡ (let c : TreeClause = record { literals = []; names = positive_of 0 ∷ positive_of 1 ∷ [] } in c) }
{}

/// What is written of two components is accepted with other names too. With names that fall, a clause with both names has them in
/// another order than the text's, and its line is refused.
pub fn written_name_examples()
    ensures rising { verdict_on_lines example.components
        (derivation_trees (script_of (codes "r10.p") example.components) (named_components 2 5) components_numbers) ≡ accepted 14 }
    ensures falling { verdict_on_lines example.components
        (derivation_trees (script_of (codes "r10.p") example.components) (named_components 1 0) components_numbers) ≡ refused_line 9 text }
{}

/// The printed text of lines that can be printed spells them.
pub fn printed_lines_are_spelled()
    ensures { PrintedLinesAreSpelled }
{}

/// The symbols of the form of a problem that was read have names that are shown, `$true` aside.
pub fn form_symbols_are_shown()
    ensures { FormSymbolsAreShown }
{}

/// What is written for lines that can be read again, over the form of a problem that was read, can be printed; so the printed text of a
/// derivation in such lines spells what is written for it.
pub fn readable_derivations_are_spelled()
    ensures lines { ReadableLinesArePrintable }
    ensures derivations { ReadableDerivationsArePrintable }
    ensures texts { ReadableDerivationsAreSpelled }
{}

/// A line of a derivation that can be read again is taken when it is read, after lines among which its parents are.
pub fn derived_lines_are_taken()
    ensures { DerivedLinesAreTaken }
{}

/// The lines that are written for a refutation whose lines can be read again are accepted.
pub fn written_lines_are_accepted()
    ensures { WrittenLinesAreAccepted }
{}

/// The printed text of what is written for such a refutation is an accepted derivation.
pub fn written_texts_are_accepted()
    ensures { WrittenTextsAreAccepted }
{}
