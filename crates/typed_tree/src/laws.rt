// The laws of the definitions: each is the contract of a function without arguments and with an empty body.

ghost use Rattle.std.specs.Prelude.{◌≡◌, true, List};
ghost use Rattle.tptp_token.specs.Lexemes.{Lexeme};
ghost use Rattle.typed_tree.specs.TypedEntries.{TypedPhrase, is_right_typed, typed_lexemes};
ghost use Rattle.typed_tree.specs.Examples.{FormulaTokens, FormulaMeaning, FormulaPlaces, FormulaCauses, FormulaTooDeep, DeclarationTokens, DeclarationMeaning, DeclarationCauses, SortDeclaration, SortlessVariable, TypeIsNoRole, MixedWord, LeftOutWord, PolymorphicType, LeftOutSort, SameTypes, OtherTypes, FormulaSize};

/// Tokens begin with at most one entry.
pub fn one_typed_phrase()
    ensures { (p q : TypedPhrase) (rest more : List Lexeme) → is_right_typed p ≡ true → is_right_typed q ≡ true
        → typed_lexemes p rest ≡ typed_lexemes q more → (p ≡ q) × (rest ≡ more) }
{}

/// Worked examples of entries: their tokens, their contents, and the causes for which their tokens are refused.
pub fn typed_entry_examples()
    ensures formula_tokens { FormulaTokens }
    ensures formula_meaning { FormulaMeaning }
    ensures formula_places { FormulaPlaces }
    ensures formula_causes { FormulaCauses }
    ensures formula_too_deep { FormulaTooDeep }
    ensures declaration_tokens { DeclarationTokens }
    ensures declaration_meaning { DeclarationMeaning }
    ensures declaration_causes { DeclarationCauses }
    ensures sort_declaration { SortDeclaration }
    ensures sortless_variable { SortlessVariable }
    ensures type_is_no_role { TypeIsNoRole }
{}

/// Worked examples of tokens that end the reading of an entry.
pub fn typed_answer_examples()
    ensures mixed { MixedWord }
    ensures left_out { LeftOutWord }
    ensures polymorphic { PolymorphicType }
    ensures left_out_sort { LeftOutSort }
{}

/// Worked examples of types and sizes.
pub fn typed_tree_examples()
    ensures same { SameTypes }
    ensures other { OtherTypes }
    ensures size { FormulaSize }
{}
