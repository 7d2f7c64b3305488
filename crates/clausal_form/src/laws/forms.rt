// Laws of the clausal form.

ghost use Rattle.clausal_form.specs.FormLaws.{FormsAreCanonical, FormsHaveSmallClauses, FormsAreSmall, FormsAreWellFormed};

/// The clauses of a problem's form are canonical and have no names. Where no formula passes a limit, each has at most `MOST_SYMBOLS` symbols,
/// and the clauses and their symbols are at most `MOST_FORM_SYMBOLS` together.
pub fn clauses_of_forms()
    ensures canonical { FormsAreCanonical }
    ensures small_clauses { FormsHaveSmallClauses }
    ensures small { FormsAreSmall }
{}

/// The clauses of a problem's form are well-formed over its signature.
pub fn forms_are_well_formed()
    ensures { FormsAreWellFormed }
{}
