// The words for causes in reports: the names of their variants.

ghost use Rattle.std.specs.Prelude.{◌≡◌};
ghost use Rattle.command_reports.specs.Reports.{form_word, read_word, limit_word};

use clausal_form::FormCause;
use tptp_reader::{Form, ReadCause};

/// The word of a form that is left out.
fn form_word(form: Form) -> &'static [u8]
    ensures { result.now ≡ form_word form }
{
    match form {
        Form::Typed => b"Typed",
        Form::RoleForm => b"RoleForm",
        Form::Number => b"Number",
        Form::Distinct => b"Distinct",
        Form::Dollar => b"Dollar",
    }
}

/// The word of a cause for which a text isn't read.
pub fn read_word(cause: ReadCause) -> &'static [u8]
    ensures { result.now ≡ read_word cause }
{
    match cause {
        ReadCause::BadByte => b"BadByte",
        ReadCause::Unclosed => b"Unclosed",
        ReadCause::Syntax => b"Syntax",
        ReadCause::FreeVariable => b"FreeVariable",
        ReadCause::Role => b"Role",
        ReadCause::SecondConjecture => b"SecondConjecture",
        ReadCause::SelectionMissing => b"SelectionMissing",
        ReadCause::IncludeDepth => b"IncludeDepth",
        ReadCause::TooLong => b"TooLong",
        ReadCause::Nesting => b"Nesting",
        ReadCause::Inappropriate(form) => form_word(form),
        ReadCause::Load => b"Load",
    }
}

/// The word of a limit that a formula passes.
pub fn limit_word(cause: FormCause) -> &'static [u8]
    ensures { result.now ≡ limit_word cause }
{
    match cause {
        FormCause::Expansion => b"Expansion",
        FormCause::TooHeavy => b"TooHeavy",
        FormCause::TotalLimit => b"TotalLimit",
    }
}
