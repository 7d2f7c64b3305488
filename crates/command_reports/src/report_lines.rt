// The lines of reports that every command may have.

ghost use Rattle.std.specs.Prelude.{◌≡◌, ◌++◌, IfOk};
ghost use Rattle.command_reports.specs.Reports.{for_problem, status_line, output_line, load_line, place_line, formula_line, printed_report, read_status_word, fault_line};

use crate::names::{push_problem_name, push_shown};
use crate::report_words::read_word;
use plain_types::Mem;
use tptp_reader::ReadCause;
use tstp_writer::{Page, push_formula_name};

/// Adds the end of a line that names the problem.
fn push_for(page: &mut Page, file: &str) -> Mem<()>
    ensures { IfOk result (λ _. page.new ≡ page.old ++ for_problem file.now) }
{
    page.bytes(b" for ")?;
    push_problem_name(page, file)?;
    page.bytes(b"\n")
}

/// Adds the line of a status.
pub fn push_status(page: &mut Page, word: &[u8], file: &str) -> Mem<()>
    ensures { IfOk result (λ _. page.new ≡ page.old ++ status_line word.now file.now) }
{
    page.bytes(b"% SZS status ")?;
    page.bytes(word)?;
    push_for(page, file)
}

/// Adds a line before or after what is printed, by the word for where it stands and that for what is printed.
pub fn push_output(page: &mut Page, place: &[u8], form: &[u8], file: &str) -> Mem<()>
    ensures { IfOk result (λ _. page.new ≡ page.old ++ output_line place.now form.now file.now) }
{
    page.bytes(b"% SZS output ")?;
    page.bytes(place)?;
    page.bytes(b" ")?;
    page.bytes(form)?;
    push_for(page, file)
}

/// Adds the line of a file that couldn't be loaded.
pub fn push_load(page: &mut Page, file: &[u8]) -> Mem<()>
    ensures { IfOk result (λ _. page.new ≡ page.old ++ load_line file.now) }
{
    page.bytes(b"% Load ")?;
    push_shown(page, file)?;
    page.bytes(b"\n")
}

/// Adds a cause at a place of a file.
fn push_place(page: &mut Page, word: &[u8], name: &[u8], place: u32) -> Mem<()>
    ensures { IfOk result (λ _. page.new ≡ page.old ++ place_line word.now name.now place) }
{
    page.bytes(b"% ")?;
    page.bytes(word)?;
    page.bytes(b" at ")?;
    push_shown(page, name)?;
    page.bytes(b":")?;
    page.number(u64::from(place))?;
    page.bytes(b"\n")
}

/// Adds a cause in a formula.
pub fn push_formula(page: &mut Page, word: &[u8], name: &[u8]) -> Mem<()>
    ensures { IfOk result (λ _. page.new ≡ page.old ++ formula_line word.now name.now) }
{
    page.bytes(b"% ")?;
    page.bytes(word)?;
    page.bytes(b" in ")?;
    push_formula_name(page, name)?;
    page.bytes(b"\n")
}

/// Adds a text between its two lines, after the status of a word.
pub fn push_printed(page: &mut Page, file: &str, word: &[u8], form: &[u8], text: &[u8]) -> Mem<()>
    ensures { IfOk result (λ _. page.new ≡ page.old ++ printed_report file.now word.now form.now text.now) }
{
    push_status(page, word, file)?;
    push_output(page, b"start", form, file)?;
    page.bytes(text)?;
    push_output(page, b"end", form, file)
}

/// The word of the status of a text that isn't read.
pub fn read_status_word(cause: ReadCause) -> &'static [u8]
    ensures { result.now ≡ read_status_word cause }
{
    match cause {
        ReadCause::Inappropriate(_) => b"Inappropriate",
        ReadCause::Load => b"OSError",
        _ => b"InputError",
    }
}

/// Adds why a text isn't read.
pub fn push_fault(page: &mut Page, cause: ReadCause, name: &[u8], place: u32) -> Mem<()>
    ensures { IfOk result (λ _. page.new ≡ page.old ++ fault_line cause name.now place) }
{
    match cause {
        ReadCause::Load => push_load(page, name),
        _ => push_place(page, read_word(cause), name, place),
    }
}
