// How a derivation is printed: the whole text of the lines that one of them needs.

ghost use Rattle.std.specs.Prelude.{◌≡◌, ◌<◌, ◌-◌, ℕ, length, IfOk};
ghost use Rattle.std.specs.List.{AllByRecursion};
ghost use Rattle.fol_base.specs.Canonical.{numbers_from};
ghost use Rattle.tptp_tree.specs.ProblemSize.{HasProblemSize};
ghost use Rattle.signature.specs.Symbol.{IsSignature};
ghost use Rattle.signature.specs.Form.{clausal_form};
ghost use Rattle.clausal_form.specs.Form.{form_of};
ghost use Rattle.tstp_writer.specs.Cone.{AreAllNeeded, IsCone, NeedEarlier};
ghost use Rattle.tstp_writer.specs.ReadableLines.{Fits};
ghost use Rattle.tstp_writer.specs.Written.{IsWritten, IsAcceptedWhereReadable};

use crate::fits::prove_lines_fit;
use crate::layout::lay_out;
use crate::needed::cone;
use crate::page::Page;
use crate::script::Script;
use crate::text::push_lines;
use clausal_form::Clausal;
use kernel_steps::Derivation;
use plain_types::{Mem, Numbers, Text};
use signature::fresh_prefix;
use std::alloc::Global;
use tptp_tree::Problem;

/// The text of the lines that the line `last` needs, with the formulas of the problem that they stand on. The file is the name that
/// is shown. Where that name is shown, the problem's formulas can be printed, as those that were read can, and the lines are a
/// refutation of which those that `last` needs can be read again and introduce rising names, it is an accepted derivation. Linear in
/// the formulas, the symbols, the lines and the text. Over 2^64 written lines are out of memory.
pub fn write_lines(
    alloc: Global,
    problem: &Problem,
    form: &Clausal,
    lines: &Derivation,
    last: u64,
    file: &[u8],
) -> Mem<Text>
    requires last { last < length lines.now }
    requires earlier { NeedEarlier lines.now }
    requires form { form_of form.now ≡ clausal_form problem.now.formulas }
    requires size { HasProblemSize problem.now.formulas }
    ensures written { IfOk result (IsWritten file.now problem.now.formulas lines.now last) }
    ensures accepted { IfOk result (IsAcceptedWhereReadable file.now problem.now.formulas lines.now last) }
{
    let numbers = cone(alloc, lines, last)?;
    write_numbered(alloc, problem, form, lines, numbers, file)
}

/// The text of all lines, each of which the last one needs: what `write_lines` writes for the last line, without a search for what it
/// needs.
pub fn write_all_lines(
    alloc: Global,
    problem: &Problem,
    form: &Clausal,
    lines: &Derivation,
    file: &[u8],
) -> Mem<Text>
    requires needed { AreAllNeeded lines.now }
    requires form { form_of form.now ≡ clausal_form problem.now.formulas }
    requires size { HasProblemSize problem.now.formulas }
    ensures written { IfOk result (IsWritten file.now problem.now.formulas lines.now (length lines.now - 1)) }
    ensures accepted { IfOk result (IsAcceptedWhereReadable file.now problem.now.formulas lines.now (length lines.now - 1)) }
{
    let numbers = numbers_below(alloc, lines.len())?;
    write_numbered(alloc, problem, form, lines, numbers, file)
}

/// The text of the lines with these numbers, and of the formulas that they stand on.
fn write_numbered(
    alloc: Global,
    problem: &Problem,
    form: &Clausal,
    lines: &Derivation,
    numbers: Numbers,
    file: &[u8],
) -> Mem<Text>
    requires below { AllByRecursion (λ n. n < length lines.now) numbers }
    requires form { form_of form.now ≡ clausal_form problem.now.formulas }
    requires size { HasProblemSize problem.now.formulas }
    ensures written { IfOk result (λ text. (last : ℕ) → IsCone lines.now last numbers → IsWritten file.now problem.now.formulas lines.now last text) }
    ensures accepted { IfOk result (λ text. (last : ℕ) → IsCone lines.now last numbers
        → IsAcceptedWhereReadable file.now problem.now.formulas lines.now last text) }
{
    let prefix = fresh_prefix(alloc, &form.signature, "spl")?;
    let script = Script {
        file,
        formulas: problem.formulas.as_slice(),
        symbols: form.signature.as_slice(),
        origins: form.origins.as_slice(),
        prefix: prefix.as_slice(),
    };
    prove_counts(form);
    prove_lines_fit(lines.as_slice());
    let layout = lay_out(alloc, script, lines.as_slice(), numbers)?;
    let mut page = Page::new(alloc);
    push_lines(alloc, &mut page, script, &layout, lines.as_slice())?;
    Ok(page.into_text())
}

/// The numbers below one.
fn numbers_below(alloc: Global, count: usize) -> Mem<Numbers>
    ensures { IfOk result (λ numbers. numbers ≡ numbers_from 0 count) }
{
    let mut numbers = Numbers::from_vec(Vec::with_capacity(alloc, count)?);
    for number in 0..count {
        numbers.push(number as u64)?;
    }
    Ok(numbers)
}

/// The symbols of a form are a signature's, and its clauses are counted by a machine word.
fn prove_counts(form: &Clausal)
    ensures symbols { IsSignature form.now.signature }
    ensures clauses { Fits (length form.now.clauses) }
{
    let _ = form.signature.len();
    let _ = form.clauses.len();
}
