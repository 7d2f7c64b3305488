// The check of a derivation's text, and the lines that an accepted one has.

ghost use Rattle.std.specs.Prelude.{◌≡◌, ◌<◌, ◌≤◌, IfOk, IfErr, IsTrue, length};
ghost use Rattle.tptp_token.specs.Lexing.{lexed_of};
ghost use Rattle.signature.specs.Form.{clausal_form};
ghost use Rattle.clausal_form.specs.Form.{form_of};
ghost use Rattle.kernel_steps.specs.Derivation.{IsRefutation};
ghost use Rattle.kernel_steps.specs.Soundness.{BindsOver};
ghost use Rattle.clausal_form.specs.FormFunctions.{functions_of, IsHerbrandRefuted};
ghost use Rattle.clausal_form.specs.DerivationTexts.{IsAcceptedDerivation};
ghost use Rattle.laws_meaning.specs.Meaning.{are_closed, ConjectureFollows};
ghost use Rattle.clausal_form.specs.DerivationLine.{nothing_taken};
ghost use Rattle.clausal_form.specs.DerivationLines.{accepted, refused_line};
ghost use Rattle.tstp_checker.specs.Lines.{line_meant, setting_in, taken_in, IsReady, IsJudged};
ghost use Rattle.tstp_checker.specs.AcceptedLines.{AreAcceptedLines};
ghost use Rattle.tstp_checker.specs.Checking.{IsRefusalWhere, IsTakenAt, IsRefusedAt, ending_answer, IsCheckFault};

use crate::cause::Cause;
use crate::lines::Lines;
use crate::reading::{ReadLine, line_at};
use clausal_form::Clausal;
use kernel_steps::Derivation;
use plain_types::{Mem, NoMemory};
use std::alloc::Global;
use tptp_token::{Lexed, MOST_TEXT_BYTES, tokens};
use tptp_tree::Problem;

/// An accepted derivation, by how many lines it has.
#[derive(Clone, Copy, Debug, PartialEq, Eq)]
pub struct Accepted {
    pub lines: u32,
}

/// Why a derivation isn't accepted: out of memory, or its first bad line, by its number from 1, and the first cause there.
#[derive(Clone, Copy, Debug, PartialEq, Eq)]
pub enum CheckFault {
    NoMemory,
    Refused { line: u32, cause: Cause },
}

impl From<NoMemory> for CheckFault {
    ghost use Rattle.std.specs.Prelude.{◌≡◌};
    ghost use Rattle.tstp_checker.specs.declared.derivation.CheckFault.TheVariants.{NoMemory as no_memory};

    ghost from_gives = { λ _ e. e ≡ no_memory };

    fn from(_error: NoMemory) -> CheckFault {
        CheckFault::NoMemory
    }
}

/// Checks the text of a derivation in the language TSTP, over the clausal form of a problem. It is accepted where each line
/// can be read and is taken after those before it, and the last one is the empty clause; the problem's clausal form is then
/// refuted by finitely many of its ground instances. So where no formula has a free variable, every finite interpretation that
/// makes the axioms true makes the conjecture true; without a conjecture none makes them true.
///
/// Else the first bad line is told, with the first cause there. A fault of the text's tokens is `Text` on the line after
/// those that were taken. Where all lines are taken and the last isn't the empty clause, it is `NoEmptyClause` on the last
/// line, or on line 0 where there is none. A line is let go once it is judged.
pub fn check(
    alloc: Global,
    problem: &Problem,
    form: &Clausal,
    text: &[u8],
) -> Result<Accepted, CheckFault>
    requires form { form_of form.now ≡ clausal_form problem.now.formulas }
    requires small { length text.now ≤ MOST_TEXT_BYTES }
    ensures accepted { IfOk result (λ a. IsAcceptedDerivation problem.now.formulas text.now a.lines) }
    ensures refuted { IfOk result (λ _. IsHerbrandRefuted problem.now.formulas) }
    ensures follows { IfOk result (λ _. IsTrue (are_closed problem.now.formulas) → ConjectureFollows problem.now.formulas) }
    ensures refused { IfErr result (IsCheckFault problem.now.formulas text.now) }
{
    let lines = read_lines(alloc, problem, form, text)?;
    Ok(Accepted {
        lines: lines.len() as u32,
    })
}

/// The lines of an accepted derivation, by the same check: each with its step and its clause, where parents are numbers of lines, from 0.
/// The line of a formula that stands in the problem more than once has the first of its places.
pub fn read_lines(
    alloc: Global,
    problem: &Problem,
    form: &Clausal,
    text: &[u8],
) -> Result<Derivation, CheckFault>
    requires form { form_of form.now ≡ clausal_form problem.now.formulas }
    requires small { length text.now ≤ MOST_TEXT_BYTES }
    ensures lines { IfOk result (AreAcceptedLines problem.now.formulas text.now) }
    ensures few { IfOk result (λ lines. length lines ≤ MOST_TEXT_BYTES) }
    ensures refutation { IfOk result (IsRefutation (clausal_form problem.now.formulas).clauses) }
    ensures binds { IfOk result (BindsOver (functions_of (clausal_form problem.now.formulas).symbols)) }
    ensures refused { IfErr result (IsCheckFault problem.now.formulas text.now) }
{
    let lexed = tokens(alloc, text)?;
    let mut lines = Lines::new(alloc, problem.formulas.as_slice(), form)?;
    check_lines(alloc, text, &lexed, &mut lines)?;
    let Lines { taken, .. } = lines;
    Ok(taken.lines)
}

/// Takes the lines of a text one after another, up to the end of its tokens.
fn check_lines(
    alloc: Global,
    text: &[u8],
    lexed: &Lexed,
    lines: &mut Lines<'_>,
) -> Result<(), CheckFault>
    requires lexed { lexed.now ≡ lexed_of text.now }
    requires small { length text.now ≤ MOST_TEXT_BYTES }
    requires ready { IsReady lines.old }
    requires none { taken_in lines.old ≡ nothing_taken }
    requires form { (setting_in lines.old).form ≡ clausal_form (setting_in lines.old).problem }
    ensures accepted { IfOk result (λ _. AreAcceptedLines (setting_in lines.old).problem text.now lines.new.taken.lines) }
    ensures few { IfOk result (λ _. length lines.new.taken.lines ≤ MOST_TEXT_BYTES) }
    ensures refused { IfErr result (IsCheckFault (setting_in lines.old).problem text.now) }
{
    let mut next = 0;
    while next < lexed.tokens.len() {
        next = take_line(alloc, text, lexed, next, lines)?;
    }
    ending(lexed, lines)
}

/// Reads the line at a token, takes it after those before it, and tells the token after it. Each line before it has a token
/// at least.
fn take_line(
    alloc: Global,
    text: &[u8],
    lexed: &Lexed,
    first: usize,
    lines: &mut Lines<'_>,
) -> Result<usize, CheckFault>
    requires lexed { lexed.now ≡ lexed_of text.now }
    requires small { length text.now ≤ MOST_TEXT_BYTES }
    requires first { first < length lexed.now.tokens }
    requires ready { IsReady lines.old }
    requires few { length (taken_in lines.old).lines ≤ first }
    ensures taken { IfOk result (λ next.
        IsTakenAt text.now (setting_in lines.old) first (taken_in lines.old) next (taken_in lines.new)) }
    ensures refused { IfErr result (IsRefusalWhere
        (IsRefusedAt text.now (setting_in lines.old) first (taken_in lines.old))) }
    ensures ready { IfOk result (λ _. IsReady lines.new) }
    ensures setting { setting_in lines.new ≡ setting_in lines.old }
{
    let number = lines.len() as u32 + 1;
    let Some(line) = line_at(alloc, text, lexed, first)? else {
        return Err(CheckFault::Refused {
            line: number,
            cause: Cause::Text,
        });
    };
    let next = line.next;
    match judge_line(alloc, lines, line)? {
        None => Ok(next),
        Some(cause) => Err(CheckFault::Refused {
            line: number,
            cause,
        }),
    }
}

/// Judges a line, and lets it go.
fn judge_line(alloc: Global, lines: &mut Lines<'_>, line: ReadLine) -> Mem<Option<Cause>>
    requires ready { IsReady lines.old }
    ensures judged { IfOk result (λ cause. IsJudged (setting_in lines.old) (taken_in lines.old)
        (line_meant line.annotated line.source) cause (taken_in lines.new)) }
    ensures ready { IfOk result (λ _. IsReady lines.new) }
    ensures setting { setting_in lines.new ≡ setting_in lines.old }
{
    lines.judge(alloc, &line.annotated, &line.source)
}

/// The answer after the last token, where all lines are taken.
fn ending(lexed: &Lexed, lines: &Lines<'_>) -> Result<(), CheckFault>
    requires few { length (taken_in lines.now).lines ≤ MOST_TEXT_BYTES }
    ensures accepted { IfOk result (λ _. ending_answer lexed.now.fault (taken_in lines.now).lines
        ≡ accepted (length (taken_in lines.now).lines)) }
    ensures refused { IfErr result (IsRefusalWhere (λ line cause.
        ending_answer lexed.now.fault (taken_in lines.now).lines ≡ refused_line line cause)) }
{
    let last = lines.len() as u32;
    if lexed.fault.is_some() {
        return Err(CheckFault::Refused {
            line: last + 1,
            cause: Cause::Text,
        });
    }
    if !lines.ends_empty() {
        return Err(CheckFault::Refused {
            line: last,
            cause: Cause::NoEmptyClause,
        });
    }
    Ok(())
}
