// How the lines of a derivation are printed one after another.

ghost use Rattle.std.specs.Prelude.{◌≡◌, ◌≤◌, ◌^◌, ◌++◌, length, IfOk, IsTrue};
ghost use Rattle.tptp_token.specs.Spelling.{is_lower_word};
ghost use Rattle.tstp_writer.specs.LineTexts.{lines_text, shown_text, shown_texts};
ghost use Rattle.tstp_writer.specs.LineTrees.{line_name, input_at, negate_at, formula_tree, line_tree, cited_tree, negated_tree, derived_tree, laid_out_trees};
ghost use Rattle.tstp_writer.specs.Scripts.{script_in};

use crate::layout::Layout;
use crate::lines::{push_clause_line, push_input, push_negate};
use crate::page::Page;
use crate::script::Script;
use kernel_steps::{Line, Step};
use plain_types::Mem;
use std::alloc::Global;

/// Adds the line of the formula at a place, where there is one.
fn push_input_at(
    alloc: Global,
    page: &mut Page,
    script: Script<'_>,
    number: u64,
    place: u64,
) -> Mem<()>
    ensures { IfOk result (λ _. page.new ≡ page.old ++ shown_text (input_at (script_in script.entry) (line_name number) place)) }
{
    match script.formulas.get(place as usize) {
        Some(annotated) => push_input(alloc, page, script, number, annotated),
        None => Ok(()),
    }
}

/// Adds the line of the negation of the formula at a place, where there is one.
fn push_negate_at(
    alloc: Global,
    page: &mut Page,
    script: Script<'_>,
    layout: &Layout,
    number: u64,
    place: u32,
) -> Mem<()>
    requires { IsTrue (is_lower_word script.prefix.now) }
    ensures { IfOk result (λ _. page.new ≡ page.old
        ++ shown_text (negate_at (script_in script.entry) layout.now (line_name number) place)) }
{
    match script.formulas.get(place as usize) {
        Some(annotated) => push_negate(alloc, page, script, layout, number, place, annotated),
        None => Ok(()),
    }
}

/// Adds the line that is written for an input or negate line of a derivation.
fn push_formula_line(
    alloc: Global,
    page: &mut Page,
    script: Script<'_>,
    layout: &Layout,
    number: u64,
    step: &Step,
) -> Mem<()>
    requires { IsTrue (is_lower_word script.prefix.now) }
    ensures { IfOk result (λ _. page.new ≡ page.old
        ++ shown_text (formula_tree (script_in script.entry) layout.now (line_name number) step.now)) }
{
    match step {
        Step::Input(place) => push_input_at(alloc, page, script, number, u64::from(*place)),
        Step::Negate(place) => push_negate_at(alloc, page, script, layout, number, *place),
        _ => Ok(()),
    }
}

/// Adds the line that is written for a line of a derivation.
fn push_line(
    alloc: Global,
    page: &mut Page,
    script: Script<'_>,
    layout: &Layout,
    number: u64,
    line: &Line,
) -> Mem<()>
    requires { IsTrue (is_lower_word script.prefix.now) }
    ensures { IfOk result (λ _. page.new ≡ page.old
        ++ shown_text (line_tree (script_in script.entry) layout.now (line_name number) line.now)) }
{
    if line.step.is_clause_step() {
        push_clause_line(page, script, layout, number, line)
    } else {
        push_formula_line(alloc, page, script, layout, number, &line.step)
    }
}

/// Adds the lines of the formulas that are cited.
fn push_cited(alloc: Global, page: &mut Page, script: Script<'_>, layout: &Layout) -> Mem<()>
    ensures { IfOk result (λ _. page.new ≡ page.old ++ shown_texts (cited_tree (script_in script.entry) layout.now) layout.now.cited) }
{
    for place in layout.cited() {
        push_input_at(alloc, page, script, layout.cited_line(*place), *place)?;
    }
    Ok(())
}

/// Adds the lines that are written for lines of a derivation.
fn push_derived(
    alloc: Global,
    page: &mut Page,
    script: Script<'_>,
    layout: &Layout,
    lines: &[Line],
) -> Mem<()>
    requires { IsTrue (is_lower_word script.prefix.now) }
    ensures { IfOk result (λ _. page.new ≡ page.old
        ++ shown_texts (derived_tree (script_in script.entry) layout.now lines.now) layout.now.numbers) }
{
    for number in layout.numbers() {
        push_derived_at(alloc, page, script, layout, lines, *number)?;
    }
    Ok(())
}

/// Adds the line that is written for the line of a derivation with that number, where there is one.
fn push_derived_at(
    alloc: Global,
    page: &mut Page,
    script: Script<'_>,
    layout: &Layout,
    lines: &[Line],
    number: u64,
) -> Mem<()>
    requires { IsTrue (is_lower_word script.prefix.now) }
    ensures { IfOk result (λ _. page.new ≡ page.old
        ++ shown_text (derived_tree (script_in script.entry) layout.now lines.now number)) }
{
    match lines.get(number as usize) {
        Some(line) => push_line(
            alloc,
            page,
            script,
            layout,
            layout.derived_line(number),
            line,
        ),
        None => Ok(()),
    }
}

/// Adds the line of the negation of a formula that is cited.
fn push_negated_at(
    alloc: Global,
    page: &mut Page,
    script: Script<'_>,
    layout: &Layout,
    place: u64,
) -> Mem<()>
    requires lower { IsTrue (is_lower_word script.prefix.now) }
    requires few { length script.formulas.now ≤ 2 ^ 32 }
    ensures { IfOk result (λ _. page.new ≡ page.old ++ shown_text (negated_tree (script_in script.entry) layout.now place)) }
{
    match script.formulas.get(place as usize) {
        Some(annotated) => push_negate(
            alloc,
            page,
            script,
            layout,
            layout.negated_line(place),
            place as u32,
            annotated,
        ),
        None => Ok(()),
    }
}

/// Adds the lines of the negations.
fn push_negated(alloc: Global, page: &mut Page, script: Script<'_>, layout: &Layout) -> Mem<()>
    requires lower { IsTrue (is_lower_word script.prefix.now) }
    requires few { length script.formulas.now ≤ 2 ^ 32 }
    ensures { IfOk result (λ _. page.new ≡ page.old ++ shown_texts (negated_tree (script_in script.entry) layout.now) layout.now.negated) }
{
    for place in layout.negated() {
        push_negated_at(alloc, page, script, layout, *place)?;
    }
    Ok(())
}

/// Adds the lines of a layout: the formulas that are cited, their negations, and the lines of the derivation.
pub(crate) fn push_lines(
    alloc: Global,
    page: &mut Page,
    script: Script<'_>,
    layout: &Layout,
    lines: &[Line],
) -> Mem<()>
    requires lower { IsTrue (is_lower_word script.prefix.now) }
    requires few { length script.formulas.now ≤ 2 ^ 32 }
    ensures { IfOk result (λ _. page.new ≡ page.old ++ lines_text (laid_out_trees (script_in script.entry) layout.now lines.now)) }
{
    push_cited(alloc, page, script, layout)?;
    push_negated(alloc, page, script, layout)?;
    push_derived(alloc, page, script, layout, lines)
}
