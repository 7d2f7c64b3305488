// How the lines of a derivation are printed.

ghost use Rattle.std.specs.Prelude.{◌≡◌, ◌++◌, codes, not, IfOk, OnErr, IsTrue};
ghost use Rattle.fol_base.specs.Literal.{clause_of};
ghost use Rattle.tptp_token.specs.Spelling.{is_lower_word};
ghost use Rattle.tptp_tree.specs.Entries.{language_word, role_word};
ghost use Rattle.tptp_tree.specs.Formula.{negation};
ghost use Rattle.tptp_tree.specs.Printing.{formula_text};
ghost use Rattle.tptp_tree.specs.Shape.{formula_of, entry_of};
ghost use Rattle.tptp_source.specs.Sources.{file_source};
ghost use Rattle.tstp_writer.specs.SourceTexts.{general_text, name_term, source_text};
ghost use Rattle.tstp_writer.specs.LineTexts.{formula_name_text, line_text};
ghost use Rattle.tstp_writer.specs.LineTrees.{line_name, named, input_tree, negate_tree, clause_tree, step_source};
ghost use Rattle.tstp_writer.specs.NameTexts.{head_text};
ghost use Rattle.tstp_writer.specs.Scripts.{script_in};

use crate::clauses::push_whole_clause;
use crate::layout::{Layout, push_line_name};
use crate::page::Page;
use crate::script::Script;
use crate::sources::push_source;
use kernel_steps::{Line, Step};
use plain_types::Mem;
use std::alloc::Global;
use tptp_tree::{Annotated, Formula, Role, is_bare, print_formula};

/// Adds an annotated formula up to its role.
fn push_head(page: &mut Page, clause: bool, number: u64, role: Role) -> Mem<()>
    ensures { IfOk result (λ _. page.new ≡ page.old ++ head_text (language_word clause) (line_name number) (role_word role)) }
{
    page.bytes(if clause { b"cnf" } else { b"fof" })?;
    page.bytes(b"(")?;
    push_line_name(page, number)?;
    page.bytes(b",")?;
    page.bytes(role.word())?;
    page.bytes(b",")
}

/// Adds a formula's name: bare where it is a lower word or of digits alone, else quoted. Out of memory, nothing is added.
pub fn push_formula_name(page: &mut Page, name: &[u8]) -> Mem<()>
    ensures added { IfOk result (λ _. page.new ≡ page.old ++ formula_name_text name.now) }
    ensures unchanged { OnErr result (page.new ≡ page.old) }
{
    page.formula_name(name)
}

/// Adds the term that a formula's name is.
fn push_name_term(page: &mut Page, name: &[u8]) -> Mem<()>
    ensures { IfOk result (λ _. page.new ≡ page.old ++ general_text (name_term name.now)) }
{
    page.formula_name(name)
}

/// Adds the source of a formula of a file.
fn push_file_source(page: &mut Page, file: &[u8], name: &[u8]) -> Mem<()>
    ensures { IfOk result (λ _. page.new ≡ page.old ++ source_text (file_source (named file.now) name.now)) }
{
    page.bytes(b"file(")?;
    page.name(file)?;
    page.bytes(b",")?;
    push_name_term(page, name)?;
    page.bytes(b")")
}

/// Adds the formula of an annotated formula.
fn push_formula(alloc: Global, page: &mut Page, formula: &Formula) -> Mem<()>
    ensures { IfOk result (λ _. page.new ≡ page.old ++ formula_text (formula_of formula.now)) }
{
    let text = print_formula(alloc, formula)?;
    page.bytes(text.as_slice())
}

/// Adds the negation of a formula.
fn push_negation(alloc: Global, page: &mut Page, formula: &Formula) -> Mem<()>
    ensures { IfOk result (λ _. page.new ≡ page.old ++ formula_text (negation (formula_of formula.now))) }
{
    if is_bare(formula) {
        page.bytes(b"~")?;
        return push_formula(alloc, page, formula);
    }
    page.bytes(b"~(")?;
    push_formula(alloc, page, formula)?;
    page.bytes(b")")
}

/// Adds the line of a formula of the problem.
pub(crate) fn push_input(
    alloc: Global,
    page: &mut Page,
    script: Script<'_>,
    number: u64,
    annotated: &Annotated,
) -> Mem<()>
    ensures { IfOk result (λ _. page.new ≡ page.old
        ++ line_text (input_tree (script_in script.entry) (line_name number) (entry_of annotated.now))) }
{
    push_head(page, annotated.clause, number, annotated.role)?;
    push_formula(alloc, page, &annotated.formula)?;
    page.bytes(b",")?;
    push_file_source(page, script.file, annotated.name.as_slice())?;
    page.bytes(b").\n")
}

/// Adds the line of a formula's negation.
pub(crate) fn push_negate(
    alloc: Global,
    page: &mut Page,
    script: Script<'_>,
    layout: &Layout,
    number: u64,
    place: u32,
    annotated: &Annotated,
) -> Mem<()>
    requires { IsTrue (is_lower_word script.prefix.now) }
    ensures { IfOk result (λ _. page.new ≡ page.old
        ++ line_text (negate_tree (script_in script.entry) layout.now (line_name number) place (entry_of annotated.now))) }
{
    push_head(page, false, number, Role::NegatedConjecture)?;
    push_negation(alloc, page, &annotated.formula)?;
    page.bytes(b",")?;
    push_source(page, script, layout, &Step::Negate(place))?;
    page.bytes(b").\n")
}

/// Adds the line of a clause.
pub(crate) fn push_clause_line(
    page: &mut Page,
    script: Script<'_>,
    layout: &Layout,
    number: u64,
    line: &Line,
) -> Mem<()>
    requires { IsTrue (is_lower_word script.prefix.now) }
    ensures { IfOk result (λ _. page.new ≡ page.old
        ++ line_text (clause_tree (script_in script.entry) (line_name number) (clause_of line.now.clause)
        (step_source (script_in script.entry) layout.now line.now.step))) }
{
    push_head(page, true, number, Role::Plain)?;
    push_whole_clause(
        page,
        script.symbols,
        script.prefix,
        &line.clause.literals,
        line.clause.names.as_slice(),
    )?;
    page.bytes(b",")?;
    push_source(page, script, layout, &line.step)?;
    page.bytes(b").\n")
}
