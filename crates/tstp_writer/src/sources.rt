// How the sources of lines are printed: inferences and definitions of names.

ghost use Rattle.std.specs.Prelude.{◌≡◌, ◌++◌, codes, map, IfOk, IsTrue};
ghost use Rattle.tptp_token.specs.Spelling.{is_lower_word};
ghost use Rattle.kernel_steps.specs.Keys.{commas_before, with_commas};
ghost use Rattle.tstp_writer.specs.SourceTexts.{source_text};
ghost use Rattle.tstp_writer.specs.ClauseTrees.{introduced_name};
ghost use Rattle.tstp_writer.specs.LineTrees.{derived_name, origin, origin_name, is_conjecture_at, rule_word as word_of_rule, status_word as word_of_status, step_items, parent_names, step_source};
ghost use Rattle.tstp_writer.specs.NameTexts.{more_items_text, definition_text, introduction_text, inference_text};
ghost use Rattle.tstp_writer.specs.Scripts.{script_in};

use crate::clauses::push_introduced_name;
use crate::items::{
    push_bind, push_from, push_index, push_into, push_literal_item, push_parts, push_pivots,
    push_side_of_literal,
};
use crate::layout::{Layout, push_cited_name, push_derived_name, push_negated_name};
use crate::page::Page;
use crate::script::Script;
use kernel_steps::Step;
use plain_types::Mem;

/// The rule of a step's inference.
fn rule_word(step: &Step) -> &'static [u8]
    ensures { result.now ≡ word_of_rule step.now }
{
    match step {
        Step::Negate(_) => b"negate",
        Step::Clausify(_) => b"clausify",
        Step::Para { .. } => b"para",
        Step::Refl { .. } => b"refl",
        Step::Factor { .. } => b"factor",
        Step::Merge { .. } => b"merge",
        Step::Split { .. } => b"split",
        Step::Chain { .. } => b"chain",
        Step::Input(_) => b"input",
        Step::Component(_) => b"component",
        Step::Opposite(_) => b"opposite",
    }
}

/// The status of a step's inference.
fn status_word(step: &Step) -> &'static [u8]
    ensures { result.now ≡ word_of_status step.now }
{
    match step {
        Step::Negate(_) => b"cth",
        Step::Clausify(_) | Step::Split { .. } => b"esa",
        _ => b"thm",
    }
}

/// Adds the items of a step's inference after its status.
fn push_items(page: &mut Page, script: Script<'_>, step: &Step) -> Mem<()>
    requires { IsTrue (is_lower_word script.prefix.now) }
    ensures { IfOk result (λ _. page.new ≡ page.old ++ more_items_text (step_items (script_in script.entry) step.now)) }
{
    match step {
        Step::Clausify(index) => push_index(page, *index),
        Step::Para {
            from,
            from_side,
            into,
            into_side,
            place,
            first_bind,
            second_bind,
            ..
        } => {
            push_from(page, *from, *from_side)?;
            push_into(page, *into, *into_side, place.as_slice())?;
            push_bind(page, script.symbols, first_bind.as_slice())?;
            push_bind(page, script.symbols, second_bind.as_slice())
        }
        Step::Refl { literal, bind, .. } => {
            push_literal_item(page, *literal)?;
            push_bind(page, script.symbols, bind.as_slice())
        }
        Step::Factor {
            becomes,
            becomes_side,
            other,
            other_side,
            bind,
            ..
        } => {
            push_side_of_literal(page, *becomes, *becomes_side)?;
            push_side_of_literal(page, *other, *other_side)?;
            push_bind(page, script.symbols, bind.as_slice())
        }
        Step::Merge {
            stays,
            goes,
            bind,
            ..
        } => {
            push_literal_item(page, *stays)?;
            push_literal_item(page, *goes)?;
            push_bind(page, script.symbols, bind.as_slice())
        }
        Step::Split { parts, .. } => push_parts(page, parts.as_slice()),
        Step::Chain { pivots, .. } => push_pivots(page, script.prefix, pivots.as_slice()),
        Step::Input(_) | Step::Negate(_) | Step::Component(_) | Step::Opposite(_) => Ok(()),
    }
}

/// Adds the names of a step's parents, with a comma between two of them.
fn push_parents(page: &mut Page, script: Script<'_>, layout: &Layout, step: &Step) -> Mem<()>
    ensures { IfOk result (λ _. page.new ≡ page.old ++ with_commas (parent_names (script_in script.entry) layout.now step.now)) }
{
    match step {
        Step::Negate(place) => push_cited_name(page, layout, u64::from(*place)),
        Step::Clausify(index) => push_origin_name(page, script, layout, *index),
        Step::Para { first, second, .. } => {
            push_derived_name(page, layout, *first)?;
            push_more_parents(page, layout, &[*second])
        }
        Step::Refl { parent, .. } | Step::Factor { parent, .. } | Step::Merge { parent, .. } => {
            push_derived_name(page, layout, *parent)
        }
        Step::Split {
            parent,
            definitions,
            ..
        } => {
            push_derived_name(page, layout, *parent)?;
            push_more_parents(page, layout, definitions.as_slice())
        }
        Step::Chain { parents, .. } => push_all_parents(page, layout, parents.as_slice()),
        Step::Input(_) | Step::Component(_) | Step::Opposite(_) => Ok(()),
    }
}

/// Adds the names of lines, with a comma between two of them.
fn push_all_parents(page: &mut Page, layout: &Layout, parents: &[u64]) -> Mem<()>
    ensures { IfOk result (λ _. page.new ≡ page.old ++ with_commas (map (derived_name layout.now) parents.now)) }
{
    match parents.split_first() {
        None => Ok(()),
        Some((first, rest)) => {
            push_derived_name(page, layout, *first)?;
            push_more_parents(page, layout, rest)
        }
    }
}

/// Adds the names of lines, each after a comma.
fn push_more_parents(page: &mut Page, layout: &Layout, parents: &[u64]) -> Mem<()>
    ensures { IfOk result (λ _. page.new ≡ page.old ++ commas_before (map (derived_name layout.now) parents.now)) }
{
    for parent in parents {
        push_next_parent(page, layout, *parent)?;
    }
    Ok(())
}

/// Adds the name of a line after a comma.
fn push_next_parent(page: &mut Page, layout: &Layout, parent: u64) -> Mem<()>
    ensures { IfOk result (λ _. page.new ≡ page.old ++ (codes "," ++ derived_name layout.now parent)) }
{
    page.bytes(b",")?;
    push_derived_name(page, layout, parent)
}

/// Adds the name of the line from which a clause of the form comes.
fn push_origin_name(page: &mut Page, script: Script<'_>, layout: &Layout, index: u64) -> Mem<()>
    ensures { IfOk result (λ _. page.new ≡ page.old
        ++ origin_name (script_in script.entry) layout.now (origin (script_in script.entry) index)) }
{
    let place = script.origin(index);
    if script.is_conjecture(place) {
        push_negated_name(page, layout, place)
    } else {
        push_cited_name(page, layout, place)
    }
}

/// Adds an inference, by the columns of its step's row.
fn push_inference(page: &mut Page, script: Script<'_>, layout: &Layout, step: &Step) -> Mem<()>
    requires { IsTrue (is_lower_word script.prefix.now) }
    ensures { IfOk result (λ _. page.new ≡ page.old
        ++ inference_text (word_of_rule step.now) (word_of_status step.now) (step_items (script_in script.entry) step.now)
        (parent_names (script_in script.entry) layout.now step.now)) }
{
    page.bytes(b"inference(")?;
    page.bytes(rule_word(step))?;
    page.bytes(b",[status(")?;
    page.bytes(status_word(step))?;
    page.bytes(b")")?;
    push_items(page, script, step)?;
    page.bytes(b"],[")?;
    push_parents(page, script, layout, step)?;
    page.bytes(b"])")
}

/// Adds a part of the definition of a name.
fn push_definition(page: &mut Page, way: &[u8], prefix: &[u8], name: u32) -> Mem<()>
    ensures { IfOk result (λ _. page.new ≡ page.old ++ definition_text way.now (introduced_name prefix.now name)) }
{
    page.bytes(b"introduced(definition,[")?;
    page.bytes(way)?;
    page.bytes(b"(")?;
    push_introduced_name(page, prefix, name)?;
    page.bytes(b")])")
}

/// Adds the definition of the name that a step introduces.
fn push_introduction(page: &mut Page, prefix: &[u8], step: &Step) -> Mem<()>
    ensures { IfOk result (λ _. page.new ≡ page.old ++ introduction_text prefix.now step.now) }
{
    match step {
        Step::Component(name) => push_definition(page, b"component", prefix, *name),
        Step::Opposite(name) => push_definition(page, b"opposite", prefix, *name),
        _ => Ok(()),
    }
}

/// Adds the source of a step's line.
pub(crate) fn push_source(
    page: &mut Page,
    script: Script<'_>,
    layout: &Layout,
    step: &Step,
) -> Mem<()>
    requires { IsTrue (is_lower_word script.prefix.now) }
    ensures { IfOk result (λ _. page.new ≡ page.old ++ source_text (step_source (script_in script.entry) layout.now step.now)) }
{
    if step.introduces_name() {
        push_introduction(page, script.prefix, step)
    } else {
        push_inference(page, script, layout, step)
    }
}
