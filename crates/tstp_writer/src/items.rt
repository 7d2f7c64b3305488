// How the items of an inference are printed, each after a comma.

ghost use Rattle.std.specs.Prelude.{◌≡◌, ◌++◌, [], ◌∷◌, codes, map, IfOk, OnErr, IsTrue};
ghost use Rattle.std.specs.Fmt.{decimal};
ghost use Rattle.fol_base.specs.Term.{tree_of};
ghost use Rattle.kernel_steps.specs.Keys.{side_word, commas_before, with_commas};
ghost use Rattle.tptp_tree.specs.Printing.{term_text};
ghost use Rattle.tptp_token.specs.Spelling.{is_lower_word};
ghost use Rattle.tptp_source.specs.General.{trees_of};
ghost use Rattle.tptp_source.specs.Sources.{word_of, list_of};
ghost use Rattle.tstp_writer.specs.SourceTexts.{general_text, items_text, more_text};
ghost use Rattle.tstp_writer.specs.ClauseTrees.{term_tree};
ghost use Rattle.tstp_writer.specs.LineTrees.{number_item, numbers_item, side_item, bind_item, literal_item, side_of_literal_item, from_item, into_item, pivot_item};
ghost use Rattle.tstp_writer.specs.NameTexts.{signed_name_text};

use crate::clauses::{push_signed_name, push_term};
use crate::page::Page;
use fol_base::{Side, Term};
use plain_types::{Mem, NameLit, Numbers};
use signature::Symbol;

/// Adds the word for a side.
fn push_side(page: &mut Page, side: Side) -> Mem<()>
    ensures { IfOk result (λ _. page.new ≡ page.old ++ side_word side) }
{
    match side {
        Side::Left => page.bytes(b"left"),
        Side::Right => page.bytes(b"right"),
    }
}

/// Adds a literal's number and the word for a side of it, with a comma between them. Out of memory, nothing is added.
pub fn push_chosen(page: &mut Page, index: u64, side: Side) -> Mem<()>
    ensures added { IfOk result (λ _. page.new ≡ page.old ++ (decimal index ++ codes "," ++ side_word side)) }
    ensures unchanged { OnErr result (page.new ≡ page.old) }
{
    let mut part = page.part();
    push_index_and_side(&mut part, index, side)?;
    page.bytes(part.as_slice())
}

/// Adds them. Out of memory, a part may have been added.
fn push_index_and_side(page: &mut Page, index: u64, side: Side) -> Mem<()>
    ensures { IfOk result (λ _. page.new ≡ page.old ++ (decimal index ++ codes "," ++ side_word side)) }
{
    page.number(index)?;
    page.bytes(b",")?;
    push_side(page, side)
}

/// Adds numbers with a comma between two of them, and the closing bracket.
fn push_numbers(page: &mut Page, numbers: &[u64]) -> Mem<()>
    ensures { IfOk result (λ _. page.new ≡ page.old ++ items_text (trees_of (map number_item numbers.now))) }
{
    match numbers.split_first() {
        None => page.bytes(b"]"),
        Some((first, rest)) => {
            page.number(*first)?;
            push_more_numbers(page, rest)
        }
    }
}

/// Adds the numbers from the second on, and the closing bracket.
fn push_more_numbers(page: &mut Page, numbers: &[u64]) -> Mem<()>
    ensures { IfOk result (λ _. page.new ≡ page.old ++ more_text (codes "]") (trees_of (map number_item numbers.now))) }
{
    for number in numbers {
        page.bytes(b",")?;
        page.number(*number)?;
    }
    page.bytes(b"]")
}

/// Adds terms with a comma between two of them.
fn push_terms(page: &mut Page, symbols: &[Symbol], terms: &[Term]) -> Mem<()>
    ensures { IfOk result (λ _. page.new ≡ page.old ++ with_commas (map (λ t. term_text (term_tree symbols.now t)) (map tree_of terms.now))) }
{
    match terms.split_first() {
        None => Ok(()),
        Some((first, rest)) => {
            push_term(page, symbols, first)?;
            push_more_terms(page, symbols, rest)
        }
    }
}

/// Adds the terms from the second on.
fn push_more_terms(page: &mut Page, symbols: &[Symbol], terms: &[Term]) -> Mem<()>
    ensures { IfOk result (λ _. page.new ≡ page.old ++ commas_before (map (λ t. term_text (term_tree symbols.now t)) (map tree_of terms.now))) }
{
    for term in terms {
        page.bytes(b",")?;
        push_term(page, symbols, term)?;
    }
    Ok(())
}

/// Adds what binds a parent's variables.
pub(crate) fn push_bind(page: &mut Page, symbols: &[Symbol], terms: &[Term]) -> Mem<()>
    ensures { IfOk result (λ _. page.new ≡ page.old ++ (codes "," ++ general_text (bind_item symbols.now (map tree_of terms.now)))) }
{
    page.bytes(b",bind([")?;
    push_terms(page, symbols, terms)?;
    page.bytes(b"])")
}

/// Adds the number of a clause of the form.
pub(crate) fn push_index(page: &mut Page, index: u64) -> Mem<()>
    ensures { IfOk result (λ _. page.new ≡ page.old ++ (codes "," ++ general_text (word_of (codes "index") (number_item index ∷ [])))) }
{
    page.bytes(b",index(")?;
    page.number(index)?;
    page.bytes(b")")
}

/// Adds a literal.
pub(crate) fn push_literal_item(page: &mut Page, index: u64) -> Mem<()>
    ensures { IfOk result (λ _. page.new ≡ page.old ++ (codes "," ++ general_text (literal_item index))) }
{
    page.bytes(b",lit(")?;
    page.number(index)?;
    page.bytes(b")")
}

/// Adds a literal and a side of it.
pub(crate) fn push_side_of_literal(page: &mut Page, index: u64, side: Side) -> Mem<()>
    ensures { IfOk result (λ _. page.new ≡ page.old ++ (codes "," ++ general_text (side_of_literal_item index side))) }
{
    page.bytes(b",lit(")?;
    push_index_and_side(page, index, side)?;
    page.bytes(b")")
}

/// Adds the side that is replaced, and by what.
pub(crate) fn push_from(page: &mut Page, index: u64, side: Side) -> Mem<()>
    ensures { IfOk result (λ _. page.new ≡ page.old ++ (codes "," ++ general_text (from_item index side))) }
{
    page.bytes(b",from(")?;
    push_index_and_side(page, index, side)?;
    page.bytes(b")")
}

/// Adds the place at which it is replaced.
pub(crate) fn push_into(page: &mut Page, index: u64, side: Side, place: &[u64]) -> Mem<()>
    ensures { IfOk result (λ _. page.new ≡ page.old ++ (codes "," ++ general_text (into_item index side place.now))) }
{
    page.bytes(b",into(")?;
    push_index_and_side(page, index, side)?;
    page.bytes(b",[")?;
    push_numbers(page, place)?;
    page.bytes(b")")
}

/// Adds the parts of a split.
pub(crate) fn push_parts(page: &mut Page, parts: &[Numbers]) -> Mem<()>
    ensures { IfOk result (λ _. page.new ≡ page.old
        ++ (codes "," ++ general_text (word_of (codes "parts") (list_of (map numbers_item parts.now) ∷ [])))) }
{
    page.bytes(b",parts([")?;
    push_parts_list(page, parts)?;
    page.bytes(b")")
}

/// Adds parts, each between brackets, with a comma between two of them, and the closing bracket.
fn push_parts_list(page: &mut Page, parts: &[Numbers]) -> Mem<()>
    ensures { IfOk result (λ _. page.new ≡ page.old ++ items_text (trees_of (map numbers_item parts.now))) }
{
    match parts.split_first() {
        None => page.bytes(b"]"),
        Some((first, rest)) => {
            page.bytes(b"[")?;
            push_numbers(page, first.as_slice())?;
            push_more_parts(page, rest)
        }
    }
}

/// Adds the parts from the second on, and the closing bracket.
fn push_more_parts(page: &mut Page, parts: &[Numbers]) -> Mem<()>
    ensures { IfOk result (λ _. page.new ≡ page.old ++ more_text (codes "]") (trees_of (map numbers_item parts.now))) }
{
    for part in parts {
        page.bytes(b",[")?;
        push_numbers(page, part.as_slice())?;
    }
    page.bytes(b"]")
}

/// Adds the pivots of a chain.
pub(crate) fn push_pivots(page: &mut Page, prefix: &[u8], pivots: &[NameLit]) -> Mem<()>
    requires { IsTrue (is_lower_word prefix.now) }
    ensures { IfOk result (λ _. page.new ≡ page.old
        ++ (codes "," ++ general_text (word_of (codes "pivots") (list_of (map (pivot_item prefix.now) pivots.now) ∷ [])))) }
{
    page.bytes(b",pivots([")?;
    push_signed_names(page, prefix, pivots)?;
    page.bytes(b"])")
}

/// Adds signed names with a comma between two of them.
fn push_signed_names(page: &mut Page, prefix: &[u8], names: &[NameLit]) -> Mem<()>
    ensures { IfOk result (λ _. page.new ≡ page.old ++ with_commas (map (signed_name_text prefix.now) names.now)) }
{
    match names.split_first() {
        None => Ok(()),
        Some((first, rest)) => {
            push_signed_name(page, prefix, *first)?;
            push_more_pivots(page, prefix, rest)
        }
    }
}

/// Adds the signed names from the second on.
fn push_more_pivots(page: &mut Page, prefix: &[u8], pivots: &[NameLit]) -> Mem<()>
    ensures { IfOk result (λ _. page.new ≡ page.old ++ commas_before (map (signed_name_text prefix.now) pivots.now)) }
{
    for pivot in pivots {
        page.bytes(b",")?;
        push_signed_name(page, prefix, *pivot)?;
    }
    Ok(())
}
