// Names of inferences, as texts.

ghost use Rattle.std.specs.Prelude.{◌≡◌, ◌++◌, codes, map, IfOk};
ghost use Rattle.std.specs.Fmt.{decimal};
ghost use Rattle.kernel_steps.specs.Keys.{side_word, commas_before, with_commas, place_text, key_text};

use fol_base::{Position, Side};
use kernel_steps::Key;
use plain_types::{Mem, Text};
use std::alloc::Global;
use tstp_writer::{Page, push_chosen};

/// The text of an inference's name, as `para(3,0,left,5,1,right,[0,1])`, `refl(3,0)` or `factor(3,0,left,1,left)`. A clause that was
/// replaced is no inference: its name has no text.
pub fn write_key(alloc: Global, key: &Key) -> Mem<Text>
    ensures { IfOk result (λ text. text ≡ key_text key.now) }
{
    let mut page = Page::new(alloc);
    push_key(&mut page, key)?;
    Ok(page.into_text())
}

/// Adds the text of an inference's name.
fn push_key(page: &mut Page, key: &Key) -> Mem<()>
    ensures { IfOk result (λ _. page.new ≡ page.old ++ key_text key.now) }
{
    match key {
        Key::Para {
            first,
            from,
            from_side,
            second,
            into,
            into_side,
            place,
        } => {
            page.bytes(b"para(")?;
            push_clause_side(page, *first, *from, *from_side)?;
            page.bytes(b",")?;
            push_clause_side(page, *second, *into, *into_side)?;
            page.bytes(b",")?;
            push_place(page, place)?;
            page.bytes(b")")
        }
        Key::Refl { clause, literal } => {
            page.bytes(b"refl(")?;
            push_literal(page, *clause, *literal)?;
            page.bytes(b")")
        }
        Key::Factor {
            clause,
            becomes,
            becomes_side,
            other,
            other_side,
        } => {
            page.bytes(b"factor(")?;
            push_clause_side(page, *clause, *becomes, *becomes_side)?;
            page.bytes(b",")?;
            push_chosen(page, *other, *other_side)?;
            page.bytes(b")")
        }
        Key::Replaced(_) => Ok(()),
    }
}

/// Adds the numbers of a clause and of a literal of it, and a side of that.
fn push_clause_side(page: &mut Page, clause: u32, literal: u64, side: Side) -> Mem<()>
    ensures { IfOk result (λ _. page.new ≡ page.old
        ++ (decimal clause ++ codes "," ++ decimal literal ++ codes "," ++ side_word side)) }
{
    page.number(u64::from(clause))?;
    page.bytes(b",")?;
    push_chosen(page, literal, side)
}

/// Adds the numbers of a clause and of a literal of it.
fn push_literal(page: &mut Page, clause: u32, literal: u64) -> Mem<()>
    ensures { IfOk result (λ _. page.new ≡ page.old ++ (decimal clause ++ codes "," ++ decimal literal)) }
{
    page.number(u64::from(clause))?;
    page.bytes(b",")?;
    page.number(literal)
}

/// Adds a place between brackets.
fn push_place(page: &mut Page, place: &Position) -> Mem<()>
    ensures { IfOk result (λ _. page.new ≡ page.old ++ place_text place.now) }
{
    page.bytes(b"[")?;
    push_numbers(page, place.as_slice())?;
    page.bytes(b"]")
}

/// Adds numbers with a comma between two of them.
fn push_numbers(page: &mut Page, numbers: &[u64]) -> Mem<()>
    ensures { IfOk result (λ _. page.new ≡ page.old ++ with_commas (map decimal numbers.now)) }
{
    match numbers.split_first() {
        None => Ok(()),
        Some((first, rest)) => {
            page.number(*first)?;
            push_more_numbers(page, rest)
        }
    }
}

/// Adds numbers, each after a comma.
fn push_more_numbers(page: &mut Page, numbers: &[u64]) -> Mem<()>
    ensures { IfOk result (λ _. page.new ≡ page.old ++ commas_before (map decimal numbers.now)) }
{
    for number in numbers {
        page.bytes(b",")?;
        page.number(*number)?;
    }
    Ok(())
}
