// The source of a line, as the checker judges it.

ghost use Rattle.std.specs.Prelude.{◌≡◌, ◌∷◌, [], codes, IfOk, is_some, map, option_and_then};
ghost use Rattle.tptp_source.specs.Shape.{tree_of as general_of};
ghost use Rattle.tptp_source.specs.SourceShape.{source_of};
ghost use Rattle.clausal_form.specs.DerivationItems.{only_one, plain_word, row_arguments};
ghost use Rattle.clausal_form.specs.DerivationSteps.{bindings_count, of_number};
ghost use Rattle.clausal_form.specs.DerivationParts.{parent_names, items_of};
ghost use Rattle.tstp_lines.specs.Steps.{kind_meant};
ghost use Rattle.tstp_lines.specs.Items.{terms_lent};
ghost use Rattle.tstp_lines.specs.Sources.{bound_items};

use crate::items::{ItemWord, only_number, row_arguments};
use crate::steps::Kind;
use plain_types::{Mem, Text};
use std::alloc::Global;
use tptp_source::{GeneralTerm, Source};

/// The names of the parents of an inference.
pub fn parent_names(source: &Source) -> &[Text]
    ensures { result.now ≡ parent_names (source_of source.now) }
{
    match source {
        Source::Inference { parents, .. } => parents.as_slice(),
        _ => &[],
    }
}

/// The items of an inference.
pub fn items_of(source: &Source) -> &[GeneralTerm]
    ensures { map general_of result.now ≡ items_of (source_of source.now) }
{
    match source {
        Source::Inference { items, .. } => items.as_slice(),
        _ => &[],
    }
}

/// The items of an inference by a rule that binds, and else none.
pub fn bound_items<'a>(kind: Kind<'_>, source: &'a Source) -> &'a [GeneralTerm]
    ensures { map general_of result.now ≡ bound_items (kind_meant kind.entry) (source_of source.now) }
{
    if bindings_count(kind) == 0 {
        return &[];
    }
    items_of(source)
}

/// The number of parents whose variables a rule binds.
pub fn bindings_count(kind: Kind<'_>) -> usize
    ensures { result ≡ bindings_count (kind_meant kind.entry) }
{
    match kind {
        Kind::Para => 2,
        Kind::Refl | Kind::Factor | Kind::Merge => 1,
        _ => 0,
    }
}

/// Whether a general term is a word without arguments.
pub fn is_plain_word(term: &GeneralTerm) -> bool
    ensures { result ≡ is_some (plain_word (general_of term.now)) }
{
    match term {
        GeneralTerm::Word(_, arguments) => arguments.is_empty(),
        _ => false,
    }
}

/// The number of the clause that the items of a clausify line name.
pub fn clause_number(alloc: Global, items: &[GeneralTerm]) -> Mem<Option<u64>>
    ensures { IfOk result (λ number. number ≡ option_and_then of_number
        (option_and_then only_one (row_arguments (codes "esa") (codes "index" ∷ []) (map general_of items.now)))) }
{
    let words = [ItemWord::Index];
    match row_arguments(alloc, b"esa", &words, items)? {
        Some(row) => Ok(number_in(row.as_slice())),
        None => Ok(None),
    }
}

/// The number that is the only argument of the only item of a row.
fn number_in(row: &[&[GeneralTerm]]) -> Option<u64>
    ensures { result ≡ option_and_then of_number (only_one (map terms_lent row.now)) }
{
    match row {
        [terms] => only_number(terms),
        _ => None,
    }
}
