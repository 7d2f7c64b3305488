// The steps that the sources of lines name.

ghost use Rattle.std.specs.Prelude.{◌≡◌, ◌∷◌, [], IfOk, map, option_map, option_and_then};
ghost use Rattle.tptp_source.specs.Shape.{tree_of as general_of};
ghost use Rattle.tptp_source.specs.SourceShape.{source_of};
ghost use Rattle.tptp_source.specs.TermSources.{items_in};
ghost use Rattle.kernel_steps.specs.Parents.{all_there};
ghost use Rattle.clausal_form.specs.DerivationItems.{only_one, list_in, numbers_in, introduced_in};
ghost use Rattle.clausal_form.specs.DerivationSteps.{para_kind, refl_kind, factor_kind, merge_kind, split_kind, chain_kind, rule_kind, kind_of, para_step, refl_step, factor_step, merge_step, split_step, chain_step, rule_step};
ghost use Rattle.tstp_lines.specs.Items.{terms_lent};
ghost use Rattle.tstp_lines.specs.Steps.{kind_meant, bound_terms, two_of};

use crate::bindings::{Bindings, list_at, only_one};
use crate::items::{
    ItemWord, LiteralPlace, into_literal, is_plain, numbers_in, of_literal, only_number,
    row_arguments,
};
use crate::names::NameTable;
use fol_base::Terms;
use kernel_steps::Step;
use plain_types::{Mem, NameLit, Names, Numbers, Parts};
use std::alloc::Global;
use tptp_source::{GeneralTerm, Source, signed_name_of};

/// The kinds of lines, by their sources.
#[derive(Clone, Copy)]
pub enum Kind<'a> {
    Input,
    Negate,
    Clausify,
    Para,
    Refl,
    Factor,
    Merge,
    /// The definition of a name.
    Component(&'a [u8]),
    /// The other half of the definition of a name.
    Opposite(&'a [u8]),
    Split,
    Chain,
    /// An inference by no rule.
    NoRule,
}

/// The kind of a line with that source.
pub fn kind_of(source: &Source) -> Kind<'_>
    ensures { kind_meant result ≡ kind_of (source_of source.now) }
{
    match source {
        Source::File { .. } => Kind::Input,
        Source::Inference { rule, .. } => rule_kind(rule),
        Source::Component(name) => Kind::Component(name.as_slice()),
        Source::Opposite(name) => Kind::Opposite(name.as_slice()),
    }
}

/// The kind of a line with that rule.
fn rule_kind(rule: &GeneralTerm) -> Kind<'_>
    ensures { kind_meant result ≡ rule_kind (general_of rule.now) }
{
    if is_plain(b"negate", rule) {
        Kind::Negate
    } else if is_plain(b"clausify", rule) {
        Kind::Clausify
    } else if is_plain(b"para", rule) {
        Kind::Para
    } else if is_plain(b"refl", rule) {
        Kind::Refl
    } else if is_plain(b"factor", rule) {
        Kind::Factor
    } else if is_plain(b"merge", rule) {
        Kind::Merge
    } else if is_plain(b"split", rule) {
        Kind::Split
    } else if is_plain(b"chain", rule) {
        Kind::Chain
    } else {
        Kind::NoRule
    }
}

/// The step of a rule with parents, by a line's items, the numbers of its parents and the bindings; none if the rule has no such
/// row, or there is no such rule. A binding that can't be read counts as one without variables.
pub fn rule_step(
    alloc: Global,
    kind: Kind<'_>,
    names: &NameTable,
    items: &[GeneralTerm],
    parents: &[u64],
    binds: Bindings,
) -> Mem<Option<Step>>
    ensures { IfOk result (λ step. step
        ≡ rule_step (kind_meant kind.entry) names.now (map general_of items.now) parents.now (map bound_terms binds)) }
{
    match kind {
        Kind::Para => para_line(alloc, items, parents, binds),
        Kind::Refl => refl_line(alloc, items, parents, binds),
        Kind::Factor => factor_line(alloc, items, parents, binds),
        Kind::Merge => merge_line(alloc, items, parents, binds),
        Kind::Split => split_line(alloc, items, parents),
        Kind::Chain => chain_line(alloc, names, items, parents),
        _ => Ok(None),
    }
}

/// The step of a line by the rule `para`.
fn para_line(
    alloc: Global,
    items: &[GeneralTerm],
    parents: &[u64],
    binds: Bindings,
) -> Mem<Option<Step>>
    ensures { IfOk result (λ step. step ≡ rule_step para_kind [] (map general_of items.now) parents.now (map bound_terms binds)) }
{
    let words = [
        ItemWord::From,
        ItemWord::Into,
        ItemWord::Bind,
        ItemWord::Bind,
    ];
    match row_arguments(alloc, b"thm", &words, items)? {
        Some(row) => para_step(alloc, parents, binds, row.as_slice()),
        None => Ok(None),
    }
}

/// The step of a line by the rule `refl`.
fn refl_line(
    alloc: Global,
    items: &[GeneralTerm],
    parents: &[u64],
    binds: Bindings,
) -> Mem<Option<Step>>
    ensures { IfOk result (λ step. step ≡ rule_step refl_kind [] (map general_of items.now) parents.now (map bound_terms binds)) }
{
    let words = [ItemWord::Literal, ItemWord::Bind];
    match row_arguments(alloc, b"thm", &words, items)? {
        Some(row) => refl_step(alloc, parents, binds, row.as_slice()),
        None => Ok(None),
    }
}

/// The step of a line by the rule `factor`.
fn factor_line(
    alloc: Global,
    items: &[GeneralTerm],
    parents: &[u64],
    binds: Bindings,
) -> Mem<Option<Step>>
    ensures { IfOk result (λ step. step ≡ rule_step factor_kind [] (map general_of items.now) parents.now (map bound_terms binds)) }
{
    let words = [ItemWord::Literal, ItemWord::Literal, ItemWord::Bind];
    match row_arguments(alloc, b"thm", &words, items)? {
        Some(row) => factor_step(alloc, parents, binds, row.as_slice()),
        None => Ok(None),
    }
}

/// The step of a line by the rule `merge`.
fn merge_line(
    alloc: Global,
    items: &[GeneralTerm],
    parents: &[u64],
    binds: Bindings,
) -> Mem<Option<Step>>
    ensures { IfOk result (λ step. step ≡ rule_step merge_kind [] (map general_of items.now) parents.now (map bound_terms binds)) }
{
    let words = [ItemWord::Literal, ItemWord::Literal, ItemWord::Bind];
    match row_arguments(alloc, b"thm", &words, items)? {
        Some(row) => merge_step(alloc, parents, binds, row.as_slice()),
        None => Ok(None),
    }
}

/// The step of a line by the rule `split`.
fn split_line(alloc: Global, items: &[GeneralTerm], parents: &[u64]) -> Mem<Option<Step>>
    ensures { IfOk result (λ step. step ≡ rule_step split_kind [] (map general_of items.now) parents.now []) }
{
    let words = [ItemWord::Parts];
    match row_arguments(alloc, b"esa", &words, items)? {
        Some(row) => split_step(alloc, parents, row.as_slice()),
        None => Ok(None),
    }
}

/// The step of a line by the rule `chain`.
fn chain_line(
    alloc: Global,
    names: &NameTable,
    items: &[GeneralTerm],
    parents: &[u64],
) -> Mem<Option<Step>>
    ensures { IfOk result (λ step. step ≡ rule_step chain_kind names.now (map general_of items.now) parents.now []) }
{
    let words = [ItemWord::Pivots];
    match row_arguments(alloc, b"thm", &words, items)? {
        Some(row) => chain_step(alloc, names, parents, row.as_slice()),
        None => Ok(None),
    }
}

/// Superposition, by the arguments of its items.
fn para_step(
    alloc: Global,
    parents: &[u64],
    binds: Bindings,
    row: &[&[GeneralTerm]],
) -> Mem<Option<Step>>
    ensures { IfOk result (λ step. step ≡ para_step parents.now (map bound_terms binds) (map terms_lent row.now)) }
{
    let Some((first, second)) = two_of(parents) else {
        return Ok(None);
    };
    let Some((first_bind, second_bind)) = two_binds(alloc, binds) else {
        return Ok(None);
    };
    let [from, into, ..] = row else {
        return Ok(None);
    };
    let Some(from) = of_literal(from) else {
        return Ok(None);
    };
    let read = into_literal(alloc, into)?;
    let Some(
        LiteralPlace {
            literal: into,
            side: into_side,
            place,
        },
    ) = read
    else {
        return Ok(None);
    };
    Ok(Some(Step::Para {
        first,
        second,
        from: from.literal,
        from_side: from.side,
        into,
        into_side,
        place,
        first_bind,
        second_bind,
    }))
}

/// Equality resolution, by the arguments of its items.
fn refl_step(
    alloc: Global,
    parents: &[u64],
    binds: Bindings,
    row: &[&[GeneralTerm]],
) -> Mem<Option<Step>>
    ensures { IfOk result (λ step. step ≡ refl_step parents.now (map bound_terms binds) (map terms_lent row.now)) }
{
    let [parent] = parents else {
        return Ok(None);
    };
    let Some(bind) = only_bind(alloc, binds) else {
        return Ok(None);
    };
    let [literal, ..] = row else {
        return Ok(None);
    };
    let Some(literal) = only_number(literal) else {
        return Ok(None);
    };
    Ok(Some(Step::Refl {
        parent: *parent,
        literal,
        bind,
    }))
}

/// Equality factoring, by the arguments of its items.
fn factor_step(
    alloc: Global,
    parents: &[u64],
    binds: Bindings,
    row: &[&[GeneralTerm]],
) -> Mem<Option<Step>>
    ensures { IfOk result (λ step. step ≡ factor_step parents.now (map bound_terms binds) (map terms_lent row.now)) }
{
    let [parent] = parents else {
        return Ok(None);
    };
    let Some(bind) = only_bind(alloc, binds) else {
        return Ok(None);
    };
    let [becomes, other, ..] = row else {
        return Ok(None);
    };
    let Some(becomes) = of_literal(becomes) else {
        return Ok(None);
    };
    let Some(other) = of_literal(other) else {
        return Ok(None);
    };
    Ok(Some(Step::Factor {
        parent: *parent,
        becomes: becomes.literal,
        becomes_side: becomes.side,
        other: other.literal,
        other_side: other.side,
        bind,
    }))
}

/// Merging, by the arguments of its items.
fn merge_step(
    alloc: Global,
    parents: &[u64],
    binds: Bindings,
    row: &[&[GeneralTerm]],
) -> Mem<Option<Step>>
    ensures { IfOk result (λ step. step ≡ merge_step parents.now (map bound_terms binds) (map terms_lent row.now)) }
{
    let [parent] = parents else {
        return Ok(None);
    };
    let Some(bind) = only_bind(alloc, binds) else {
        return Ok(None);
    };
    let [stays, goes, ..] = row else {
        return Ok(None);
    };
    let Some(stays) = only_number(stays) else {
        return Ok(None);
    };
    let Some(goes) = only_number(goes) else {
        return Ok(None);
    };
    Ok(Some(Step::Merge {
        parent: *parent,
        stays,
        goes,
        bind,
    }))
}

/// Splitting, by the arguments of its item.
fn split_step(alloc: Global, parents: &[u64], row: &[&[GeneralTerm]]) -> Mem<Option<Step>>
    ensures { IfOk result (λ step. step ≡ split_step parents.now (map terms_lent row.now)) }
{
    let Some((parent, definitions)) = parents.split_first() else {
        return Ok(None);
    };
    let [parts] = row else {
        return Ok(None);
    };
    let read = parts_in(alloc, parts)?;
    let Some(parts) = read else {
        return Ok(None);
    };
    Ok(Some(Step::Split {
        parent: *parent,
        definitions: Numbers::from_slice(alloc, definitions)?,
        parts,
    }))
}

/// Resolution on names, by the arguments of its item.
fn chain_step(
    alloc: Global,
    names: &NameTable,
    parents: &[u64],
    row: &[&[GeneralTerm]],
) -> Mem<Option<Step>>
    ensures { IfOk result (λ step. step ≡ chain_step names.now parents.now (map terms_lent row.now)) }
{
    let [pivots] = row else {
        return Ok(None);
    };
    let read = pivots_in(alloc, names, pivots)?;
    let Some(pivots) = read else {
        return Ok(None);
    };
    Ok(Some(Step::Chain {
        parents: Numbers::from_slice(alloc, parents)?,
        pivots,
    }))
}

/// Two numbers.
fn two_of(numbers: &[u64]) -> Option<(u64, u64)>
    ensures { result ≡ two_of numbers.now }
{
    match numbers {
        [first, second] => Some((*first, *second)),
        _ => None,
    }
}

/// The bindings of the only item.
fn only_bind(alloc: Global, binds: Bindings) -> Option<Terms>
    ensures { result ≡ only_one (map bound_terms binds) }
{
    let mut binds = binds.into_vec();
    let bind = binds.pop()?;
    if !binds.is_empty() {
        return None;
    }
    Some(terms_or_none(alloc, bind))
}

/// The bindings of two items.
fn two_binds(alloc: Global, binds: Bindings) -> Option<(Terms, Terms)>
    ensures { result ≡ two_of (map bound_terms binds) }
{
    let mut binds = binds.into_vec();
    let second = binds.pop()?;
    let first = binds.pop()?;
    if !binds.is_empty() {
        return None;
    }
    Some((terms_or_none(alloc, first), terms_or_none(alloc, second)))
}

/// The terms, or none.
fn terms_or_none(alloc: Global, terms: Option<Terms>) -> Terms
    ensures { result ≡ bound_terms terms }
{
    match terms {
        Some(terms) => terms,
        None => Terms::new(alloc),
    }
}

/// The numbers in each list of the list that is the only argument.
fn parts_in(alloc: Global, terms: &[GeneralTerm]) -> Mem<Option<Parts>>
    ensures { IfOk result (λ parts. parts ≡ option_and_then (list_in numbers_in) (only_one (map general_of terms.now))) }
{
    match only_list(terms) {
        Some(list) => all_parts(alloc, list),
        None => Ok(None),
    }
}

/// The numbers in each of lists.
fn all_parts(alloc: Global, lists: &[GeneralTerm]) -> Mem<Option<Parts>>
    ensures { IfOk result (λ parts. parts ≡ all_there (map numbers_in (map general_of lists.now))) }
{
    let mut parts = Parts::new(alloc);
    for list in lists {
        let read = numbers_in(alloc, list)?;
        match read {
            Some(part) => parts.push(part)?,
            None => return Ok(None),
        }
    }
    Ok(Some(parts))
}

/// The signed names in the list that is the only argument.
fn pivots_in(alloc: Global, names: &NameTable, terms: &[GeneralTerm]) -> Mem<Option<Names>>
    ensures { IfOk result (λ pivots. pivots ≡ option_and_then (list_in (introduced_in names.now)) (only_one (map general_of terms.now))) }
{
    match only_list(terms) {
        Some(list) => all_pivots(alloc, names, list),
        None => Ok(None),
    }
}

/// The signed names that terms are.
fn all_pivots(alloc: Global, names: &NameTable, terms: &[GeneralTerm]) -> Mem<Option<Names>>
    ensures { IfOk result (λ pivots. pivots ≡ all_there (map (introduced_in names.now) (map general_of terms.now))) }
{
    let mut pivots = Names::new(alloc);
    for term in terms {
        match introduced_in(names, term) {
            Some(pivot) => pivots.push(pivot)?,
            None => return Ok(None),
        }
    }
    Ok(Some(pivots))
}

/// The terms of the list that is the only one of terms.
fn only_list(terms: &[GeneralTerm]) -> Option<&[GeneralTerm]>
    ensures { option_map terms_lent result ≡ option_and_then items_in (only_one (map general_of terms.now)) }
{
    list_at(only_one(terms)?)
}

/// The introduced name with its sign that a term is.
fn introduced_in(names: &NameTable, term: &GeneralTerm) -> Option<NameLit>
    ensures { result ≡ introduced_in names.now (general_of term.now) }
{
    let (positive, name) = signed_name_of(term)?;
    let name = names.number(name)?;
    Some(NameLit { positive, name })
}
