// The causes of declarations: a word that is declared again as something else, and a sort that isn't declared.

ghost use Rattle.std.specs.Prelude.{◌≡◌, ◌++◌, [], ◌∷◌, take, map, IfOk, None, Some, if◌then◌else◌};
ghost use Rattle.typed_tree.specs.Shape.{sort_of};
ghost use Rattle.typed_tree.specs.Sorts.{named_sort, same_sort, same_result, same_type, same_declared, a_symbol};
ghost use lib.Pointwise.{pointwise};
ghost use Rattle.typed_problem.specs.SortFaults.{declaration_causes, declared_causes, sort_causes, repeated_cause};
ghost use Rattle.typed_problem.specs.Declarations.{is_sort};
ghost use Rattle.typed_problem.specs.ProblemShape.{type_of};
ghost use Rattle.sort_checks.specs.Lent.{declared_lent, declaration_lent, earlier_lent, declared_among, result_lent};

use crate::lent::LentDeclaration;
use crate::table::Table;
use crate::terms::is_same_sort;
use plain_types::Mem;
use typed_tree::{Declaration, Sort, TypedCause};

/// The causes of the declaration that stands at an index.
pub(crate) fn push_declaration(
    table: &Table<'_, '_>,
    index: usize,
    declaration: LentDeclaration<'_>,
    causes: &mut Vec<Option<TypedCause>>,
) -> Mem<()>
    ensures { IfOk result (λ _. causes.new.items
        ≡ causes.old.items ++ declaration_causes (declared_among table.now) (declared_among (take index table.now)) (declaration_lent declaration.entry)) }
{
    let earlier = table.earlier(declaration.word, index);
    causes.push(repeated(earlier, declaration.symbol))?;
    match declaration.symbol {
        Some(symbol) => push_type(table, symbol, causes),
        None => Ok(()),
    }
}

/// The causes of a declaration's sorts.
fn push_type(
    table: &Table<'_, '_>,
    declaration: &Declaration,
    causes: &mut Vec<Option<TypedCause>>,
) -> Mem<()>
    ensures { IfOk result (λ _. causes.new.items
        ≡ causes.old.items ++ declared_causes (declared_among table.now) (a_symbol (type_of declaration.now))) }
{
    for sort in declaration.args.as_slice() {
        push_sort(table, sort, causes)?;
    }
    match &declaration.result {
        Some(sort) => push_sort(table, sort, causes),
        None => Ok(()),
    }
}

/// The cause of a sort that is written: a word has a place, and `$i` has none.
pub(crate) fn push_sort(
    table: &Table<'_, '_>,
    sort: &Sort,
    causes: &mut Vec<Option<TypedCause>>,
) -> Mem<()>
    ensures { IfOk result (λ _. causes.new.items ≡ causes.old.items ++ sort_causes (declared_among table.now) (sort_of sort.now) []) }
{
    match sort {
        Sort::Individual => Ok(()),
        Sort::Named(word) => {
            causes.push(unknown(table, word.as_slice()))?;
            Ok(())
        }
    }
}

/// The cause of a sort's word that no declaration makes a sort.
fn unknown(table: &Table<'_, '_>, word: &[u8]) -> Option<TypedCause>
    ensures { result ≡ (if is_sort (declared_among table.now) (named_sort word.now) then None else Some TypedCause.UnknownSort) }
{
    if table.is_sort(word) {
        None
    } else {
        Some(TypedCause::UnknownSort)
    }
}

/// The cause of a word that is declared again as something else.
fn repeated(
    earlier: Option<LentDeclaration<'_>>,
    symbol: Option<&Declaration>,
) -> Option<TypedCause>
    ensures { result ≡ repeated_cause (earlier_lent earlier.entry) (declared_lent symbol.entry) }
{
    let earlier = earlier?;
    if is_same(earlier.symbol, symbol) {
        None
    } else {
        Some(TypedCause::TwoTypes)
    }
}

/// Whether two declarations make their word the same: a sort, or a symbol of one type.
fn is_same(left: Option<&Declaration>, right: Option<&Declaration>) -> bool
    ensures { result ≡ same_declared (declared_lent left.entry) (declared_lent right.entry) }
{
    match (left, right) {
        (None, None) => true,
        (Some(first), Some(second)) => is_same_type(first, second),
        _ => false,
    }
}

/// Whether two symbols have one type.
fn is_same_type(left: &Declaration, right: &Declaration) -> bool
    ensures { result ≡ same_type (type_of left.now) (type_of right.now) }
{
    is_same_result(left.result.as_ref(), right.result.as_ref())
        && are_same_sorts(left.args.as_slice(), right.args.as_slice())
}

/// Whether both are predicates, or functions with values of one sort.
fn is_same_result(left: Option<&Sort>, right: Option<&Sort>) -> bool
    ensures { result ≡ same_result (result_lent left.entry) (result_lent right.entry) }
{
    match (left, right) {
        (None, None) => true,
        (Some(first), Some(second)) => is_same_sort(Some(first), Some(second)),
        _ => false,
    }
}

/// Whether two lists have the same sorts.
fn are_same_sorts(left: &[Sort], right: &[Sort]) -> bool
    ensures { result ≡ pointwise same_sort (map sort_of left.now) (map sort_of right.now) }
{
    if left.len() != right.len() {
        return false;
    }
    for (first, second) in left.iter().zip(right) {
        if !is_same_sort(Some(first), Some(second)) {
            return false;
        }
    }
    true
}
