// The causes of terms: a term of another sort than is wanted.

ghost use Rattle.std.specs.Prelude.{◌≡◌, ◌++◌, ◌∷◌, [], length, map, IfOk};
ghost use Rattle.tptp_tree.specs.Shape.{term_of};
ghost use Rattle.tptp_tree.specs.Term.{terms_of};
ghost use Rattle.typed_tree.specs.Sorts.{same_sort};
ghost use Rattle.typed_problem.specs.SortFaults.{term_causes, terms_causes, term_sort, clash as clash_of};
ghost use Rattle.sort_checks.specs.Lent.{sort_lent, declared_among};
ghost use Rattle.sort_checks.specs.Wanted.{sort_wanted, arguments_wanted, argument_wanted, sort_by_word, result_wanted};

use crate::scope::Scope;
use crate::table::Table;
use plain_types::Mem;
use tptp_tree::TreeTerm;
use typed_tree::{Declaration, Sort, TypedCause};

/// The sort that is wanted of a term: none, or `$i`, or one that is lent.
#[derive(Clone, Copy)]
pub(crate) enum Wanted<'a> {
    Any,
    Individual,
    Of(&'a Sort),
}

/// The causes of a term, of which a sort may be wanted.
#[cycle(push_terms)]
pub(crate) fn push_term<'a>(
    table: &Table<'_, 'a>,
    scope: &Scope<'a>,
    wanted: Wanted<'a>,
    term: &TreeTerm,
    causes: &mut Vec<Option<TypedCause>>,
) -> Mem<()>
    ensures { IfOk result (λ _. causes.new.items
        ≡ causes.old.items ++ term_causes (declared_among table.now) scope.now (sort_wanted wanted.entry) (term_of term.now) []) }
{
    causes.push(clash(table, scope, wanted, term))?;
    match term {
        TreeTerm::Var(_) => Ok(()),
        TreeTerm::App(name, arguments) => {
            let terms = arguments.as_slice();
            let declaration = table.function(name.as_slice(), terms.len());
            push_arguments(table, scope, declaration, terms, causes)
        }
    }
}

/// The causes of arguments of a symbol with that declaration; without one all are wanted to be of `$i`.
#[cycle(push_terms)]
pub(crate) fn push_arguments<'a>(
    table: &Table<'_, 'a>,
    scope: &Scope<'a>,
    declaration: Option<&'a Declaration>,
    terms: &[TreeTerm],
    causes: &mut Vec<Option<TypedCause>>,
) -> Mem<()>
    ensures { IfOk result (λ _. causes.new.items
        ≡ causes.old.items ++ terms_causes (declared_among table.now) scope.now (arguments_wanted (length terms.now) declaration.entry) (terms_of (map term_of terms.now)) []) }
{
    for (index, term) in terms.iter().enumerate() {
        let wanted = wanted_at(declaration, index);
        push_term(table, scope, wanted, term, causes)?;
    }
    Ok(())
}

/// The sort that is wanted of an argument.
fn wanted_at(declaration: Option<&Declaration>, index: usize) -> Wanted<'_>
    ensures { sort_wanted result ≡ argument_wanted declaration.entry index }
{
    let Some(declaration) = declaration else {
        return Wanted::Individual;
    };
    match declaration.args.as_slice().get(index) {
        Some(sort) => Wanted::Of(sort),
        None => Wanted::Any,
    }
}

/// The cause of a term's first token.
fn clash<'a>(
    table: &Table<'_, 'a>,
    scope: &Scope<'a>,
    wanted: Wanted<'a>,
    term: &TreeTerm,
) -> Option<TypedCause>
    ensures { result ≡ clash_of (declared_among table.now) scope.now (sort_wanted wanted.entry) (term_of term.now) }
{
    let sort = match wanted {
        Wanted::Any => return None,
        Wanted::Individual => None,
        Wanted::Of(sort) => Some(sort),
    };
    if is_same_sort(sort, sort_of(table, scope, term)) {
        None
    } else {
        Some(TypedCause::SortClash)
    }
}

/// The sort of a term's values; none for `$i`.
pub(crate) fn sort_of<'a>(
    table: &Table<'_, 'a>,
    scope: &Scope<'a>,
    term: &TreeTerm,
) -> Option<&'a Sort>
    ensures { sort_lent result ≡ term_sort (declared_among table.now) scope.now (term_of term.now) }
{
    match term {
        TreeTerm::Var(name) => scope.sort(name.as_slice()),
        TreeTerm::App(name, arguments) => {
            result_of(table.function(name.as_slice(), arguments.len()))
        }
    }
}

/// The sort of a function's values; none for `$i`.
fn result_of(declaration: Option<&Declaration>) -> Option<&Sort>
    ensures { sort_lent result ≡ result_wanted declaration.entry }
{
    declaration?.result.as_ref()
}

/// Whether two sorts are one; none is `$i`.
pub(crate) fn is_same_sort(left: Option<&Sort>, right: Option<&Sort>) -> bool
    ensures { result ≡ same_sort (sort_lent left.entry) (sort_lent right.entry) }
{
    match (word_of(left), word_of(right)) {
        (None, None) => true,
        (Some(first), Some(second)) => first == second,
        _ => false,
    }
}

/// The word of a sort; none for `$i`.
fn word_of(sort: Option<&Sort>) -> Option<&[u8]>
    ensures { sort_by_word result ≡ sort_lent sort.entry }
{
    match sort? {
        Sort::Individual => None,
        Sort::Named(word) => Some(word.as_slice()),
    }
}
