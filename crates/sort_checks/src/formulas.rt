// The causes of formulas: each atom, each term and each variable of a quantifier has its own.

ghost use Rattle.std.specs.Prelude.{◌≡◌, ◌++◌, ◌∷◌, [], None, Some, length, map, IfOk};
ghost use Rattle.tptp_tree.specs.Shape.{term_of};
ghost use Rattle.typed_tree.specs.Shape.{typed_of, variable_of};
ghost use Rattle.typed_tree.specs.TypedFormula.{trees_of};
ghost use Rattle.typed_problem.specs.SortFaults.{formula_causes, formulas_causes, variables_causes, term_causes, term_sort, inside};
ghost use Rattle.sort_checks.specs.Lent.{declared_among};

use crate::declarations::push_sort;
use crate::scope::Scope;
use crate::table::Table;
use crate::terms::{Wanted, push_arguments, push_term, sort_of};
use plain_types::Mem;
use tptp_tree::TreeTerm;
use typed_tree::{TypedCause, TypedFormula, TypedVar};

/// The causes of a formula. The scope is as before after it.
#[cycle(push_formulas)]
pub(crate) fn push_formula<'a>(
    table: &Table<'_, 'a>,
    scope: &mut Scope<'a>,
    formula: &'a TypedFormula,
    causes: &mut Vec<Option<TypedCause>>,
) -> Mem<()>
    ensures causes { IfOk result (λ _. causes.new.items
        ≡ causes.old.items ++ formula_causes (declared_among table.now) scope.old (typed_of formula.now) []) }
    ensures scope { IfOk result (λ _. scope.new ≡ scope.old) }
{
    match formula {
        TypedFormula::True | TypedFormula::False => Ok(()),
        TypedFormula::Pred(name, arguments) => {
            causes.push(None)?;
            let terms = arguments.as_slice();
            let declaration = table.predicate(name.as_slice(), terms.len());
            push_arguments(table, scope, declaration, terms, causes)
        }
        TypedFormula::Equal(left, right) | TypedFormula::NotEqual(left, right) => {
            push_equation(table, scope, left, right, causes)
        }
        TypedFormula::Not(inner) => push_formula(table, scope, inner.get(), causes),
        TypedFormula::And(inner) | TypedFormula::Or(inner) => {
            push_formulas(table, scope, inner.as_slice(), causes)
        }
        TypedFormula::Implies(left, right)
        | TypedFormula::Implied(left, right)
        | TypedFormula::Iff(left, right)
        | TypedFormula::Xor(left, right)
        | TypedFormula::Nor(left, right)
        | TypedFormula::Nand(left, right) => {
            push_formula(table, scope, left.get(), causes)?;
            push_formula(table, scope, right.get(), causes)
        }
        TypedFormula::All(variables, body) | TypedFormula::Ex(variables, body) => {
            let outer = scope.len();
            push_variables(table, scope, variables.as_slice(), causes)?;
            push_formula(table, scope, body.get(), causes)?;
            scope.truncate(outer);
            Ok(())
        }
    }
}

/// The causes of formulas.
#[cycle(push_formulas)]
fn push_formulas<'a>(
    table: &Table<'_, 'a>,
    scope: &mut Scope<'a>,
    formulas: &'a [TypedFormula],
    causes: &mut Vec<Option<TypedCause>>,
) -> Mem<()>
    ensures causes { IfOk result (λ _. causes.new.items
        ≡ causes.old.items ++ formulas_causes (declared_among table.now) scope.old (trees_of (map typed_of formulas.now)) []) }
    ensures scope { IfOk result (λ _. scope.new ≡ scope.old) }
{
    for formula in formulas {
        push_formula(table, scope, formula, causes)?;
    }
    Ok(())
}

/// The causes of an equation: its right side is to have the sort of the left one.
fn push_equation<'a>(
    table: &Table<'_, 'a>,
    scope: &Scope<'a>,
    left: &TreeTerm,
    right: &TreeTerm,
    causes: &mut Vec<Option<TypedCause>>,
) -> Mem<()>
    ensures { IfOk result (λ _. causes.new.items ≡ causes.old.items
        ++ term_causes (declared_among table.now) scope.now None (term_of left.now)
        (term_causes (declared_among table.now) scope.now (Some (term_sort (declared_among table.now) scope.now (term_of left.now))) (term_of right.now) [])) }
{
    push_term(table, scope, Wanted::Any, left, causes)?;
    let wanted = match sort_of(table, scope, left) {
        None => Wanted::Individual,
        Some(sort) => Wanted::Of(sort),
    };
    push_term(table, scope, wanted, right, causes)
}

/// The causes of a quantifier's variables, which then are in force.
fn push_variables<'a>(
    table: &Table<'_, 'a>,
    scope: &mut Scope<'a>,
    variables: &'a [TypedVar],
    causes: &mut Vec<Option<TypedCause>>,
) -> Mem<()>
    ensures causes { IfOk result (λ _. causes.new.items
        ≡ causes.old.items ++ variables_causes (declared_among table.now) (map variable_of variables.now) []) }
    ensures scope { IfOk result (λ _. scope.new ≡ inside (map variable_of variables.now) scope.old) }
{
    for variable in variables {
        causes.push(None)?;
        push_sort(table, &variable.sort, causes)?;
        scope.push(variable)?;
    }
    Ok(())
}
