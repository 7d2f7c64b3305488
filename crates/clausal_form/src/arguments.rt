// The arguments of a name: the variables of what it stands for. The literals of a list can share very many variables, so those that are found are kept
// in a list that drops its repetitions.

ghost use Rattle.std.specs.Prelude.{◌≡◌, ◌++◌, [], map, IfOk, if◌then◌else◌};
ghost use Rattle.signature.specs.Clausal.{made_in_order};
ghost use Rattle.skolem.specs.Matrix.{matrices_of};
ghost use Rattle.skolem.specs.Outline.{AreSame};
ghost use Rattle.skolem.specs.Shape.{matrix_tree};
ghost use Rattle.skolem.specs.Heavy.{has_clauses, some_have_clauses, all_have_clauses};
ghost use Rattle.clausal_form.specs.Occurring.{clauses_variables, matrix_variables, matrices_variables};
ghost use Rattle.clausal_form.specs.Written.{written};

use plain_types::Mem;
use skolem::{Matrix, VariableList, made_in_order};
use std::alloc::Global;

/// The variables below `made` that occur in the clauses of a matrix, in rising order.
pub(crate) fn name_arguments(alloc: Global, made: u32, matrix: &Matrix<'_>) -> Mem<Vec<u32>>
    ensures { IfOk result (λ found. found.items ≡ made_in_order made (clauses_variables (written (matrix_tree matrix.now)))) }
{
    let mut found = VariableList::new(alloc);
    push_matrix_variables(alloc, matrix, &mut found)?;
    made_in_order(alloc, made, &mut found.variables)
}

/// Adds the variables of a matrix's clauses, and says whether it has clauses.
#[cycle(push_matrix_variables)]
fn push_matrix_variables(alloc: Global, matrix: &Matrix<'_>, found: &mut VariableList) -> Mem<bool>
    ensures some { IfOk result (λ some. some ≡ has_clauses (matrix_tree matrix.now)) }
    ensures added { IfOk result (λ _. AreSame found.new.variables.items (found.old.variables.items ++ matrix_variables (matrix_tree matrix.now))) }
{
    match matrix {
        Matrix::True => Ok(false),
        Matrix::False => Ok(true),
        Matrix::Lit(literal) => {
            literal.push_variables(&mut found.variables)?;
            found.shorten(alloc)?;
            Ok(true)
        }
        Matrix::And(members) => push_listed_variables(alloc, members.as_slice(), found),
        Matrix::Or { made: _, members } => {
            push_product_variables(alloc, members.as_slice(), found)
        }
    }
}

/// Gathers the variables of matrices one after another.
#[cycle(push_matrix_variables)]
fn push_listed_variables(
    alloc: Global,
    members: &[Matrix<'_>],
    found: &mut VariableList,
) -> Mem<bool>
    ensures some { IfOk result (λ some. some ≡ some_have_clauses (matrices_of (map matrix_tree members.now))) }
    ensures added { IfOk result (λ _. AreSame found.new.variables.items
        (found.old.variables.items ++ matrices_variables (matrices_of (map matrix_tree members.now)))) }
{
    let mut some = false;
    for member in members {
        let has = push_matrix_variables(alloc, member, found)?;
        some = some || has;
    }
    Ok(some)
}

/// Gathers the variables of a product. They are gathered apart, since it has none where a member has no clauses.
#[cycle(push_matrix_variables)]
fn push_product_variables(
    alloc: Global,
    members: &[Matrix<'_>],
    found: &mut VariableList,
) -> Mem<bool>
    ensures some { IfOk result (λ some. some ≡ all_have_clauses (matrices_of (map matrix_tree members.now))) }
    ensures added { IfOk result (λ _. AreSame found.new.variables.items (found.old.variables.items
        ++ (if all_have_clauses (matrices_of (map matrix_tree members.now)) then matrices_variables (matrices_of (map matrix_tree members.now)) else []))) }
{
    let mut own = VariableList::new(alloc);
    for member in members {
        let has = push_matrix_variables(alloc, member, &mut own)?;
        if !has {
            return Ok(false);
        }
    }
    found.variables.extend_from_slice(own.variables.as_slice())?;
    found.shorten(alloc)?;
    Ok(true)
}
