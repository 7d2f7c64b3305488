// The clauses of a matrix, written one by one: no list of clauses is made on the way.

ghost use Rattle.std.specs.Prelude.{◌≡◌, ◌+◌, ◌++◌, [], ◌∷◌, map, length, take, IfOk};
ghost use Rattle.fol_base.specs.Literal.{clause_of};
ghost use Rattle.skolem.specs.Matrix.{matrices_of, matrices_size};
ghost use Rattle.skolem.specs.Shape.{matrix_tree};
ghost use Rattle.signature.specs.Clausal.{all_pairs, canonical_literals};
ghost use Rattle.clausal_form.specs.Written.{written, all_written, product_written};
ghost use Rattle.clausal_form.specs.Agenda.{lent_literal, agenda_clauses, agenda_size, canonical_after, placed};

use fol_base::{Clause, Literals, renumbered};
use plain_types::{Mem, Names};
use skolem::{Matrix, MatrixLiteral};
use std::alloc::Global;

/// The clauses that were written, and for each the place of its formula.
#[derive(Drop)]
pub(crate) struct Output {
    pub clauses: Vec<Clause>,
    pub origins: Vec<u64>,
}

/// The rest of a clause that is being written: the literals that it has, and the matrices of which it gets a clause each, the next one last.
#[derive(Drop)]
pub(crate) struct Agenda<'m, 'a> {
    pub literals: Vec<&'m MatrixLiteral<'a>>,
    pub matrices: Vec<&'m Matrix<'a>>,
}

/// Writes, for each clause of the matrices that are left, the literals that are there and the clause's own. The agenda is as before.
#[cycle(write)]
fn write_agenda<'m, 'a>(
    alloc: Global,
    place: u64,
    agenda: &mut Agenda<'m, 'a>,
    output: &mut Output,
) -> Mem<()>
    ensures clauses { IfOk result (λ _. map clause_of output.new.clauses.items ≡ map clause_of output.old.clauses.items
        ++ map (canonical_after (map lent_literal agenda.old.literals.items)) (agenda_clauses agenda.old.matrices.items)) }
    ensures origins { IfOk result (λ _. output.new.origins.items ≡ output.old.origins.items
        ++ map (placed place) (agenda_clauses agenda.old.matrices.items)) }
    ensures literals { IfOk result (λ _. agenda.new.literals.items ≡ agenda.old.literals.items) }
    ensures matrices { IfOk result (λ _. agenda.new.matrices.items ≡ agenda.old.matrices.items) }
{
    match agenda.matrices.pop() {
        None => write_clause(alloc, place, agenda.literals.as_slice(), output),
        Some(matrix) => {
            write_matrix(alloc, place, matrix, agenda, output)?;
            agenda.matrices.push(matrix)?;
            Ok(())
        }
    }
}

/// Writes these clauses with a clause of the matrix before those of the matrices that are left.
#[cycle(write)]
pub(crate) fn write_matrix<'m, 'a>(
    alloc: Global,
    place: u64,
    matrix: &'m Matrix<'a>,
    agenda: &mut Agenda<'m, 'a>,
    output: &mut Output,
) -> Mem<()>
    ensures clauses { IfOk result (λ _. map clause_of output.new.clauses.items ≡ map clause_of output.old.clauses.items
        ++ map (canonical_after (map lent_literal agenda.old.literals.items)) (all_pairs (written (matrix_tree matrix.now)) (agenda_clauses agenda.old.matrices.items))) }
    ensures origins { IfOk result (λ _. output.new.origins.items ≡ output.old.origins.items
        ++ map (placed place) (all_pairs (written (matrix_tree matrix.now)) (agenda_clauses agenda.old.matrices.items))) }
    ensures literals { IfOk result (λ _. agenda.new.literals.items ≡ agenda.old.literals.items) }
    ensures matrices { IfOk result (λ _. agenda.new.matrices.items ≡ agenda.old.matrices.items) }
{
    match matrix {
        Matrix::True => Ok(()),
        Matrix::False => write_agenda(alloc, place, agenda, output),
        Matrix::Lit(literal) => {
            agenda.literals.push(literal)?;
            write_agenda(alloc, place, agenda, output)?;
            agenda.literals.pop();
            Ok(())
        }
        Matrix::And(members) => write_each(alloc, place, members.as_slice(), agenda, output),
        Matrix::Or { made: _, members } => {
            let before = agenda.matrices.len();
            push_members(members.as_slice(), &mut agenda.matrices)?;
            write_agenda(alloc, place, agenda, output)?;
            agenda.matrices.truncate(before);
            Ok(())
        }
    }
}

/// Writes these clauses for each of several matrices, one after another.
#[cycle(write)]
fn write_each<'m, 'a>(
    alloc: Global,
    place: u64,
    members: &'m [Matrix<'a>],
    agenda: &mut Agenda<'m, 'a>,
    output: &mut Output,
) -> Mem<()>
    ensures clauses { IfOk result (λ _. map clause_of output.new.clauses.items ≡ map clause_of output.old.clauses.items
        ++ map (canonical_after (map lent_literal agenda.old.literals.items)) (all_pairs (all_written (matrices_of (map matrix_tree members.now))) (agenda_clauses agenda.old.matrices.items))) }
    ensures origins { IfOk result (λ _. output.new.origins.items ≡ output.old.origins.items
        ++ map (placed place) (all_pairs (all_written (matrices_of (map matrix_tree members.now))) (agenda_clauses agenda.old.matrices.items))) }
    ensures literals { IfOk result (λ _. agenda.new.literals.items ≡ agenda.old.literals.items) }
    ensures matrices { IfOk result (λ _. agenda.new.matrices.items ≡ agenda.old.matrices.items) }
{
    for member in members {
        write_matrix(alloc, place, member, agenda, output)?;
    }
    Ok(())
}

/// Puts matrices at the end, the first of them last.
fn push_members<'m, 'a>(members: &'m [Matrix<'a>], matrices: &mut Vec<&'m Matrix<'a>>) -> Mem<()>
    ensures clauses { IfOk result (λ _. agenda_clauses matrices.new.items
        ≡ all_pairs (product_written ([] ∷ []) (matrices_of (map matrix_tree members.now))) (agenda_clauses matrices.old.items)) }
    ensures size { IfOk result (λ _. agenda_size matrices.new.items
        ≡ agenda_size matrices.old.items + matrices_size (matrices_of (map matrix_tree members.now))) }
    ensures kept { IfOk result (λ _. take (length matrices.old.items) matrices.new.items ≡ matrices.old.items) }
{
    let mut left = members.len();
    while left > 0 {
        left -= 1;
        matrices.push(&members[left])?;
    }
    Ok(())
}

/// Writes the clause of those literals, its variables renumbered.
fn write_clause(
    alloc: Global,
    place: u64,
    literals: &[&MatrixLiteral<'_>],
    output: &mut Output,
) -> Mem<()>
    ensures clauses { IfOk result (λ _. map clause_of output.new.clauses.items
        ≡ map clause_of output.old.clauses.items ++ canonical_literals (map lent_literal literals.now) ∷ []) }
    ensures origins { IfOk result (λ _. output.new.origins.items ≡ output.old.origins.items ++ place ∷ []) }
{
    let clause = clause_of_literals(alloc, literals)?;
    output.clauses.push(renumbered(alloc, &clause)?)?;
    output.origins.push(place)?;
    Ok(())
}

/// The clause of those literals, without names. Their terms are made here.
fn clause_of_literals(alloc: Global, literals: &[&MatrixLiteral<'_>]) -> Mem<Clause>
    ensures { IfOk result (λ clause. clause_of clause ≡ record { literals = map lent_literal literals.now; names = [] }) }
{
    let mut made = Vec::with_capacity(alloc, literals.len())?;
    for literal in literals {
        made.push(literal.to_literal(alloc)?)?;
    }
    Ok(Clause {
        literals: Literals::from_vec(made),
        names: Names::new(alloc),
    })
}
