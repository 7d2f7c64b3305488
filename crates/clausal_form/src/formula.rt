// One formula of a problem: its matrix, and the writing of its clauses.

ghost use Rattle.std.specs.Prelude.{◌≡◌, ◌<◌, ◌++◌, map, IfOk};
ghost use Rattle.tptp_tree.specs.Shape.{formula_of};
ghost use Rattle.fol_base.specs.Literal.{clause_of};
ghost use Rattle.signature.specs.Occurrences.{formula_symbols};
ghost use Rattle.signature.specs.Clausal.{canonical_literals};
ghost use Rattle.signature.specs.Environment.{closed, under_for_all};
ghost use Rattle.skolem.specs.Shape.{matrix_tree};
ghost use Rattle.skolem.specs.Heavy.{matrix_total};
ghost use Rattle.formula_nnf.specs.Shape.{nnf_tree};
ghost use Rattle.skolem.specs.Skolemized.{AreKnown, skolemized_form};
ghost use Rattle.fol_base.specs.declared.limits.TheConstants.{MOST_FORM_SYMBOLS};
ghost use Rattle.clausal_form.specs.Agenda.{placed};
ghost use Rattle.clausal_form.specs.Formula.{IsMatrixOrCause, Passes, definitions_clauses};
ghost use Rattle.clausal_form.specs.Naming.{definition_clauses};
ghost use Rattle.clausal_form.specs.Written.{written};

use crate::closing::closed_form;
use crate::fault::FormCause;
use crate::heavy::form_weight;
use crate::naming::Definition;
use crate::writing::{Agenda, Output, write_matrix};
use fol_base::{MOST_FORM_SYMBOLS, MOST_SYMBOLS};
use formula_nnf::Nnf;
use plain_types::{Mem, NoMemory, Texts};
use signature::Signature;
use skolem::{Matrix, MatrixEnd, Skolemized, largest_clause, skolemize};
use std::alloc::Global;
use tptp_tree::Annotated;

/// The matrix of a formula under its closing names, and its Skolem symbols by their numbers of arguments; or why there can be no form, where that is
/// told without its clauses: a literal in these has over `MOST_SYMBOLS` symbols, or all together have over `MOST_FORM_SYMBOLS` and over 2^26 arguments of
/// Skolem terms are listed. No literal is kept where they have that many already as they are written, or where literals that stand in no clause make a name's
/// clauses too heavy, and are too heavy themselves or too many.
pub(crate) fn formula_matrix<'a>(
    alloc: Global,
    annotated: &'a Annotated,
    names: &'a Texts,
    signature: &'a Signature,
) -> Mem<Result<Skolemized<'a>, FormCause>>
    requires closing { under_for_all names.now (formula_of annotated.now.formula) ≡ closed annotated.now }
    requires known { AreKnown signature.now (formula_symbols (formula_of annotated.now.formula)) }
    ensures { IfOk result (λ made. IsMatrixOrCause signature.now annotated.now made) }
{
    let form = closed_form(alloc, annotated, names)?;
    let weight = form_weight(&form);
    if weight.is_heavy {
        return Ok(Err(FormCause::TooHeavy));
    }
    if weight.symbols > MOST_FORM_SYMBOLS {
        return Ok(Err(cause_over_total(alloc, &form, signature)?));
    }
    // (A list in a part without clauses can get a name all the same, and then its literals are in the clauses that define it. So the form is
    // asked for these before literals are kept that are too heavy, or too many symbols together.)
    if weight.written > MOST_FORM_SYMBOLS {
        let size = largest_clause(alloc, &form, signature)?;
        if size > MOST_SYMBOLS {
            return Ok(Err(FormCause::TooHeavy));
        }
    }
    match skolemize(alloc, &form, signature) {
        Ok(made) => Ok(Ok(made)),
        Err(MatrixEnd::NoMemory) => Err(NoMemory),
        Err(MatrixEnd::TooHeavy) => Ok(Err(FormCause::TooHeavy)),
        Err(MatrixEnd::TotalLimit) => Ok(Err(cause_over_total(alloc, &form, signature)?)),
    }
}

/// Why there can be no form, where the literals have over `MOST_FORM_SYMBOLS` symbols together: which limit is passed first depends on how
/// many arguments names have.
fn cause_over_total<'a>(alloc: Global, form: &Nnf<'a>, signature: &'a Signature) -> Mem<FormCause>
    requires known { AreKnown signature.now (formula_symbols (nnf_tree form.now)) }
    requires over { MOST_FORM_SYMBOLS < matrix_total (skolemized_form signature.now (nnf_tree form.now)).matrix }
    ensures { IfOk result (λ cause. Passes cause (skolemized_form signature.now (nnf_tree form.now)).matrix) }
{
    if largest_clause(alloc, form, signature)? > MOST_SYMBOLS {
        return Ok(FormCause::TooHeavy);
    }
    Ok(FormCause::TotalLimit)
}

/// A matrix without large products, and the definitions of its names.
#[derive(Drop)]
pub(crate) struct Named<'a> {
    pub matrix: Matrix<'a>,
    pub definitions: Vec<Definition<'a>>,
}

/// Writes the clauses of a matrix without large products, and those that define its names.
pub(crate) fn write_formula(
    alloc: Global,
    place: u64,
    named: &Named<'_>,
    output: &mut Output,
) -> Mem<()>
    ensures clauses { IfOk result (λ _. map clause_of output.new.clauses.items ≡ map clause_of output.old.clauses.items
        ++ map canonical_literals (written (matrix_tree named.now.matrix) ++ definitions_clauses named.now.definitions.items)) }
    ensures origins { IfOk result (λ _. output.new.origins.items ≡ output.old.origins.items
        ++ map (placed place) (written (matrix_tree named.now.matrix) ++ definitions_clauses named.now.definitions.items)) }
{
    let mut agenda = Agenda {
        literals: Vec::new(alloc),
        matrices: Vec::new(alloc),
    };
    write_matrix(alloc, place, &named.matrix, &mut agenda, output)?;
    write_definitions(alloc, place, named.definitions.as_slice(), output)
}

/// Writes the clauses that define names.
fn write_definitions(
    alloc: Global,
    place: u64,
    definitions: &[Definition<'_>],
    output: &mut Output,
) -> Mem<()>
    ensures clauses { IfOk result (λ _. map clause_of output.new.clauses.items ≡ map clause_of output.old.clauses.items
        ++ map canonical_literals (definitions_clauses definitions.now)) }
    ensures origins { IfOk result (λ _. output.new.origins.items ≡ output.old.origins.items
        ++ map (placed place) (definitions_clauses definitions.now)) }
{
    for definition in definitions {
        write_definition(alloc, place, definition, output)?;
    }
    Ok(())
}

/// Writes the clauses that define a name.
fn write_definition(
    alloc: Global,
    place: u64,
    definition: &Definition<'_>,
    output: &mut Output,
) -> Mem<()>
    ensures clauses { IfOk result (λ _. map clause_of output.new.clauses.items ≡ map clause_of output.old.clauses.items
        ++ map canonical_literals (definition_clauses definition.now)) }
    ensures origins { IfOk result (λ _. output.new.origins.items ≡ output.old.origins.items
        ++ map (placed place) (definition_clauses definition.now)) }
{
    let mut agenda = Agenda {
        literals: Vec::new(alloc),
        matrices: Vec::new(alloc),
    };
    agenda.literals.push(&definition.negated)?;
    write_matrix(alloc, place, &definition.matrix, &mut agenda, output)
}
