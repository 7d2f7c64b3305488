// Names for lists of clauses whose products would be large. What is left is a matrix whose products can be written out.

ghost use Rattle.std.specs.Prelude.{◌≡◌, [], ◌∷◌, ◌++◌, ◌+◌, ◌==◌, ◌&&◌, map, length, IfOk, IfErr};
ghost use Rattle.signature.specs.Clausal.{all_pairs, named, product};
ghost use Rattle.skolem.specs.Matrix.{matrices_of};
ghost use Rattle.skolem.specs.Shape.{matrix_tree};
ghost use Rattle.skolem.specs.MatrixClauses.{matrix_clauses, listed_matrices, product_of_matrices};
ghost use Rattle.clausal_form.specs.Measure.{measure_of, capped_measured};
ghost use Rattle.clausal_form.specs.Written.{written, all_written, product_written};
ghost use Rattle.clausal_form.specs.Naming.{IsMeasured, IsWork, IsEnd, defining_clauses, definition_clauses, naming_made, naming_numbers};

use crate::arguments::name_arguments;
use crate::measure::Measure;
use fol_base::MOST_SYMBOLS;
use formula_nnf::is_large;
use plain_types::{Mem, NoMemory};
use signature::arity_of;
use skolem::{Matrices, Matrix, MatrixLiteral};
use std::alloc::Global;
use std::rc::Rc;

/// A name: its negated atom, and the matrix for which it stands.
#[derive(Drop)]
pub(crate) struct Definition<'a> {
    pub negated: MatrixLiteral<'a>,
    pub matrix: Matrix<'a>,
}

/// The names of a form so far: the number of the first naming symbol, and the naming symbols by their numbers of arguments.
#[derive(Drop)]
pub(crate) struct Names {
    pub first: u32,
    pub arities: Vec<u32>,
}

/// The naming in a formula: the names so far, the definitions of those that the formula makes, and the measure of the clauses that define
/// them.
#[derive(Drop)]
pub(crate) struct Naming<'a> {
    pub first: u32,
    pub arities: Vec<u32>,
    pub definitions: Vec<Definition<'a>>,
    pub measure: Measure,
}

/// A matrix without large products, and the measure of its clauses.
#[derive(Drop)]
pub(crate) struct Part<'a> {
    pub matrix: Matrix<'a>,
    pub measure: Measure,
}

/// Why naming ends early.
#[derive(Clone, Copy)]
pub(crate) enum NamingEnd {
    NoMemory,
    /// A clause that defines a name has over `MOST_SYMBOLS` symbols, so that the formula is refused whatever else it has.
    TooHeavy,
}

impl From<NoMemory> for NamingEnd {
    ghost use Rattle.std.specs.Prelude.{◌≡◌};
    ghost use Rattle.clausal_form.specs.declared.naming.NamingEnd.TheVariants.{NoMemory as no_memory};

    ghost from_gives = { λ _ e. e ≡ no_memory };

    fn from(_error: NoMemory) -> NamingEnd {
        NamingEnd::NoMemory
    }
}

impl<'a> Naming<'a> {
    /// No name is made yet in the formula.
    pub(crate) fn new(alloc: Global, first: u32, arities: Vec<u32>) -> Naming<'a>
        ensures first { result.first ≡ first }
        ensures arities { result.arities.items ≡ arities.items }
        ensures definitions { result.definitions.items ≡ [] }
        ensures measured { IsMeasured result.measure (defining_clauses result) }
    {
        Naming {
            first,
            arities,
            definitions: Vec::new(alloc),
            measure: Measure::none(),
        }
    }
}

/// The matrix with names for the lists of its large products. Its literals are moved.
#[cycle(named_matrix)]
pub(crate) fn named_matrix<'a>(
    alloc: Global,
    matrix: Matrix<'a>,
    naming: &mut Naming<'a>,
) -> Result<Part<'a>, NamingEnd>
    requires { IsMeasured naming.old.measure (defining_clauses naming.old) }
    ensures work { IfOk result (λ part. IsWork naming.new
        (matrix_clauses (naming_numbers naming.old.first) (matrix_tree matrix.entry) (naming_made naming.old))
        (written (matrix_tree part.matrix)) part.measure) }
    ensures ended { IfErr result (λ end. IsEnd end
        (matrix_clauses (naming_numbers naming.old.first) (matrix_tree matrix.entry) (naming_made naming.old)).made.defining) }
    ensures first { IfOk result (λ _. naming.new.first ≡ naming.old.first) }
{
    match matrix {
        Matrix::True => Ok(Part {
            matrix: Matrix::True,
            measure: Measure::none(),
        }),
        Matrix::False => Ok(Part {
            matrix: Matrix::False,
            measure: Measure::empty_clause(),
        }),
        Matrix::Lit(literal) => Ok(literal_part(literal)),
        Matrix::And(members) => named_list(alloc, members, naming),
        Matrix::Or { made, members } => named_product(alloc, made, members, naming),
    }
}

/// Matrices one after another. Those without clauses are left out.
#[cycle(named_matrix)]
fn named_list<'a>(
    alloc: Global,
    members: Matrices<'a>,
    naming: &mut Naming<'a>,
) -> Result<Part<'a>, NamingEnd>
    requires { IsMeasured naming.old.measure (defining_clauses naming.old) }
    ensures work { IfOk result (λ part. IsWork naming.new
        (listed_matrices (naming_numbers naming.old.first) (matrices_of members.entry) (naming_made naming.old))
        (written (matrix_tree part.matrix)) part.measure) }
    ensures ended { IfErr result (λ end. IsEnd end
        (listed_matrices (naming_numbers naming.old.first) (matrices_of members.entry) (naming_made naming.old)).made.defining) }
    ensures first { IfOk result (λ _. naming.new.first ≡ naming.old.first) }
{
    let mut list = Part {
        matrix: Matrix::True,
        measure: Measure::none(),
    };
    for member in members.into_vec() {
        let part = named_matrix(alloc, member, naming)?;
        list = joined(alloc, list, part)?;
    }
    Ok(list)
}

/// One part after another. Without clauses it is left out, so that a list of one part is that part.
fn joined<'a>(alloc: Global, first: Part<'a>, second: Part<'a>) -> Mem<Part<'a>>
    requires first { IsMeasured first.measure (written (matrix_tree first.matrix)) }
    requires second { IsMeasured second.measure (written (matrix_tree second.matrix)) }
    ensures clauses { IfOk result (λ part. written (matrix_tree part.matrix)
        ≡ written (matrix_tree first.entry.matrix) ++ written (matrix_tree second.entry.matrix)) }
    ensures measured { IfOk result (λ part. IsMeasured part.measure
        (written (matrix_tree first.entry.matrix) ++ written (matrix_tree second.entry.matrix))) }
{
    if second.measure.clauses == 0 {
        return Ok(first);
    }
    if first.measure.clauses == 0 {
        return Ok(second);
    }
    let measure = first.measure.sum(second.measure)?;
    let matrix = joined_matrix(alloc, first.matrix, second.matrix)?;
    Ok(Part { matrix, measure })
}

/// One matrix after another, in the same list where the first is one.
fn joined_matrix<'a>(alloc: Global, first: Matrix<'a>, second: Matrix<'a>) -> Mem<Matrix<'a>>
    ensures { IfOk result (λ matrix. written (matrix_tree matrix) ≡ written (matrix_tree first.entry) ++ written (matrix_tree second.entry)) }
{
    let mut members = listed(alloc, first)?;
    members.push(second)?;
    Ok(Matrix::And(members))
}

/// The matrices of a list, and any other matrix alone.
fn listed<'a>(alloc: Global, matrix: Matrix<'a>) -> Mem<Matrices<'a>>
    ensures { IfOk result (λ members. all_written (matrices_of members) ≡ written (matrix_tree matrix.entry)) }
{
    match matrix {
        Matrix::And(members) => Ok(members),
        other => single(alloc, other),
    }
}

/// The product of matrices, from left to right. The largest clause that defines a name never gets smaller, so the work ends with the first
/// that is over the limit: each name keeps its arguments, and these can be very many.
#[cycle(named_matrix)]
fn named_product<'a>(
    alloc: Global,
    made: u32,
    members: Matrices<'a>,
    naming: &mut Naming<'a>,
) -> Result<Part<'a>, NamingEnd>
    requires { IsMeasured naming.old.measure (defining_clauses naming.old) }
    ensures work { IfOk result (λ part. IsWork naming.new
        (product_of_matrices (naming_numbers naming.old.first) made ([] ∷ []) (matrices_of members.entry) (naming_made naming.old))
        (written (matrix_tree part.matrix)) part.measure) }
    ensures ended { IfErr result (λ end. IsEnd end
        (product_of_matrices (naming_numbers naming.old.first) made ([] ∷ []) (matrices_of members.entry) (naming_made naming.old)).made.defining) }
    ensures first { IfOk result (λ _. naming.new.first ≡ naming.old.first) }
{
    let mut product = Part {
        matrix: Matrix::False,
        measure: Measure::empty_clause(),
    };
    for member in members.into_vec() {
        let part = named_matrix(alloc, member, naming)?;
        product = multiplied(alloc, made, product, part, naming)?;
        if naming.measure.largest > MOST_SYMBOLS {
            return Err(NamingEnd::TooHeavy);
        }
    }
    Ok(product)
}

/// The product of two parts. Of a large one the longer list is named first, what is there where they are equally long.
fn multiplied<'a>(
    alloc: Global,
    made: u32,
    first: Part<'a>,
    second: Part<'a>,
    naming: &mut Naming<'a>,
) -> Mem<Part<'a>>
    requires defining { IsMeasured naming.old.measure (defining_clauses naming.old) }
    requires first { IsMeasured first.measure (written (matrix_tree first.matrix)) }
    requires second { IsMeasured second.measure (written (matrix_tree second.matrix)) }
    ensures work { IfOk result (λ part. IsWork naming.new
        (product (naming_numbers naming.old.first) made (written (matrix_tree first.entry.matrix)) (written (matrix_tree second.entry.matrix)) (naming_made naming.old))
        (written (matrix_tree part.matrix)) part.measure) }
    ensures first { IfOk result (λ _. naming.new.first ≡ naming.old.first) }
{
    if !is_large(first.measure.clauses, second.measure.clauses) {
        return written_out(alloc, made, first, second);
    }
    if first.measure.clauses < second.measure.clauses {
        let name = named(alloc, made, second, naming)?;
        return written_out(alloc, made, first, name);
    }
    let name = named(alloc, made, first, naming)?;
    written_out(alloc, made, name, second)
}

/// The product of two parts without a name. The empty clause alone is left out, so that a product of one part is that part; and one
/// without clauses is `$true`, so that nothing of it is walked again.
fn written_out<'a>(alloc: Global, made: u32, first: Part<'a>, second: Part<'a>) -> Mem<Part<'a>>
    requires first { IsMeasured first.measure (written (matrix_tree first.matrix)) }
    requires second { IsMeasured second.measure (written (matrix_tree second.matrix)) }
    ensures clauses { IfOk result (λ part. written (matrix_tree part.matrix)
        ≡ all_pairs (written (matrix_tree first.entry.matrix)) (written (matrix_tree second.entry.matrix))) }
    ensures measured { IfOk result (λ part. IsMeasured part.measure
        (all_pairs (written (matrix_tree first.entry.matrix)) (written (matrix_tree second.entry.matrix)))) }
{
    if is_empty_clause(second.measure) {
        return Ok(first);
    }
    if is_empty_clause(first.measure) {
        return Ok(second);
    }
    let measure = first.measure.product(second.measure)?;
    if measure.clauses == 0 {
        return Ok(Part {
            matrix: Matrix::True,
            measure,
        });
    }
    let matrix = product_matrix(alloc, made, first.matrix, second.matrix)?;
    Ok(Part { matrix, measure })
}

/// Whether the only clause is the empty one: each literal has symbols.
fn is_empty_clause(measure: Measure) -> bool
    ensures { result ≡ ((measure.clauses == 1) && (measure.symbols == 0)) }
{
    measure.clauses == 1 && measure.symbols == 0
}

/// The product of two matrices, with the members of the first where it is one.
fn product_matrix<'a>(
    alloc: Global,
    made: u32,
    first: Matrix<'a>,
    second: Matrix<'a>,
) -> Mem<Matrix<'a>>
    ensures { IfOk result (λ matrix. written (matrix_tree matrix) ≡ all_pairs (written (matrix_tree first.entry)) (written (matrix_tree second.entry))) }
{
    let mut members = factors(alloc, first)?;
    members.push(second)?;
    Ok(Matrix::Or { made, members })
}

/// The members of a product, and any other matrix alone.
fn factors<'a>(alloc: Global, matrix: Matrix<'a>) -> Mem<Matrices<'a>>
    ensures { IfOk result (λ members. product_written ([] ∷ []) (matrices_of members) ≡ written (matrix_tree matrix.entry)) }
{
    match matrix {
        Matrix::Or { made: _, members } => Ok(members),
        other => single(alloc, other),
    }
}

/// One matrix.
fn single<'a>(alloc: Global, matrix: Matrix<'a>) -> Mem<Matrices<'a>>
    ensures list { IfOk result (λ members. all_written (matrices_of members) ≡ written (matrix_tree matrix.entry)) }
    ensures product { IfOk result (λ members. product_written ([] ∷ []) (matrices_of members) ≡ written (matrix_tree matrix.entry)) }
{
    let mut members = Matrices::new(alloc);
    members.push(matrix)?;
    Ok(members)
}

/// A literal as a matrix.
fn literal_part<'a>(literal: MatrixLiteral<'a>) -> Part<'a>
    ensures clauses { written (matrix_tree result.matrix) ≡ (literal.entry ∷ []) ∷ [] }
    ensures measured { IsMeasured result.measure ((literal.entry ∷ []) ∷ []) }
{
    let measure = Measure::one_clause(literal.size());
    Part {
        matrix: Matrix::Lit(literal),
        measure,
    }
}

/// Names the clauses of a part: the next naming symbol stands for them, applied to those of their variables that were made before the work
/// on the product began.
fn named<'a>(alloc: Global, made: u32, part: Part<'a>, naming: &mut Naming<'a>) -> Mem<Part<'a>>
    requires defining { IsMeasured naming.old.measure (defining_clauses naming.old) }
    requires part { IsMeasured part.measure (written (matrix_tree part.matrix)) }
    ensures work { IfOk result (λ name. IsWork naming.new
        (named (naming_numbers naming.old.first) made (written (matrix_tree part.entry.matrix)) (naming_made naming.old))
        (written (matrix_tree name.matrix)) name.measure) }
    ensures first { IfOk result (λ _. naming.new.first ≡ naming.old.first) }
{
    let arguments = name_arguments(alloc, made, &part.matrix)?;
    let symbol = next_symbol(naming)?;
    let arity = arity_of(arguments.len())?;
    let arguments = Rc::new(alloc, arguments)?;
    let negated = MatrixLiteral::of_name(false, symbol, arguments.clone()?);
    define(naming, arity, negated, part)?;
    Ok(literal_part(MatrixLiteral::of_name(true, symbol, arguments)))
}

/// The number of the next naming symbol.
fn next_symbol(naming: &Naming<'_>) -> Mem<u32>
    ensures { IfOk result (λ symbol. symbol ≡ naming.now.first + length naming.now.arities.items) }
{
    let made = u32::try_from(naming.arities.len()).map_err(|_| NoMemory)?;
    naming.first.checked_add(made).ok_or(NoMemory)
}

/// Adds a name, by its negated atom and its number of arguments, and the matrix for which it stands.
fn define<'a>(
    naming: &mut Naming<'a>,
    arity: u32,
    negated: MatrixLiteral<'a>,
    part: Part<'a>,
) -> Mem<()>
    requires defining { IsMeasured naming.old.measure (defining_clauses naming.old) }
    requires part { IsMeasured part.measure (written (matrix_tree part.matrix)) }
    ensures arities { IfOk result (λ _. naming.new.arities.items ≡ naming.old.arities.items ++ arity ∷ []) }
    ensures clauses { IfOk result (λ _. defining_clauses naming.new
        ≡ defining_clauses naming.old ++ map (λ c. negated.entry ∷ c) (written (matrix_tree part.entry.matrix))) }
    ensures measured { IfOk result (λ _. IsMeasured naming.new.measure (defining_clauses naming.new)) }
    ensures first { naming.new.first ≡ naming.old.first }
{
    let clauses = Measure::one_clause(negated.size()).product(part.measure)?;
    naming.measure = naming.measure.sum(clauses)?;
    naming.arities.push(arity)?;
    naming.definitions.push(Definition {
        negated,
        matrix: part.matrix,
    })?;
    Ok(())
}
