// The matrix of a normal form.

ghost use Rattle.std.specs.Prelude.{◌≡◌, ◌≤◌, ◌+◌, ◌++◌, true, map, length, take, IfOk, IfErr};
ghost use Rattle.tptp_tree.specs.Term.{terms_of};
ghost use Rattle.tptp_tree.specs.Shape.{term_of};
ghost use Rattle.tptp_tree.specs.Formula.{formulas_of, predicate, equation, with_sign};
ghost use Rattle.signature.specs.Occurrences.{formula_symbols, formulas_symbols, term_symbols};
ghost use Rattle.signature.specs.Environment.{free_names};
ghost use Rattle.signature.specs.Clausal.{with_variables, with_skolem_terms};
ghost use Rattle.formula_nnf.specs.Shape.{nnf_tree};
ghost use Rattle.skolem.specs.Matrix.{literal, matrices_of};
ghost use Rattle.skolem.specs.Shape.{matrix_tree};
ghost use Rattle.skolem.specs.Skolemized.{skolemized, skolemized_list, numbers_after, skolemized_form, AreKnown};
ghost use Rattle.skolem.specs.Bindings.{HasVariables, Covers};
ghost use Rattle.skolem.specs.Heavy.{heavy_matrix, some_heavy, matrix_total, matrix_totals, total_in, IsMatrixEnd};
ghost use Rattle.skolem.specs.Progress.{environment_of, made_of, scope_of_progress, skolem_step, skolem_steps};

use crate::bound_term::BoundTerm;
use crate::clauses::are_in_clauses;
use crate::literal::{Atom, MatrixLiteral};
use crate::matrix::{Matrices, Matrix};
use crate::progress::{Arguments, Progress};
use fol_base::{MOST_FORM_SYMBOLS, MOST_SYMBOLS};
use formula_nnf::{Nnf, NnfBox};
use plain_types::{Mem, NoMemory, Text};
use signature::{Signature, arity_of};
use std::alloc::Global;
use std::rc::Rc;
use tptp_tree::{TreeTerm, TreeTerms};

/// How many arguments of Skolem terms are listed before too many symbols together end the work: numbers of 256 MiB. Forms within the limits may list
/// as many.
const MOST_LISTED_ARGUMENTS: u64 = 1 << 26;

/// The matrix of a normal form, and the numbers of arguments of its Skolem symbols.
#[derive(Drop)]
pub struct Skolemized<'a> {
    pub matrix: Matrix<'a>,
    pub arities: Vec<u32>,
}

/// Why there is no matrix.
#[derive(Clone, Copy, Debug)]
pub enum MatrixEnd {
    NoMemory,
    /// A literal in the clauses has over `MOST_SYMBOLS` symbols.
    TooHeavy,
    /// The literals in the clauses have over `MOST_FORM_SYMBOLS` symbols together.
    TotalLimit,
}

impl From<NoMemory> for MatrixEnd {
    ghost use Rattle.std.specs.Prelude.{◌≡◌};
    ghost use Rattle.skolem.specs.declared.forms.MatrixEnd.TheVariants.{NoMemory as no_memory};

    ghost from_gives = { λ _ e. e ≡ no_memory };

    fn from(_error: NoMemory) -> MatrixEnd {
        MatrixEnd::NoMemory
    }
}

/// The matrix of a normal form without free variables, over the signature with the form's Skolem symbols, which come after those that are
/// there. The matrix lends the signature and the form's terms, and makes none; `add_skolem_symbols` adds the symbols when it is done with.
/// The work ends at the first literal that makes a clause too heavy, or that makes all of them together too large where very many arguments are
/// listed, since a formula with many quantifiers would else keep as many lists of them.
pub fn skolemize<'a>(
    alloc: Global,
    form: &Nnf<'a>,
    signature: &'a Signature,
) -> Result<Skolemized<'a>, MatrixEnd>
    requires known { AreKnown signature.now (formula_symbols (nnf_tree form.now)) }
    ensures matrix { IfOk result (λ made. matrix_tree made.matrix ≡ (skolemized_form signature.now (nnf_tree form.now)).matrix) }
    ensures arities { IfOk result (λ made. made.arities.items ≡ (skolemized_form signature.now (nnf_tree form.now)).made.skolem_arities) }
    ensures ended { IfErr result (λ end. IsMatrixEnd end true 0
        (heavy_matrix (skolemized_form signature.now (nnf_tree form.now)).matrix)
        (matrix_total (skolemized_form signature.now (nnf_tree form.now)).matrix)) }
{
    let mut progress = Progress::new(alloc);
    let mut counted = 0;
    let matrix = matrix_of(alloc, signature, form, true, &mut counted, &mut progress)?;
    Ok(Skolemized {
        matrix,
        arities: progress.arities,
    })
}

/// The matrix of a form under the variables in force. Where the form stands in clauses (`in_clauses`), its literals that do so too are counted, and
/// the first that is too heavy, alone or (where many arguments are listed) with those before, ends the work.
#[cycle(matrix_of)]
fn matrix_of<'a>(
    alloc: Global,
    signature: &'a Signature,
    form: &Nnf<'a>,
    in_clauses: bool,
    counted: &mut u64,
    progress: &mut Progress,
) -> Result<Matrix<'a>, MatrixEnd>
    requires known { AreKnown signature.now (formula_symbols (nnf_tree form.now)) }
    ensures matrix { IfOk result (λ matrix. matrix_tree matrix
        ≡ (skolemized (numbers_after signature.now) (nnf_tree form.now) (environment_of progress.old.bindings) (made_of progress.old)).matrix) }
    ensures made { IfOk result (λ _. made_of progress.new
        ≡ (skolemized (numbers_after signature.now) (nnf_tree form.now) (environment_of progress.old.bindings) (made_of progress.old)).made) }
    ensures bindings { IfOk result (λ _. progress.new.bindings ≡ progress.old.bindings) }
    ensures counted { IfOk result (λ _. counted.new ≤ counted.old + total_in in_clauses
        (matrix_total (skolemized (numbers_after signature.now) (nnf_tree form.now) (environment_of progress.old.bindings) (made_of progress.old)).matrix)) }
    ensures ended { IfErr result (λ end. IsMatrixEnd end in_clauses counted.old
        (heavy_matrix (skolemized (numbers_after signature.now) (nnf_tree form.now) (environment_of progress.old.bindings) (made_of progress.old)).matrix)
        (matrix_total (skolemized (numbers_after signature.now) (nnf_tree form.now) (environment_of progress.old.bindings) (made_of progress.old)).matrix)) }
{
    match form {
        Nnf::True => Ok(Matrix::True),
        Nnf::False => Ok(Matrix::False),
        Nnf::Pred(positive, name, arguments) => {
            let literal = atom(alloc, signature, progress, *positive, name, arguments)?;
            of_literal(literal, in_clauses, progress.listed, counted)
        }
        Nnf::Equal(positive, left, right) => {
            let literal = equation(alloc, signature, progress, *positive, left, right)?;
            of_literal(literal, in_clauses, progress.listed, counted)
        }
        Nnf::And(forms) => {
            let forms = forms.as_slice();
            let members = matrices_of(alloc, signature, forms, in_clauses, counted, progress)?;
            Ok(Matrix::And(members))
        }
        Nnf::Or(forms) => {
            let made = progress.variables;
            let forms = forms.as_slice();
            let inside = are_in_clauses(in_clauses, forms);
            let members = matrices_of(alloc, signature, forms, inside, counted, progress)?;
            Ok(Matrix::Or { made, members })
        }
        Nnf::All(names, body) => {
            let before = progress.bindings.len();
            bind_variables(alloc, names.as_slice(), progress)?;
            let matrix = matrix_of(alloc, signature, body.get(), in_clauses, counted, progress)?;
            progress.bindings.truncate(before);
            Ok(matrix)
        }
        Nnf::Ex(names, body) => {
            let before = progress.bindings.len();
            bind_skolem_terms(alloc, signature, names.as_slice(), body, progress)?;
            let matrix = matrix_of(alloc, signature, body.get(), in_clauses, counted, progress)?;
            progress.bindings.truncate(before);
            Ok(matrix)
        }
    }
}

/// The matrices of forms.
#[cycle(matrix_of)]
fn matrices_of<'a>(
    alloc: Global,
    signature: &'a Signature,
    forms: &[Nnf<'a>],
    in_clauses: bool,
    counted: &mut u64,
    progress: &mut Progress,
) -> Result<Matrices<'a>, MatrixEnd>
    requires known { AreKnown signature.now (formulas_symbols (formulas_of (map nnf_tree forms.now))) }
    ensures matrices { IfOk result (λ matrices. matrices_of matrices
        ≡ (skolemized_list (numbers_after signature.now) (formulas_of (map nnf_tree forms.now)) (environment_of progress.old.bindings) (made_of progress.old)).matrices) }
    ensures made { IfOk result (λ _. made_of progress.new
        ≡ (skolemized_list (numbers_after signature.now) (formulas_of (map nnf_tree forms.now)) (environment_of progress.old.bindings) (made_of progress.old)).made) }
    ensures bindings { IfOk result (λ _. progress.new.bindings ≡ progress.old.bindings) }
    ensures counted { IfOk result (λ _. counted.new ≤ counted.old + total_in in_clauses
        (matrix_totals (skolemized_list (numbers_after signature.now) (formulas_of (map nnf_tree forms.now)) (environment_of progress.old.bindings) (made_of progress.old)).matrices)) }
    ensures ended { IfErr result (λ end. IsMatrixEnd end in_clauses counted.old
        (some_heavy (skolemized_list (numbers_after signature.now) (formulas_of (map nnf_tree forms.now)) (environment_of progress.old.bindings) (made_of progress.old)).matrices)
        (matrix_totals (skolemized_list (numbers_after signature.now) (formulas_of (map nnf_tree forms.now)) (environment_of progress.old.bindings) (made_of progress.old)).matrices)) }
{
    let mut matrices = Matrices::new(alloc);
    for form in forms {
        let matrix = matrix_of(alloc, signature, form, in_clauses, counted, progress)?;
        matrices.push(matrix)?;
    }
    Ok(matrices)
}

/// The matrix of a literal, which is counted where it stands in a clause; if it isn't too heavy for one, alone or with those before. Where few arguments
/// are listed (`listed`), too many symbols together don't end the work: literals share the lists, and the clauses tell the limit sooner than an outline.
fn of_literal<'a>(
    made: MatrixLiteral<'a>,
    in_clauses: bool,
    listed: u64,
    counted: &mut u64,
) -> Result<Matrix<'a>, MatrixEnd>
    ensures matrix { IfOk result (λ matrix. matrix_tree matrix ≡ literal made.entry) }
    ensures counted { IfOk result (λ _. counted.new ≤ counted.old + total_in in_clauses (matrix_total (literal made.entry))) }
    ensures ended { IfErr result (λ end. IsMatrixEnd end in_clauses counted.old
        (heavy_matrix (literal made.entry)) (matrix_total (literal made.entry))) }
{
    if in_clauses {
        let size = made.size();
        if size > MOST_SYMBOLS {
            return Err(MatrixEnd::TooHeavy);
        }
        *counted = counted.saturating_add(size);
        if *counted > MOST_FORM_SYMBOLS && listed > MOST_LISTED_ARGUMENTS {
            return Err(MatrixEnd::TotalLimit);
        }
    }
    Ok(Matrix::Lit(made))
}

/// A predicate's literal.
pub(crate) fn atom<'a>(
    alloc: Global,
    signature: &'a Signature,
    progress: &Progress,
    positive: bool,
    name: &'a Text,
    arguments: &'a TreeTerms,
) -> Mem<MatrixLiteral<'a>>
    requires known { AreKnown signature.now (formula_symbols (predicate name.now (terms_of arguments.now))) }
    ensures { IfOk result (λ made. literal made
        ≡ (skolemized (numbers_after signature.now) (with_sign positive (predicate name.now (terms_of arguments.now)))
        (environment_of progress.now.bindings) (made_of progress.now)).matrix) }
{
    let atom = Atom::Pred(name, arguments);
    MatrixLiteral::of_atom(alloc, signature, &progress.bindings, positive, atom)
}

/// An equation's literal.
pub(crate) fn equation<'a>(
    alloc: Global,
    signature: &'a Signature,
    progress: &Progress,
    positive: bool,
    left: &'a TreeTerm,
    right: &'a TreeTerm,
) -> Mem<MatrixLiteral<'a>>
    requires known { AreKnown signature.now (term_symbols (term_of left.now) ++ term_symbols (term_of right.now)) }
    ensures { IfOk result (λ made. literal made
        ≡ (skolemized (numbers_after signature.now) (equation positive (term_of left.now) (term_of right.now))
        (environment_of progress.now.bindings) (made_of progress.now)).matrix) }
{
    let atom = Atom::Equal(left, right);
    MatrixLiteral::of_atom(alloc, signature, &progress.bindings, positive, atom)
}

/// Each name is bound to a new variable.
pub(crate) fn bind_variables(alloc: Global, names: &[Text], progress: &mut Progress) -> Mem<()>
    ensures scope { IfOk result (λ _. scope_of_progress progress.new
        ≡ with_variables names.now (environment_of progress.old.bindings) (made_of progress.old)) }
    ensures bindings { IfOk result (λ _.
        take (length progress.old.bindings) progress.new.bindings ≡ progress.old.bindings) }
{
    for name in names {
        progress.bind_variable(alloc, name)?;
    }
    Ok(())
}

/// Each name is bound to a Skolem term, whose arguments are the variables in the terms of the form's other free variables. They are the
/// same for all names, since the terms of the earlier ones have no other variables.
pub(crate) fn bind_skolem_terms(
    alloc: Global,
    signature: &Signature,
    names: &[Text],
    body: &NnfBox<'_>,
    progress: &mut Progress,
) -> Mem<()>
    ensures scope { IfOk result (λ _. scope_of_progress progress.new
        ≡ with_skolem_terms (numbers_after signature.now) (free_names body.now) names.now (environment_of progress.old.bindings) (made_of progress.old)) }
    ensures bindings { IfOk result (λ _.
        take (length progress.old.bindings) progress.new.bindings ≡ progress.old.bindings) }
{
    let Arguments { variables, covers } = progress.arguments(alloc, names, body)?;
    let arguments = Rc::new(alloc, variables)?;
    bind_applied(alloc, signature, names, &arguments, covers, progress)
}

/// Each name is bound to the next Skolem symbol, applied to those variables. Those of the binding at the place `covers` are among them; it is
/// counted from 1, and 0 says nothing.
fn bind_applied(
    alloc: Global,
    signature: &Signature,
    names: &[Text],
    arguments: &Rc<Vec<u32>>,
    covers: usize,
    progress: &mut Progress,
) -> Mem<()>
    requires covers { Covers progress.old.bindings covers arguments.now.value.items }
    ensures scope { IfOk result (λ _. scope_of_progress progress.new
        ≡ skolem_steps (numbers_after signature.now) arguments.now.value.items names.now (scope_of_progress progress.old)) }
    ensures bindings { IfOk result (λ _.
        take (length progress.old.bindings) progress.new.bindings ≡ progress.old.bindings) }
{
    let mut first = 0;
    for name in names {
        bind_skolem_term(alloc, signature, arguments, name, first, covers, progress)?;
        if first == 0 {
            first = progress.bindings.len();
        }
    }
    Ok(())
}

/// Binds a name to the next Skolem symbol, applied to those variables. They are those of the binding at the place `alike`, and those of that at
/// `covers` are among them. Places are counted from 1; 0 says nothing.
fn bind_skolem_term(
    alloc: Global,
    signature: &Signature,
    arguments: &Rc<Vec<u32>>,
    name: &Text,
    alike: usize,
    covers: usize,
    progress: &mut Progress,
) -> Mem<()>
    requires alike { HasVariables progress.old.bindings alike arguments.now.value.items }
    requires covers { Covers progress.old.bindings covers arguments.now.value.items }
    ensures scope { IfOk result (λ _.
        scope_of_progress progress.new ≡ skolem_step (numbers_after signature.now) arguments.now.value.items name.now (scope_of_progress progress.old)) }
    ensures bindings { IfOk result (λ _.
        take (length progress.old.bindings) progress.new.bindings ≡ progress.old.bindings) }
    ensures last { IfOk result (λ _. HasVariables progress.new.bindings (length progress.new.bindings) arguments.now.value.items) }
{
    let made = progress.arities.as_slice();
    let symbol = next_symbol(signature, made.len())?;
    let arity = arity_of(arguments.as_slice().len())?;
    let term = BoundTerm::Skolem {
        symbol,
        arguments: arguments.clone()?,
    };
    progress.bind_term(alloc, name, term, arity, alike, covers)?;
    Ok(())
}

/// The number of the next Skolem symbol, after `count` more.
fn next_symbol(signature: &Signature, made: usize) -> Mem<u32>
    ensures { IfOk result (λ symbol. symbol ≡ length signature.now + made) }
{
    let known = u32::try_from(signature.len()).map_err(|_| NoMemory)?;
    let made = u32::try_from(made).map_err(|_| NoMemory)?;
    known.checked_add(made).ok_or(NoMemory)
}
