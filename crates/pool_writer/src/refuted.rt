// Refutations as texts, from their steps: of any steps, and of a refuted pool.

ghost use Rattle.std.specs.Prelude.{◌≡◌, ℕ, map, IfOk};
ghost use Rattle.fol_base.specs.Literal.{clause_of};
ghost use Rattle.tptp_tree.specs.ProblemSize.{HasProblemSize};
ghost use Rattle.signature.specs.Form.{clausal_form};
ghost use Rattle.clausal_form.specs.DerivationTexts.{IsAcceptedDerivation};
ghost use Rattle.clausal_form.specs.Form.{form_of};
ghost use Rattle.pool_history.specs.Outcomes.{outcome_of};
ghost use Rattle.pool_history.specs.Replay.{replay};
ghost use Rattle.pool_history.specs.declared.outcome.Outcome.TheVariants.{Refuted};
ghost use Rattle.split_parts.specs.SignedNames.{named};
ghost use Rattle.tstp_writer.specs.Printable.{IsShown};
ghost use Rattle.tstp_writer.specs.ProblemLaws.{ArePrintableEntries};
ghost use Rattle.pool_writer.specs.Refuted.{AreWritableSteps, IsRefutationText, IsTextOfSteps, IsWritableRefutation};

use crate::retrace::refutation;
use clausal_form::Clausal;
use kernel_steps::Step;
use plain_types::{Mem, Text};
use pool_core::Pool;
use pool_history::laws::{lines_are_derived, names_rise, refuted_is_refutation};
use split_parts::NameTable;
use std::alloc::Global;
use tptp_tree::Problem;
use tstp_writer::write_all_lines;

/// The text of a refuted pool's derivation: of the lines that its last one needs, with the formulas of the problem that they stand on.
/// The file is the name that is shown. It is an accepted derivation of the problem. Only the clauses of these lines are made.
pub fn write_refutation(
    alloc: Global,
    problem: &Problem,
    form: &Clausal,
    pool: &Pool,
    file: &[u8],
) -> Mem<Text>
    requires refuted { outcome_of (replay pool.now.origin pool.now.history) ≡ Some Refuted }
    requires form { form_of form.now ≡ clausal_form problem.now.formulas }
    requires inputs { map clause_of form.now.clauses ≡ pool.now.origin.inputs }
    requires size { HasProblemSize problem.now.formulas }
    requires printable { ArePrintableEntries problem.now.formulas }
    requires file { IsShown file.now }
    ensures written { IfOk result (IsRefutationText file.now problem.now.formulas (replay pool.now.origin pool.now.history).lines) }
    ensures accepted { IfOk result (λ text. (count : ℕ) × IsAcceptedDerivation problem.now.formulas text count) }
{
    prove_refuted(problem, form, pool);
    write_steps(alloc, problem, form, pool.parts(), pool.derivation(), file)
}

/// The text of the refutation that has these steps, whose names stand for the parts of the table: of the lines that the last one needs, with
/// the formulas of the problem that they stand on. The file is the name that is shown. It is an accepted derivation of the problem. Linear
/// in the steps by a byte each, and else in the text, with a logarithm for each parent.
pub fn write_steps(
    alloc: Global,
    problem: &Problem,
    form: &Clausal,
    parts: &NameTable,
    steps: &[Step],
    file: &[u8],
) -> Mem<Text>
    requires steps { AreWritableSteps problem.now.formulas (named parts.now.parts) steps.now }
    requires form { form_of form.now ≡ clausal_form problem.now.formulas }
    requires size { HasProblemSize problem.now.formulas }
    requires printable { ArePrintableEntries problem.now.formulas }
    requires file { IsShown file.now }
    ensures written { IfOk result (IsTextOfSteps file.now problem.now.formulas (named parts.now.parts) steps.now) }
    ensures accepted { IfOk result (λ text. (count : ℕ) × IsAcceptedDerivation problem.now.formulas text count) }
{
    let lines = refutation(alloc, &form.clauses, parts, steps)?;
    write_all_lines(alloc, problem, form, &lines, file)
}

/// The lines of a refuted pool are a refutation of the problem's form that can be written, and its names stand for the pool's parts.
fn prove_refuted(problem: &Problem, form: &Clausal, pool: &Pool)
    requires refuted { outcome_of (replay pool.now.origin pool.now.history) ≡ Some Refuted }
    requires form { form_of form.now ≡ clausal_form problem.now.formulas }
    requires inputs { map clause_of form.now.clauses ≡ pool.now.origin.inputs }
    ensures { let r = replay pool.now.origin pool.now.history in IsWritableRefutation problem.now.formulas (named r.parts) r.lines }
{
    let _ = pool.history();
    lines_are_derived();
    names_rise();
    refuted_is_refutation();
}
