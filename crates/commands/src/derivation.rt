// The text of a refuted pool's derivation, which is one of the whole problem also where the pool began with a part of its clauses.

ghost use Rattle.std.specs.Prelude.{◌≡◌, ℕ, Some, IfOk, IsTrue};
ghost use Rattle.std.specs.Option.{option_copied};
ghost use Rattle.signature.specs.Form.{clausal_form};
ghost use Rattle.clausal_form.specs.DerivationTexts.{IsAcceptedDerivation};
ghost use Rattle.clausal_form.specs.Form.{form_of};
ghost use Rattle.axiom_filter.specs.Restriction.{reindexed};
ghost use Rattle.pool_history.specs.Outcomes.{outcome_of};
ghost use Rattle.pool_history.specs.Replay.{replay};
ghost use Rattle.pool_history.specs.declared.outcome.Outcome.TheVariants.{Refuted};
ghost use Rattle.pool_writer.specs.Refuted.{IsRefutationText};
ghost use Rattle.tstp_writer.specs.Printable.{IsShown};
ghost use Rattle.command_words.specs.Words.{is_filled};
ghost use Rattle.command_reports.specs.Names.{shown};
ghost use Rattle.command_reports.specs.Parts.{AreNumbered, IsNumberedPart, renumbered};
ghost use Rattle.commands.specs.AnswerShape.{IsAdmissible};

use crate::problem::FormedProblem;
use axiom_filter::reindex;
use command_reports::shown_name;
use plain_types::{Mem, Numbers, Text};
use pool_core::Pool;
use pool_writer::{write_refutation, write_steps};
use std::alloc::Global;

/// The text of a refuted pool's derivation, with the problem's file as it is shown. The numbers are those of the pool's inputs in the form, where
/// they are a part of it. The derivation is one from the whole form, and accepted.
pub fn derivation_text(
    alloc: Global,
    file: &str,
    formed: &FormedProblem,
    pool: &Pool,
    numbers: Option<&Numbers>,
) -> Mem<Text>
    requires filled { IsTrue (is_filled file.now) }
    requires admissible { IsAdmissible formed.now.problem.formulas }
    requires form { form_of formed.now.form ≡ clausal_form formed.now.problem.formulas }
    requires refuted { outcome_of (replay pool.now.origin pool.now.history) ≡ Some Refuted }
    requires numbered { AreNumbered formed.now.problem.formulas pool.now.origin.inputs (option_copied numbers) }
    ensures written { IfOk result (IsRefutationText (shown file.now) formed.now.problem.formulas
        (renumbered (option_copied numbers.entry) (replay pool.now.origin pool.now.history).lines)) }
    ensures accepted { IfOk result (λ text. (count : ℕ) × IsAcceptedDerivation formed.now.problem.formulas text count) }
{
    let name = shown_name(alloc, file)?;
    let name = name.as_slice();
    match numbers {
        None => write_refutation(alloc, &formed.problem, &formed.form, pool, name),
        Some(numbers) => part_derivation_text(alloc, formed, pool, numbers, name),
    }
}

/// The text of the derivation of a refuted pool that began with a part of the form, by the numbers of these clauses in it. It copies the
/// steps of the pool once.
fn part_derivation_text(
    alloc: Global,
    formed: &FormedProblem,
    pool: &Pool,
    numbers: &Numbers,
    name: &[u8],
) -> Mem<Text>
    requires admissible { IsAdmissible formed.now.problem.formulas }
    requires form { form_of formed.now.form ≡ clausal_form formed.now.problem.formulas }
    requires refuted { outcome_of (replay pool.now.origin pool.now.history) ≡ Some Refuted }
    requires numbered { IsNumberedPart formed.now.problem.formulas pool.now.origin.inputs numbers.now }
    requires shown { IsShown name.now }
    ensures written { IfOk result (IsRefutationText name.now formed.now.problem.formulas
        (reindexed numbers.now (replay pool.now.origin pool.now.history).lines)) }
    ensures accepted { IfOk result (λ text. (count : ℕ) × IsAcceptedDerivation formed.now.problem.formulas text count) }
{
    // The history is lawful, so what follows from it may be relied on.
    let _history = pool.history();
    let steps = reindex(alloc, pool.derivation(), numbers)?;
    write_steps(
        alloc,
        &formed.problem,
        &formed.form,
        pool.parts(),
        steps.as_slice(),
        name,
    )
}
