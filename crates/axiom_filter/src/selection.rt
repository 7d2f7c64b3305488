// Which formulas a selection keeps.

ghost use Rattle.std.specs.Prelude.{◌≡◌, ◌<◌, ℕ, ◌==◌, ◌||◌, length, map, IfOk, slice_index_or};
ghost use Rattle.axiom_filter.specs.Places.{places_from};
ghost use Rattle.axiom_filter.specs.Selection.{is_goal as goal_is, is_goal_role, is_kept, kept_places};
ghost use Rattle.axiom_filter.specs.Tables.{is_marked, is_empty_row, row_of};
ghost use Rattle.tptp_tree.specs.declared.problem.Annotated.{Annotated as Formula};

use crate::index::symbol_index;
use crate::numbering::{Rows, numbered};
use crate::triggers::{rarest_counts, triggered};
use crate::walk::walk;
use kernel_steps::marked;
use plain_types::{Mem, Numbers};
use std::alloc::Global;
use tptp_tree::{Annotated, Problem, Role};

/// The places of the formulas that are kept, rising: the goals, the formulas without symbols, and those that are reached from the goals in at most
/// `depth` levels; without a goal all. The tolerance is in hundredths: at 100 a formula is triggered by its rarest symbols alone.
pub fn select(alloc: Global, problem: &Problem, tolerance: u32, depth: u32) -> Mem<Numbers>
    ensures { IfOk result (λ kept. kept ≡ kept_places tolerance depth problem.now.formulas) }
{
    let marks = kept_marks(alloc, problem.formulas.as_slice(), tolerance, depth)?;
    marked(alloc, marks.as_slice())
}

/// Which formulas are kept.
fn kept_marks(alloc: Global, formulas: &[Annotated], tolerance: u32, depth: u32) -> Mem<Vec<bool>>
    ensures { IfOk result (λ marks. marks.items ≡ map (is_kept tolerance depth formulas.now) formulas.now) }
{
    let goals = goal_places(alloc, formulas)?;
    let goals = goals.as_slice();
    let Rows { rows, symbols } = numbered(alloc, formulas)?;
    let rows = rows.as_slice();
    let index = symbol_index(alloc, rows, symbols)?;
    let index = index.as_slice();
    let rarest = rarest_counts(alloc, rows, index)?;
    let triggers = triggered(alloc, index, rarest.as_slice(), tolerance)?;
    let mut marks = walk(alloc, rows, triggers.as_slice(), goals, depth)?;
    mark_others(formulas, rows, goals.is_empty(), marks.as_mut_slice());
    Ok(marks)
}

/// The places of the goals, rising.
fn goal_places(alloc: Global, formulas: &[Annotated]) -> Mem<Numbers>
    ensures { IfOk result (λ goals. goals ≡ places_from 0 goal_is formulas.now) }
{
    let mut goals = Numbers::new(alloc);
    for place in 0..formulas.len() {
        if is_goal(formulas[place].role) {
            goals.push(place as u64)?;
        }
    }
    Ok(goals)
}

/// Marks what is kept besides the formulas that are taken: the goals and the formulas without symbols, or everything.
fn mark_others(formulas: &[Annotated], rows: &[Numbers], everything: bool, marks: &mut [bool])
    requires rows { length rows.now ≡ length formulas.now }
    requires marks { length marks.old ≡ length formulas.now }
    ensures { (n : ℕ) (d : Formula) → n < length formulas.now → is_marked marks.new n
        ≡ (everything || (goal_is (slice_index_or formulas.now n d) || (is_empty_row (row_of rows.now n) || is_marked marks.old n))) }
{
    for place in 0..formulas.len() {
        let keeps = everything || is_kept_always(&formulas[place], &rows[place]);
        if keeps {
            marks[place] = true;
        }
    }
}

/// Whether a formula is kept whatever is reached: a goal, or a formula without symbols.
fn is_kept_always(formula: &Annotated, row: &Numbers) -> bool
    ensures { result ≡ (goal_is formula.now || is_empty_row row.now) }
{
    is_goal(formula.role) || row.len() == 0
}

/// Whether a formula of that role is a goal: the conjecture, or what its negation became.
fn is_goal(role: Role) -> bool
    ensures { result ≡ is_goal_role role }
{
    matches!(role, Role::Conjecture | Role::NegatedConjecture)
}
