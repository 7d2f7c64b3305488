// The lines of batches among those of a pool: their parents get the numbers of the pool's lines.

ghost use Rattle.std.specs.Prelude.{◌≡◌, ◌+◌, ◌≤◌, ◌<◌, ◌^◌, ◌++◌, map, length, All, IsTrue, vec_len, vec_capacity};
ghost use Rattle.std.specs.List.{AllByRecursion, list_all};
ghost use Rattle.kernel_steps.specs.Lines.{is_plain_step, step_parents};
ghost use Rattle.kernel_steps.specs.declared.step.Line.{Line};
ghost use Rattle.kernel_steps.specs.declared.step.TheConstants.{CLAUSE_NUMBERS};
ghost use Rattle.pool_history.specs.Lines.{line_number, with_parents};
ghost use Rattle.pool_core.specs.Placing.{HasParentsBelow};
ghost use Rattle.pool_core.specs.Started.{registered_at};

use clause_register::Register;
use kernel_steps::{CLAUSE_NUMBERS, Derivation, Line, Step};

/// Adds the steps of a batch's lines, among which nothing is split. Their parents are registered clauses and lines of the batch. There
/// is room for them.
pub(crate) fn place_steps(steps: &mut Vec<Step>, register: &Register, lines: Derivation)
    requires room { vec_len steps.old + length lines ≤ vec_capacity steps.old }
    requires plain { IsTrue (list_all (λ (l : Line). is_plain_step l.step) lines) }
    requires parents { All (HasParentsBelow (CLAUSE_NUMBERS + length lines)) lines }
    ensures steps { let registered = map registered_at register.now.clauses in steps.new.items
        ≡ steps.old.items ++ map (λ (l : Line). with_parents (line_number registered (length steps.old.items)) l.step) lines }
    ensures len { vec_len steps.new ≡ vec_len steps.old + length lines }
    ensures room { vec_capacity steps.new ≡ vec_capacity steps.old }
{
    let first = steps.len() as u64;
    for line in lines.into_vec() {
        steps.push_reserved(placed(line.step, register, first));
    }
}

/// The step with the numbers of lines in place of its parents, where the batch's first line gets the number `first`.
fn placed(step: Step, register: &Register, first: u64) -> Step
    requires plain { IsTrue (is_plain_step step) }
    requires numbers { AllByRecursion (λ n. first + n < 2 ^ 64) (step_parents step) }
    ensures { result ≡ with_parents (line_number (map registered_at register.now.clauses) first) step }
{
    step.map_parents(|parent| line_number(register, first, parent))
}

/// The number of the line that a parent in a batch is.
fn line_number(register: &Register, first: u64, parent: u64) -> u64
    requires { first + parent < 2 ^ 64 }
    ensures { result ≡ line_number (map registered_at register.now.clauses) first parent }
{
    if parent >= CLAUSE_NUMBERS {
        first + (parent - CLAUSE_NUMBERS)
    } else if parent < register.len() as u64 {
        register.get(parent as usize).line
    } else {
        0
    }
}
