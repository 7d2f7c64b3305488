// The numbers of lines are those of machine words, as they must be to be read again: they are looked at once.

ghost use Rattle.std.specs.Prelude.{flat_map};
ghost use Rattle.std.specs.List.{AllByRecursion};
ghost use Rattle.fol_base.specs.Tree.{tree_variables};
ghost use Rattle.fol_base.specs.Literal.{clause_of};
ghost use Rattle.tstp_writer.specs.ReadableLines.{Fits, bound_by, line_variables, step_numbers, NumbersFit, LinesFit};

use kernel_steps::{Line, Step};
use plain_types::Numbers;

/// The numbers of lines can be read again.
pub(crate) fn prove_lines_fit(lines: &[Line])
    ensures { LinesFit lines.now }
{
    for line in lines {
        prove_line_fits(line);
    }
}

/// So can those of one line.
fn prove_line_fits(line: &Line)
    ensures { NumbersFit line.now.step (clause_of line.now.clause) }
{
    let _ = line.clause.variable_bound();
    prove_variables_fit(&line.step);
    prove_step_fits(&line.step);
}

/// So can the variables of what a step binds.
fn prove_variables_fit(step: &Step)
    ensures { AllByRecursion Fits (flat_map tree_variables (bound_by step.now)) }
{
    match step {
        Step::Para {
            first_bind,
            second_bind,
            ..
        } => {
            let _ = first_bind.variable_bound();
            let _ = second_bind.variable_bound();
        }
        Step::Refl { bind, .. } | Step::Factor { bind, .. } | Step::Merge { bind, .. } => {
            let _ = bind.variable_bound();
        }
        _ => {}
    }
}

/// So can the name that a step introduces, and the places in the parts of a split.
fn prove_step_fits(step: &Step)
    ensures { AllByRecursion Fits (step_numbers step.now) }
{
    match step {
        Step::Component(name) => {
            let _name = *name;
        }
        Step::Split { parts, .. } => prove_parts_fit(parts.as_slice()),
        _ => {}
    }
}

/// So can the numbers of lists.
fn prove_parts_fit(parts: &[Numbers])
    ensures { AllByRecursion Fits (flat_map (λ ns. ns) parts.now) }
{
    for part in parts {
        prove_numbers_fit(part.as_slice());
    }
}

/// So can numbers.
fn prove_numbers_fit(numbers: &[u64])
    ensures { AllByRecursion Fits numbers.now }
{
    for number in numbers {
        prove_number_fits(*number);
    }
}

/// So can one number.
fn prove_number_fits(number: u64)
    ensures { Fits number }
{
    let _ = number;
}
