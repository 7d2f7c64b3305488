// The first stages of each command: a problem is read and brought to clausal form.

ghost use Rattle.std.specs.Prelude.{◌≡◌, ◌≤◌, IfOk, IfErr};
ghost use Rattle.std.specs.Option.{option_copied};
ghost use Rattle.clausal_form.specs.Form.{form_of};
ghost use Rattle.command_reports.specs.Outside.{outside_by};
ghost use Rattle.command_reports.specs.Meaning.{FormMeans};
ghost use Rattle.commands.specs.Problems.{source_at};
ghost use Rattle.commands.specs.AnswerShape.{IsFormedFrom, IsReadFrom, IsStop, IsStopReport};

use clausal_form::{Clausal, FormCause, FormFault, clausal};
use command_reports::Report;
use outside::Library;
use plain_types::{Mem, NoMemory, Text};
use std::alloc::Global;
use tptp_problem::read_problem;
use tptp_reader::{ReadCause, ReadFault};
use tptp_tree::Problem;

/// A problem with its clausal form.
#[derive(Drop)]
pub struct FormedProblem {
    pub problem: Problem,
    pub form: Clausal,
}

/// Why a command ends before its work begins.
#[derive(Drop)]
pub enum Stop {
    NoMemory,
    /// The problem isn't read, for a cause in a file at a place.
    Unread(ReadCause, Text, u32),
    /// The problem has no clausal form, because of the formula of a name.
    Unformed(FormCause, Text),
}

impl Stop {
    /// The report on the problem in a file; out of memory has none of its own.
    pub fn report(&self, alloc: Global, file: &str) -> Mem<Report>
        ensures { IfOk result (λ report. IsStopReport file.now self.now report.status report.text) }
    {
        match self {
            Stop::NoMemory => Err(NoMemory),
            Stop::Unread(cause, name, place) => Report::unread(alloc, file, *cause, name, *place),
            Stop::Unformed(cause, name) => Report::unformed(alloc, file, *cause, name),
        }
    }
}

/// Reads the problem of a file, which is one that the later stages take.
fn problem_in<L: Library>(
    alloc: Global,
    library: &mut L,
    file: &str,
    root: Option<&str>,
) -> Result<Problem, Stop>
    ensures read { IfOk result (IsReadFrom (L.told library.old)
        (source_at file.now (option_copied root.entry))) }
    ensures stopped { IfErr result (IsStop
        (outside_by L.told L.faults L.found L.failed library.old library.new)
        (source_at file.now (option_copied root.entry))) }
    ensures told { L.told library.new ≡ L.told library.old }
    ensures later { L.faults library.old ≤ L.faults library.new }
{
    match read_problem(alloc, library, file, root) {
        Ok(problem) => Ok(problem),
        Err(ReadFault::NoMemory) => Err(Stop::NoMemory),
        Err(ReadFault::At(cause, name, place)) => Err(Stop::Unread(cause, name, place)),
    }
}

/// Reads the problem of a file, and brings it to clausal form, which means the same in finite interpretations.
pub fn formed_problem<L: Library>(
    alloc: Global,
    library: &mut L,
    file: &str,
    root: Option<&str>,
) -> Result<FormedProblem, Stop>
    ensures formed { IfOk result (IsFormedFrom (L.told library.old)
        (source_at file.now (option_copied root.entry))) }
    ensures means { IfOk result (λ formed. FormMeans formed.problem.formulas (form_of formed.form)) }
    ensures stopped { IfErr result (IsStop
        (outside_by L.told L.faults L.found L.failed library.old library.new)
        (source_at file.now (option_copied root.entry))) }
    ensures told { L.told library.new ≡ L.told library.old }
    ensures later { L.faults library.old ≤ L.faults library.new }
{
    let problem = problem_in(alloc, library, file, root)?;
    match clausal(alloc, &problem) {
        Ok(form) => Ok(FormedProblem { problem, form }),
        Err(FormFault::NoMemory) => Err(Stop::NoMemory),
        Err(FormFault::Refused(cause, name)) => Err(Stop::Unformed(cause, name)),
    }
}
