// Problems of texts, and pools that begin with the clauses of their forms.

ghost use Rattle.std.specs.Prelude.{◌≡◌, map};
ghost use Rattle.tptp_tree.specs.ProblemSize.{HasProblemSize};
ghost use Rattle.fol_base.specs.Literal.{clause_of};
ghost use Rattle.term_bank.specs.Bank.{identity};
ghost use Rattle.term_bank.specs.Table.{IsTableOf};
ghost use Rattle.pool_history.specs.Inputs.{AreInputs};

use clausal_form::clausal;
use fol_base::Clauses;
use literal_selection::Selection;
use outside::{Files, MemFile, SureLibrary};
use pool_core::{Options, Pool};
use std::alloc::Global;
use std::process::Abort;
use std::sync::Wait;
use term_bank::{Bank, Table};
use tptp_problem::read_problem;
use tptp_tree::Problem;

/// The problem of a text, which has to be one.
pub(crate) fn problem_of(rt: &impl Abort, alloc: Global, text: &[u8]) -> Problem
    ensures { HasProblemSize result.formulas }
{
    let file = MemFile::new(alloc, "a.p", text).expect(rt, "memory");
    let mut files = Files::new(alloc);
    files.push(file).expect(rt, "memory");
    let mut library = SureLibrary::new(files);
    match read_problem(alloc, &mut library, "a.p", None) {
        Ok(problem) => problem,
        Err(_) => rt.panic("no problem"),
    }
}

/// The clauses of the form of a text.
fn inputs_of(rt: &impl Abort, alloc: Global, text: &[u8]) -> Clauses
    ensures { AreInputs (map clause_of result) }
{
    let problem = problem_of(rt, alloc, text);
    match clausal(alloc, &problem) {
        Ok(form) => form.clauses,
        Err(_) => rt.panic("no form"),
    }
}

/// A pool of the clauses of a text, which aren't split.
pub(crate) fn pool_of<R: Wait + Abort>(
    rt: &R,
    alloc: Global,
    bank: &Bank,
    table: Table,
    text: &[u8],
) -> Pool
    requires { IsTableOf bank.now table }
    ensures { result.bank ≡ identity bank.now }
{
    let inputs = inputs_of(rt, alloc, text);
    let options = Options {
        select: Selection::Negative,
        split: false,
        inferences: 100,
    };
    Pool::new(rt, alloc, bank, table, &inputs, options).expect(rt, "memory")
}
