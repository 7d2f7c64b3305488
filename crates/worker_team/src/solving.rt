// The solver's job: an answer for the propositional clauses of a ticket. A worker keeps the last model that it gave, since clauses are only
// added: where it makes those true that came since, it is still a model, and the solver needn't be asked.

ghost use Rattle.std.specs.Prelude.{◌≡◌, List, length, IfOk, IsTrue};
ghost use Rattle.sat_core.specs.Answer.{AreAnswered, IsRightAnswer};
ghost use Rattle.sat_core.specs.Clause.{PropClause, clauses_true, names_below, valuation_of};
ghost use Rattle.worker_team.specs.Solving.{IsLastAfter, IsModelOfFirst};

use plain_types::{Mem, NameLit};
use pool_core::PropTicket;
use sat_core::{Answer, Truths, are_true, solve_from, truths_over};
use std::alloc::Global;

/// The last model that a worker gave.
#[derive(Drop)]
pub struct LastModel {
    /// The values of names; a name without one is false.
    pub truths: Truths,
    /// How many propositional clauses it is of: the first ones.
    pub clauses: usize,
}

/// An answer, and the last model after it.
#[derive(Drop)]
pub struct Solved {
    pub answer: Answer,
    pub last: LastModel,
}

impl LastModel {
    /// Every name is false. That is a model of no clauses. It takes no memory.
    pub fn new(alloc: Global) -> LastModel
        ensures { (clauses : List PropClause) → IsModelOfFirst clauses result }
    {
        LastModel {
            truths: Truths::new(alloc),
            clauses: 0,
        }
    }
}

/// Answers a ticket. Where the last model, with false for new names, makes its clauses true, that is the answer, after a look at the clauses
/// that came since. Else the solver tries its values first. After an out-of-memory error the last model is gone.
pub fn solve_ticket(alloc: Global, ticket: &PropTicket, last: LastModel) -> Mem<Solved>
    requires names { IsTrue (names_below ticket.now.names ticket.now.clauses) }
    requires last { IsModelOfFirst ticket.now.clauses last }
    ensures right { IfOk result (λ solved. IsRightAnswer ticket.now.names ticket.now.clauses solved.answer) }
    ensures kept { IsTrue (clauses_true (valuation_of last.truths) ticket.now.clauses)
        → IfOk result (λ solved. AreAnswered ticket.now.names last.truths solved.answer) }
    ensures last { IfOk result (λ solved. IsModelOfFirst ticket.now.clauses solved.last) }
    ensures held { IfOk result (λ solved. IsLastAfter ticket.now.clauses last solved.answer solved.last) }
{
    let answer = answer_to(alloc, ticket, &last)?;
    let last = last_after(alloc, ticket, last, &answer)?;
    Ok(Solved { answer, last })
}

/// The last model extended, where it holds; or mended, where that holds; or what the solver answers.
fn answer_to(alloc: Global, ticket: &PropTicket, last: &LastModel) -> Mem<Answer>
    requires names { IsTrue (names_below ticket.now.names ticket.now.clauses) }
    requires last { IsModelOfFirst ticket.now.clauses last.now }
    ensures right { IfOk result (IsRightAnswer ticket.now.names ticket.now.clauses) }
    ensures kept { IsTrue (clauses_true (valuation_of last.now.truths) ticket.now.clauses)
        → IfOk result (AreAnswered ticket.now.names last.now.truths) }
{
    let values = last.truths.as_slice();
    if are_true(&ticket.clauses, last.clauses, values) {
        let truths = truths_over(alloc, ticket.names, values)?;
        return Ok(Answer::Model(truths));
    }
    let mended = mended(alloc, ticket, last)?;
    if are_true(&ticket.clauses, 0, mended.as_slice()) {
        return Ok(Answer::Model(mended));
    }
    solve_from(alloc, &ticket.clauses, ticket.names, values)
}

/// The last model extended by false, but for the last new name of each new clause that is false so far: it makes that clause true. A clause
/// over names mostly has a new one, since it comes with new parts.
fn mended(alloc: Global, ticket: &PropTicket, last: &LastModel) -> Mem<Truths>
    ensures { IfOk result (λ truths. length truths ≡ ticket.now.names) }
{
    let known = last.truths.as_slice();
    let mut values = truths_over(alloc, ticket.names, known)?.into_vec();
    for number in last.clauses..ticket.clauses.len() {
        mend(&mut values, ticket.clauses.get(number), known.len());
    }
    Ok(Truths::from_vec(values))
}

/// Where a clause is false, the last of its names from a number on gets the value that makes it true.
fn mend(values: &mut Vec<bool>, clause: &[NameLit], from: usize)
    ensures { length values.new.items ≡ length values.old.items }
{
    if is_true(values.as_slice(), clause) {
        return;
    }
    let new = clause
        .iter()
        .rev()
        .find(|literal| from <= literal.name as usize);
    if let Some(literal) = new {
        if let Some(value) = values.get_mut(literal.name as usize) {
            *value = literal.positive;
        }
    }
}

/// Whether one of a clause's literals is true.
fn is_true(values: &[bool], clause: &[NameLit]) -> bool {
    clause.iter().any(|literal| values.get(literal.name as usize) == Some(&literal.positive))
}

/// The model of a right answer, or the last one where that is a refutation.
fn last_after(
    alloc: Global,
    ticket: &PropTicket,
    last: LastModel,
    answer: &Answer,
) -> Mem<LastModel>
    requires last { IsModelOfFirst ticket.now.clauses last }
    requires right { IsRightAnswer ticket.now.names ticket.now.clauses answer.now }
    ensures last { IfOk result (IsModelOfFirst ticket.now.clauses) }
    ensures held { IfOk result (IsLastAfter ticket.now.clauses last answer.now) }
{
    match answer {
        Answer::Model(truths) => Ok(LastModel {
            truths: truths.copy(alloc)?,
            clauses: ticket.clauses.len(),
        }),
        Answer::Refuted(_) => Ok(last),
    }
}
