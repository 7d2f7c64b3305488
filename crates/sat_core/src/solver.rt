// The solver: decisions, propagation and learning, until a model or a refutation is found.

ghost use Rattle.std.specs.Prelude.{◌≡◌, ◌*◌, ◌<◌, ◌≤◌, [], length, map, take, IfOk, IfSome, IfNone, MatchOption, IsTrue};
ghost use Rattle.std.specs.List.{list_any};
ghost use Rattle.sat_core.specs.Clause.{names_below, clauses_true, valuation_of};
ghost use Rattle.sat_core.specs.Answer.{AreAnswered, IsRightAnswer, IsRightLog};
ghost use Rattle.sat_core.specs.Trimming.{is_trimmed, has_trimmed_log};
ghost use Rattle.sat_core.specs.Trail.{is_true, place_of};
ghost use Rattle.sat_core.specs.State.{clause_at};
ghost use Rattle.sat_core.specs.Known.{known};
ghost use Rattle.sat_core.specs.Conflict.{AreWithin};
ghost use Rattle.sat_core.specs.Search.{IsConflict, HasNoTrue, AreAssigned, values_of};
ghost use Rattle.sat_core.specs.Solver.{IsState, IsRefuted, Keeps, Advances, Steps, IsBegun, inputs_of};

use crate::analysis::{Conflict, analyse};
use crate::answer::{Answer, Log, PropClauses, Truths};
use crate::clauses::Clauses;
use crate::forgetting::Forgetting;
use crate::marks::Marks;
use crate::models::{are_true, truths_over};
use crate::order::Order;
use crate::trail::{Assigned, Trail};
use crate::watches::Watches;
use plain_types::{Mem, NameLit};
use std::alloc::Global;

/// The state of the search.
#[derive(Drop)]
pub enum Step {
    /// Something was decided or learned.
    Going,
    /// Each clause has a true literal.
    Satisfied,
    /// The conflict's chain derives the empty clause.
    Refuted,
}

/// The state of the search.
#[derive(Drop)]
pub struct Solver<'a> {
    pub clauses: Clauses<'a>,
    pub trail: Trail,
    pub marks: Marks,
    pub conflict: Conflict,
    /// Room for the analysis of conflicts.
    pub indices: Vec<usize>,
    pub watches: Watches,
    pub order: Order,
    pub forgetting: Forgetting,
}

impl<'a> Solver<'a> {
    /// Nothing is decided yet.
    fn new(alloc: Global, inputs: &'a PropClauses, names: u32, first: &[bool]) -> Mem<Solver<'a>>
        requires { IsTrue (names_below names inputs.now) }
        ensures { IfOk result (IsBegun names inputs.now) }
    {
        let mut watches = Watches::new(alloc, names, inputs)?;
        for number in 0..inputs.len() {
            watches.add_input(alloc, number, inputs.get(number))?;
        }
        Ok(Solver {
            clauses: Clauses::new(alloc, inputs),
            trail: Trail::new(alloc, names as usize, first)?,
            marks: Marks::new(alloc, names as usize)?,
            conflict: Conflict::new(alloc),
            indices: Vec::new(alloc),
            watches,
            order: Order::new(alloc, names)?,
            forgetting: Forgetting::new(alloc, inputs.len())?,
        })
    }

    /// Turns a decision by what a false clause comes to, or ends where that is the empty clause.
    fn turn(&mut self, alloc: Global, number: usize) -> Mem<Step>
        requires state { IsState self.old }
        requires conflict { IsConflict (known self.old.clauses) self.old.trail.slots.items number }
        ensures { IfOk result (Steps self.old self.new) }
    {
        let (conflict, indices) = (&mut self.conflict, &mut self.indices);
        let (clauses, trail, marks) = (&self.clauses, &self.trail, &mut self.marks);
        let Some(turn) = analyse(conflict, indices, clauses, trail, marks, number)? else {
            return Ok(Step::Refuted);
        };
        self.order.bump(self.marks.literals.as_slice());
        self.order.put_back(&self.trail.entries[turn.cut..])?;
        self.trail.cut(turn.cut);
        self.watches.cut(turn.cut);
        let learned = self.clauses.len();
        let (links, clause) = (
            self.conflict.links.as_slice(),
            self.conflict.clause.as_slice(),
        );
        self.watches
            .add_learned(alloc, learned, &self.trail, clause, turn.literal)?;
        self.forgetting
            .note(alloc, &self.clauses, &mut self.watches, number, links)?;
        self.clauses.learn(number, links, clause)?;
        let (literal, reason) = (turn.literal, Some(learned));
        self.trail.push(Assigned { literal, reason })?;
        Ok(Step::Going)
    }

    /// Makes true what is implied; gives a clause all of whose literals are false, where there is one.
    fn propagate(&mut self) -> Mem<Option<usize>>
        requires { IsState self.old }
        ensures keeps { IfOk result (λ _. Keeps self.old self.new) }
        ensures conflict { IfOk result (λ found. IfSome found (IsConflict (known self.new.clauses) self.new.trail.slots.items)) }
    {
        self.watches.propagate(&self.clauses, &mut self.trail)
    }

    /// Decides a literal without a value.
    fn decide(&mut self, literal: NameLit) -> Mem<()>
        requires state { IsState self.old }
        requires named { literal.name < length self.old.trail.slots.items }
        requires free { place_of self.old.trail.slots.items literal ≡ 0 }
        ensures { IfOk result (λ _. Advances self.old self.new) }
    {
        let reason = None;
        self.trail.push(Assigned { literal, reason })?;
        Ok(())
    }

    /// The number of an input clause that has no true literal.
    fn unsatisfied(&self) -> Option<usize>
        requires { IsState self.now }
        ensures none { IfNone result (IsTrue (clauses_true (valuation_of (values_of self.now.trail.slots.items)) (inputs_of self.now))) }
        ensures within { IfSome result (λ n. n < length (known self.now.clauses)) }
        ensures no_true { IfSome result (λ n. HasNoTrue self.now.trail.slots.items (clause_at (known self.now.clauses) n)) }
    {
        for number in 0..self.clauses.inputs.len() {
            if !has_true_literal(&self.trail, self.clauses.literals(number)) {
                return Some(number);
            }
        }
        None
    }

    /// Goes on with a clause that has no true literal: decides one of its literals, or turns a decision where all
    /// of them are false.
    fn resume(&mut self, alloc: Global, number: usize) -> Mem<Step>
        requires state { IsState self.old }
        requires within { number < length (known self.old.clauses) }
        requires no_true { HasNoTrue self.old.trail.slots.items (clause_at (known self.old.clauses) number) }
        ensures { IfOk result (Steps self.old self.new) }
    {
        match free_literal(&self.trail, self.clauses.literals(number)) {
            Some(literal) => {
                self.decide(literal)?;
                Ok(Step::Going)
            }
            None => self.turn(alloc, number),
        }
    }

    /// The next literal to be decided.
    fn next(&mut self) -> Option<NameLit>
        requires { IsState self.old }
        ensures keeps { Keeps self.old self.new }
        ensures named { IfSome result (λ l. l.name < length self.new.trail.slots.items) }
        ensures free { IfSome result (λ l. place_of self.new.trail.slots.items l ≡ 0) }
    {
        self.order.next(&self.trail)
    }

    /// Decides the next literal; where none is left, looks whether each input clause is true.
    fn choose(&mut self, alloc: Global) -> Mem<Step>
        requires { IsState self.old }
        ensures { IfOk result (Steps self.old self.new) }
    {
        if let Some(literal) = self.next() {
            self.decide(literal)?;
            return Ok(Step::Going);
        }
        match self.unsatisfied() {
            Some(number) => self.resume(alloc, number),
            None => Ok(Step::Satisfied),
        }
    }

    /// Makes true what is implied, and then decides a literal or turns a decision.
    fn step(&mut self, alloc: Global) -> Mem<Step>
        requires { IsState self.old }
        ensures { IfOk result (Steps self.old self.new) }
    {
        match self.propagate()? {
            Some(conflict) => self.turn(alloc, conflict),
            None => self.choose(alloc),
        }
    }

    /// The values that the trail gives.
    fn truths(&self, alloc: Global) -> Mem<Truths>
        ensures { IfOk result (λ truths. truths ≡ values_of self.now.trail.slots.items) }
    {
        let mut truths = Vec::with_capacity(alloc, self.trail.slots.len())?;
        for slot in &self.trail.slots {
            truths.push(slot.place > 0 && slot.positive)?;
        }
        Ok(Truths::from_vec(truths))
    }

    /// The log of what the empty clause needs.
    fn log(&mut self, alloc: Global) -> Mem<Log>
        requires { IsRefuted self.old }
        ensures right { IfOk result (IsRightLog (inputs_of self.old)) }
        ensures trimmed { IfOk result (λ log. IsTrue (is_trimmed (length (inputs_of self.old)) log)) }
    {
        let (start, links) = (self.conflict.start, self.conflict.links.as_slice());
        self.clauses.refutation(alloc, start, links)
    }
}

/// Whether one of the literals is true.
fn has_true_literal(trail: &Trail, literals: &[NameLit]) -> bool
    requires { AreWithin (length trail.now.slots.items) literals.now }
    ensures { result ≡ list_any (is_true trail.now.slots.items) literals.now }
{
    for literal in literals {
        if trail.is_true(*literal) {
            return true;
        }
    }
    false
}

/// A literal without a value.
fn free_literal(trail: &Trail, literals: &[NameLit]) -> Option<NameLit>
    requires { AreWithin (length trail.now.slots.items) literals.now }
    ensures named { IfSome result (λ l. l.name < length trail.now.slots.items) }
    ensures free { IfSome result (λ l. place_of trail.now.slots.items l ≡ 0) }
    ensures none { IfNone result (AreAssigned trail.now.slots.items literals.now) }
{
    for literal in literals {
        if trail.place(*literal) == 0 {
            return Some(*literal);
        }
    }
    None
}

/// Finds truth values that make every clause true, or a log of resolutions that derives the empty clause. It
/// learns clauses (Marques-Silva and Sakallah 1996) at the first unique implication point (Zhang and others
/// 2001) and makes them smaller (Sörensson and Biere 2009), watches two literals of each clause, forgets learned
/// clauses that it hasn't used for long, doesn't restart, and always ends. The clauses are borrowed.
pub fn solve(alloc: Global, clauses: &PropClauses, names: u32) -> Mem<Answer>
    requires { IsTrue (names_below names clauses.now) }
    ensures right { IfOk result (IsRightAnswer names clauses.now) }
    ensures trimmed { IfOk result (λ answer. IsTrue (has_trimmed_log (length clauses.now) answer)) }
{
    let no_values = [];
    solve_from(alloc, clauses, names, &no_values)
}

/// As `solve`, with the value that each name is to be tried with first, as those of an earlier model: what isn't given
/// is false. This is a hint, on which only the time and the choice among right answers rest. Where these values make
/// every clause true, they are answered after a look at each clause.
pub fn solve_from(alloc: Global, clauses: &PropClauses, names: u32, first: &[bool]) -> Mem<Answer>
    requires { IsTrue (names_below names clauses.now) }
    ensures right { IfOk result (IsRightAnswer names clauses.now) }
    ensures holds { IsTrue (clauses_true (valuation_of first.now) clauses.now) → IfOk result (AreAnswered names first.now) }
    ensures trimmed { IfOk result (λ answer. IsTrue (has_trimmed_log (length clauses.now) answer)) }
{
    let truths = truths_over(alloc, names, first)?;
    if are_true(clauses, 0, truths.as_slice()) {
        return Ok(Answer::Model(truths));
    }
    search(alloc, clauses, names, first)
}

/// The answer of the search, which tries these values first.
fn search(alloc: Global, clauses: &PropClauses, names: u32, first: &[bool]) -> Mem<Answer>
    requires { IsTrue (names_below names clauses.now) }
    ensures right { IfOk result (IsRightAnswer names clauses.now) }
    ensures trimmed { IfOk result (λ answer. IsTrue (has_trimmed_log (length clauses.now) answer)) }
{
    let mut solver = Solver::new(alloc, clauses, names, first)?;
    loop {
        match solver.step(alloc)? {
            Step::Going => {}
            Step::Satisfied => return Ok(Answer::Model(solver.truths(alloc)?)),
            Step::Refuted => return Ok(Answer::Refuted(solver.log(alloc)?)),
        }
    }
}
