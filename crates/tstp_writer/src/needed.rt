// The steps that one step of a derivation needs: one pass from it backwards, since what a step needs is earlier.

ghost use Rattle.std.specs.Prelude.{◌≡◌, ◌<◌, ◌+◌, ◌||◌, ◌==◌, ℕ, [], length, IfOk, IsTrue};
ghost use Rattle.kernel_steps.specs.Lines.{step_parents};
ghost use Rattle.kernel_steps.specs.Marks.{is_marked, marked_numbers};
ghost use Rattle.kernel_steps.specs.declared.step.Step.{Step};
ghost use Rattle.tstp_writer.specs.Cone.{has_number, needs_step, NeedEarlier, NeedEarlierBy, IsCone, IsConeBy};
ghost use Rattle.tstp_writer.specs.Marks.{defines_one, has_step, IsAdded, IsVisited};

use crate::marks::mark;
use indexmap::IndexSet;
use kernel_steps::{Derivation, Line, Step, last_marked, marked};
use plain_types::{Mem, Numbers};
use std::alloc::Global;

/// An item that has a step: a step is its own, and a line has the step by which it comes.
pub trait HasStep {
    /// The step.
    ghost meaning: { Self → Step };

    /// The step.
    fn step(&self) -> &Step
        ensures { result.now ≡ meaning self.now };
}

impl HasStep for Step {
    ghost use Rattle.tstp_writer.specs.Cone.{itself};

    ghost meaning = { itself };

    fn step(&self) -> &Step {
        self
    }
}

impl HasStep for Line {
    ghost use Rattle.tstp_writer.specs.Cone.{step_of_line};

    ghost meaning = { step_of_line };

    fn step(&self) -> &Step {
        &self.step
    }
}

/// The lines that the line `last` needs, itself among them, rising: its parents and theirs, and for an opposite line the
/// component line of its name. Linear in the lines up to `last` and their parents.
pub fn cone(alloc: Global, lines: &Derivation, last: u64) -> Mem<Numbers>
    requires last { last < length lines.now }
    requires earlier { NeedEarlier lines.now }
    ensures { IfOk result (IsCone lines.now last) }
{
    cone_of(alloc, lines.as_slice(), last as usize)
}

/// The numbers of the steps that the step `last` needs: `cone` does this for lines. It takes a byte for each step up to `last`. Of a step
/// that isn't needed only the name that it introduces is looked at.
pub fn cone_of<S: HasStep>(alloc: Global, items: &[S], last: usize) -> Mem<Numbers>
    requires last { last < length items.now }
    requires earlier { NeedEarlierBy S.meaning items.now }
    ensures { IfOk result (IsConeBy S.meaning items.now last) }
{
    let mut marks = Marks::new(alloc, last)?;
    let mut left = last + 1;
    while left > 0 {
        left -= 1;
        marks.visit(left, items[left].step())?;
    }
    let numbers = marks.numbers(alloc)?;
    Ok(numbers)
}

/// The steps that are known to be needed: those that are marked, and the component steps of these names.
#[derive(Drop)]
struct Marks {
    steps: Vec<bool>,
    names: IndexSet<u32>,
}

impl Marks {
    /// The step `last` alone, of the steps up to it.
    fn new(alloc: Global, last: usize) -> Mem<Marks>
        ensures room { IfOk result (λ marks. length marks.steps.items ≡ last + 1) }
        ensures only { IfOk result (λ marks. (n : ℕ) → n < last + 1 → is_marked marks.steps.items n ≡ (last == n)) }
        ensures names { IfOk result (λ marks. marks.names.keys ≡ []) }
    {
        let steps = last_marked(alloc, last)?;
        Ok(Marks {
            steps,
            names: IndexSet::new(alloc),
        })
    }

    /// If a step is needed, marks it and its needs.
    fn visit(&mut self, place: usize, step: &Step) -> Mem<()>
        requires { place < length self.old.steps.items }
        ensures room { length self.new.steps.items ≡ length self.old.steps.items }
        ensures kept { (n : ℕ) → n < length self.old.steps.items
            → IsTrue (is_marked self.old.steps.items n) → IsTrue (is_marked self.new.steps.items n) }
        ensures settled { IfOk result (λ _. IsTrue (has_step self.new place step.now) → IsTrue (is_marked self.new.steps.items place)) }
        ensures visited { IfOk result (λ _. IsVisited place step.now self.old self.new) }
    {
        if self.has_step(place, step) {
            self.mark(place as u64);
            self.add_needed(step)?;
        }
        Ok(())
    }

    /// Whether a step is known to be needed.
    fn has_step(&self, place: usize, step: &Step) -> bool
        requires { place < length self.now.steps.items }
        ensures { result ≡ has_step self.now place step.now }
    {
        self.steps[place] || self.has_name(step)
    }

    /// Whether a step is the definition of one of the names.
    fn has_name(&self, step: &Step) -> bool
        ensures { result ≡ defines_one self.now.names.keys step.now }
    {
        match step {
            Step::Component(name) => self.names.contains(name),
            _ => false,
        }
    }

    /// Adds what a step needs.
    fn add_needed(&mut self, step: &Step) -> Mem<()>
        ensures room { length self.new.steps.items ≡ length self.old.steps.items }
        ensures kept { (n : ℕ) → n < length self.old.steps.items
            → IsTrue (is_marked self.old.steps.items n) → IsTrue (is_marked self.new.steps.items n) }
        ensures added { IfOk result (λ _. IsAdded step.now self.old self.new) }
    {
        match step {
            Step::Opposite(name) => {
                self.names.insert(*name)?;
            }
            _ => self.mark_parents(step),
        }
        Ok(())
    }

    /// Marks the parents of a step.
    fn mark_parents(&mut self, step: &Step)
        ensures room { length self.new.steps.items ≡ length self.old.steps.items }
        ensures marks { (n : ℕ) → n < length self.old.steps.items
            → is_marked self.new.steps.items n ≡ (is_marked self.old.steps.items n || has_number (step_parents step.now) n) }
        ensures names { self.new.names ≡ self.old.names }
    {
        for parent in step.parents() {
            self.mark(parent);
        }
    }

    /// Marks a step, where it is one of those up to the last.
    fn mark(&mut self, number: u64)
        ensures room { length self.new.steps.items ≡ length self.old.steps.items }
        ensures marks { (n : ℕ) → n < length self.old.steps.items
            → is_marked self.new.steps.items n ≡ (is_marked self.old.steps.items n || number == n) }
        ensures names { self.new.names ≡ self.old.names }
    {
        mark(&mut self.steps, number);
    }

    /// The numbers of the steps that are marked.
    fn numbers(&self, alloc: Global) -> Mem<Numbers>
        ensures { IfOk result (λ numbers. numbers ≡ marked_numbers 0 self.now.steps.items) }
    {
        marked(alloc, self.steps.as_slice())
    }
}
