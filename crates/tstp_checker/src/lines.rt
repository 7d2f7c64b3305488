// The lines of a derivation that were taken, and the verdict on a line more.

ghost use Rattle.std.specs.Prelude.{◌≡◌, ◌+◌, IfOk, OnErr, length};
ghost use Rattle.fol_base.specs.Clause.{clause_eq};
ghost use Rattle.fol_base.specs.Literal.{clause_of};
ghost use Rattle.kernel_steps.specs.Conclusion.{empty_clause};
ghost use Rattle.clausal_form.specs.Form.{form_of};
ghost use Rattle.clausal_form.specs.DerivationSteps.{kind_of};
ghost use Rattle.clausal_form.specs.DerivationLine.{nothing_taken, names_with};
ghost use Rattle.clausal_form.specs.DerivationLines.{ends_empty, is_empty_clause_line};
ghost use Rattle.clausal_form.specs.DerivationCauses.{line_verdict};
ghost use Rattle.tptp_source.specs.SourceShape.{source_of};
ghost use Rattle.tstp_checker.specs.Taken.{IsNext, introduced_by};
ghost use Rattle.tstp_checker.specs.Verdicts.{IsVerdict, IfAnswered, AreParents};
ghost use Rattle.tstp_checker.specs.Lines.{line_meant, setting_in, taken_in, IsReady, IsJudged};

use crate::cause::Cause;
use crate::classes::Classes;
use crate::inputs::Inputs;
use crate::refusal::Refusal;
use crate::taken::TakenLines;
use clausal_form::Clausal;
use fol_base::Clause;
use kernel_steps::Line;
use plain_types::{Mem, NoMemory, Numbers};
use std::alloc::Global;
use tptp_source::Source;
use tptp_tree::Annotated;
use tstp_lines::{Kind, LineNumbers, kind_of, parent_names};

/// The lines that were taken, with what further lines are judged by: the problem, its clausal form, and the names that lines introduced.
#[derive(Drop)]
pub(crate) struct Lines<'a> {
    pub inputs: Inputs<'a>,
    pub classes: Classes,
    pub form: &'a Clausal,
    pub numbers: LineNumbers,
    pub taken: TakenLines,
}

impl<'a> Lines<'a> {
    /// No lines, over the formulas of a problem and its form.
    pub(crate) fn new(alloc: Global, formulas: &'a [Annotated], form: &'a Clausal) -> Mem<Lines<'a>>
        ensures ready { IfOk result IsReady }
        ensures problem { IfOk result (λ lines. (setting_in lines).problem ≡ formulas.now) }
        ensures form { IfOk result (λ lines. (setting_in lines).form ≡ form_of form.now) }
        ensures taken { IfOk result (λ lines. taken_in lines ≡ nothing_taken) }
    {
        let inputs = Inputs::new(alloc, formulas)?;
        let classes = Classes::new(alloc, &inputs)?;
        Ok(Lines {
            inputs,
            classes,
            form,
            numbers: LineNumbers::of_form(alloc, &form.signature)?,
            taken: TakenLines::new(alloc),
        })
    }

    /// Judges a line: none where it is taken, and else the first cause for which it is refused; the lines then stand as they were. After
    /// out of memory nothing more is said.
    pub(crate) fn judge(
        &mut self,
        alloc: Global,
        entry: &Annotated,
        source: &Source,
    ) -> Mem<Option<Cause>>
        requires ready { IsReady self.old }
        ensures judged { IfOk result (λ cause.
            IsJudged (setting_in self.old) (taken_in self.old) (line_meant entry.now source.now) cause (taken_in self.new)) }
        ensures ready { IfOk result (λ _. IsReady self.new) }
        ensures setting { setting_in self.new ≡ setting_in self.old }
    {
        match self.verdict(alloc, entry, source) {
            Ok(line) => {
                self.taken.add(alloc, entry.name.as_slice(), line)?;
                Ok(None)
            }
            Err(Refusal::Cause(cause)) => Ok(Some(cause)),
            Err(Refusal::NoMemory) => Err(NoMemory),
        }
    }

    /// The line, where it is taken; the name that it introduces is then introduced.
    fn verdict(
        &mut self,
        alloc: Global,
        entry: &Annotated,
        source: &Source,
    ) -> Result<Line, Refusal>
        requires ready { IsReady self.old }
        ensures verdict { IsVerdict (line_verdict (setting_in self.old) (taken_in self.old) (line_meant entry.now source.now)) result }
        ensures numbers { IfAnswered result (self.new.numbers ≡ self.old.numbers) }
        ensures introduced { IfOk result (λ _. self.new.taken.introduced ≡ names_with self.old.taken.introduced (kind_of (source_of source.now))) }
        ensures unchanged { OnErr result (IfAnswered result (self.new.taken.introduced ≡ self.old.taken.introduced)) }
        ensures next { IfOk result (λ line. IsNext (length self.old.taken.introduced) line.step) }
        ensures count { IfOk result (λ line. length self.new.taken.introduced ≡ length self.old.taken.introduced + introduced_by line.step) }
        ensures names { self.new.taken.names ≡ self.old.taken.names }
        ensures lines { self.new.taken.lines ≡ self.old.taken.lines }
        ensures components { self.new.taken.components ≡ self.old.taken.components }
        ensures inputs { self.new.inputs ≡ self.old.inputs }
        ensures classes { self.new.classes ≡ self.old.classes }
        ensures form { self.new.form ≡ self.old.form }
    {
        let kind = kind_of(source);
        match kind {
            Kind::Component(name) => self.component_verdict(alloc, entry, name),
            Kind::Input | Kind::Negate => self.formula_verdict(alloc, kind, entry, source),
            _ => self.clause_verdict(alloc, kind, entry, source),
        }
    }

    /// How many lines were taken.
    pub(crate) fn len(&self) -> usize
        ensures { result ≡ length (taken_in self.now).lines }
    {
        self.taken.lines.len()
    }

    /// Whether the last line is a clause line with the empty clause.
    pub(crate) fn ends_empty(&self) -> bool
        ensures { result ≡ ends_empty (taken_in self.now).lines }
    {
        match self.taken.lines.as_slice().last() {
            Some(line) => is_empty_clause(line),
            None => false,
        }
    }

    /// The places of the parents of a line whose name is new.
    pub(crate) fn parents(
        &self,
        alloc: Global,
        entry: &Annotated,
        source: &Source,
    ) -> Result<Numbers, Refusal>
        requires { IsReady self.now }
        ensures { AreParents (taken_in self.now) (line_meant entry.now source.now) result }
    {
        if self.taken.has(entry.name.as_slice()) {
            return Err(Refusal::Cause(Cause::Order));
        }
        match self.taken.places(alloc, parent_names(source))? {
            Some(places) => Ok(places),
            None => Err(Refusal::Cause(Cause::UnknownParent)),
        }
    }
}

/// Whether a line is a clause line with the empty clause.
fn is_empty_clause(line: &Line) -> bool
    ensures { result ≡ is_empty_clause_line line.now }
{
    line.step.is_clause_step() && is_empty(&line.clause)
}

/// Whether a clause is the empty one.
fn is_empty(clause: &Clause) -> bool
    ensures { result ≡ clause_eq (clause_of clause.now) empty_clause }
{
    clause.literals.is_empty() && clause.names.is_empty()
}
