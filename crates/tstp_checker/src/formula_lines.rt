// Lines of formulas: those of the problem, and the negation of the conjecture.

ghost use Rattle.std.specs.Prelude.{◌≡◌, [], false, codes, is_some, map, option_map, IfOk, IsTrue};
ghost use Rattle.tptp_tree.specs.Formula.{negation};
ghost use Rattle.tptp_tree.specs.Shape.{formula_of};
ghost use Rattle.tptp_source.specs.Shape.{tree_of as general_of};
ghost use Rattle.tptp_source.specs.SourceShape.{source_of};
ghost use Rattle.kernel_steps.specs.Conclusion.{empty_clause};
ghost use Rattle.kernel_steps.specs.Derivation.{is_component};
ghost use Rattle.clausal_form.specs.DerivationItems.{row_arguments};
ghost use Rattle.clausal_form.specs.DerivationSteps.{kind_of};
ghost use Rattle.clausal_form.specs.DerivationLine.{same_formula};
ghost use Rattle.kernel_steps.specs.FromTrees.{line_of};
ghost use Rattle.clausal_form.specs.DerivationParts.{parents_of};
ghost use Rattle.clausal_form.specs.DerivationCauses.{is_formula_kind, given_by_file, given_by_negate, compared, line_verdict};
ghost use Rattle.tstp_lines.specs.Steps.{kind_meant};
ghost use Rattle.tstp_checker.specs.Verdicts.{IsVerdict};
ghost use Rattle.tstp_checker.specs.FormulaLines.{cited_at, conjecture_of, lent_conjecture};
ghost use Rattle.tstp_checker.specs.Lines.{line_meant, setting_in, taken_in, IsReady};

use crate::cause::Cause;
use crate::entries::Entry;
use crate::lines::Lines;
use crate::refusal::Refusal;
use fol_base::{Clause, Literals};
use kernel_steps::{Line, Step};
use plain_types::{Mem, Names};
use std::alloc::Global;
use tptp_source::{GeneralTerm, Source};
use tptp_tree::{Annotated, Formula, same_formula};
use tstp_lines::{Kind, is_plain_word, items_of, row_arguments};

impl<'a> Lines<'a> {
    /// The verdict on a line of a formula.
    pub(crate) fn formula_verdict(
        &self,
        alloc: Global,
        kind: Kind<'_>,
        entry: &Annotated,
        source: &Source,
    ) -> Result<Line, Refusal>
        requires ready { IsReady self.now }
        requires kind { kind_meant kind ≡ kind_of (source_of source.now) }
        requires formula { IsTrue (is_formula_kind (kind_meant kind)) }
        ensures verdict { IsVerdict (line_verdict (setting_in self.now) (taken_in self.now) (line_meant entry.now source.now)) result }
        ensures step { IfOk result (λ line. is_component line.step ≡ false) }
    {
        let parents = self.parents(alloc, entry, source)?;
        match kind {
            Kind::Input => self.input_line(alloc, entry, source),
            _ => self.negate_line(alloc, entry, source, parents.as_slice()),
        }
    }

    /// A formula of the problem.
    fn input_line(&self, alloc: Global, entry: &Annotated, source: &Source) -> Result<Line, Refusal>
        requires { IsReady self.now }
        ensures verdict { IsVerdict (compared (setting_in self.now) (taken_in self.now) (line_meant entry.now source.now)
            (given_by_file (setting_in self.now) (line_meant entry.now source.now) (source_of source.now))) result }
        ensures step { IfOk result (λ line. is_component line.step ≡ false) }
    {
        match self.cited_place(entry, source) {
            Some(place) => Ok(formula_line(alloc, Step::Input(place))),
            None => Err(Refusal::Cause(Cause::Leaf)),
        }
    }

    /// The place of the formula of the problem that a source names.
    fn cited_place(&self, entry: &Annotated, source: &Source) -> Option<u32>
        requires { IsReady self.now }
        ensures { result ≡ cited_at (setting_in self.now) (line_meant entry.now source.now) (source_of source.now) }
    {
        let Source::File { file, name } = source else {
            return None;
        };
        if !is_plain_word(file) {
            return None;
        }
        self.inputs.place_of(Entry {
            name: name.as_slice(),
            role: entry.role,
            clause: entry.clause,
            formula: &entry.formula,
        })
    }

    /// The negation of the conjecture.
    fn negate_line(
        &self,
        alloc: Global,
        entry: &Annotated,
        source: &Source,
        parents: &[u64],
    ) -> Result<Line, Refusal>
        requires { parents.now ≡ parents_of (taken_in self.now) (line_meant entry.now source.now) }
        ensures verdict { IsVerdict (compared (setting_in self.now) (taken_in self.now) (line_meant entry.now source.now)
            (given_by_negate (setting_in self.now) (taken_in self.now) (line_meant entry.now source.now))) result }
        ensures step { IfOk result (λ line. is_component line.step ≡ false) }
    {
        if !has_negate_row(alloc, items_of(source))? {
            return Err(Refusal::Cause(Cause::Rule));
        }
        let Some(conjecture) = self.conjecture(parents) else {
            return Err(Refusal::Cause(Cause::Rule));
        };
        if !is_negation_of(&entry.formula, conjecture.formula) {
            return Err(Refusal::Cause(Cause::Conclusion));
        }
        Ok(formula_line(alloc, Step::Negate(conjecture.place)))
    }

    /// The conjecture, where it is the only parent.
    fn conjecture(&self, parents: &[u64]) -> Option<Conjecture<'_>>
        ensures { option_map lent_conjecture result ≡ conjecture_of (setting_in self.now) (taken_in self.now) parents.now }
    {
        let Step::Input(place) = self.taken.only_step(parents)? else {
            return None;
        };
        let entry = self.inputs.formulas.get(*place as usize)?;
        if !entry.role.is_conjecture() {
            return None;
        }
        Some(Conjecture {
            place: *place,
            formula: &entry.formula,
        })
    }
}

/// The conjecture with its place in the problem.
#[derive(Clone, Copy)]
struct Conjecture<'a> {
    place: u32,
    formula: &'a Formula,
}

/// A line of a formula.
fn formula_line(alloc: Global, step: Step) -> Line
    ensures { result ≡ line_of step empty_clause }
{
    Line {
        step,
        clause: Clause {
            literals: Literals::new(alloc),
            names: Names::new(alloc),
        },
    }
}

/// Whether items are those of a negate line.
fn has_negate_row(alloc: Global, items: &[GeneralTerm]) -> Mem<bool>
    ensures { IfOk result (λ there. there ≡ is_some (row_arguments (codes "cth") [] (map general_of items.now))) }
{
    match row_arguments(alloc, b"cth", &[], items)? {
        Some(_) => Ok(true),
        None => Ok(false),
    }
}

/// Whether a formula is the negation of another.
fn is_negation_of(formula: &Formula, negated: &Formula) -> bool
    ensures { result ≡ same_formula (negation (formula_of negated.now)) (formula_of formula.now) }
{
    match formula {
        Formula::Not(body) => same_formula(negated, body.get()),
        _ => false,
    }
}
