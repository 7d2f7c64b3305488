// Lines of clauses by rules with parents.

ghost use Rattle.std.specs.Prelude.{◌≡◌, ◌&&◌, ◌==◌, false, not, map, zip, length, option_map, IfOk, IsTrue, if◌then◌else◌};
ghost use Rattle.std.specs.List.{list_all};
ghost use Rattle.fol_base.specs.Clause.{clause_eq};
ghost use Rattle.fol_base.specs.Literal.{clause_of};
ghost use Rattle.tptp_source.specs.Shape.{tree_of as general_of};
ghost use Rattle.kernel_steps.specs.Parents.{parent_of};
ghost use Rattle.kernel_steps.specs.Conclusion.{is_rule_step, verdict};
ghost use Rattle.kernel_steps.specs.Derivation.{is_component};
ghost use Rattle.clausal_form.specs.DerivationSteps.{bindings_count};
ghost use Rattle.clausal_form.specs.DerivationLine.{LineTree};
ghost use Rattle.kernel_steps.specs.FromTrees.{line_of};
ghost use Rattle.clausal_form.specs.DerivationParts.{line_kind, parent_lines};
ghost use Rattle.clausal_form.specs.DerivationCauses.{conclusion, new_symbol, refused, taken, is_bound, compared, given_by_rule};
ghost use Rattle.tstp_lines.specs.Steps.{kind_meant};
ghost use Rattle.tstp_checker.specs.Verdicts.{IsVerdict, IsClauseLine, IsConcluded};
ghost use Rattle.tstp_checker.specs.Lines.{setting_in, taken_in};

use crate::cause::Cause;
use crate::clause_lines::line_by;
use crate::lines::Lines;
use crate::refusal::Refusal;
use fol_base::{Clause, Terms, same_clause};
use kernel_steps::{LendsParents, Line, ParentRef, Step, StepFault, binds, conclusion};
use std::alloc::Global;
use tptp_source::GeneralTerm;
use tstp_lines::{Kind, LineParts, bindings_count, rule_step};

impl<'a> Lines<'a> {
    /// The conclusion of a rule from its parents.
    pub(crate) fn rule_line(
        &self,
        alloc: Global,
        kind: Kind<'_>,
        items: &[GeneralTerm],
        parents: &[u64],
        parts: LineParts,
    ) -> Result<Line, Refusal>
        ensures verdict { (t : LineTree) → line_kind t ≡ kind_meant kind.entry
            → IsClauseLine (setting_in self.now) (taken_in self.now) t (map general_of items.now) parents.now parts
            → IsVerdict (compared (setting_in self.now) (taken_in self.now) t (given_by_rule (setting_in self.now) (taken_in self.now) t)) result }
        ensures step { IfOk result (λ line. is_component line.step ≡ false) }
    {
        if !self.are_bound(kind, parents, parts.bindings.as_slice()) {
            return Err(Refusal::Cause(Cause::Binding));
        }
        let read = rule_step(
            alloc,
            kind,
            &self.taken.introduced,
            items,
            parents,
            parts.bindings,
        )?;
        let Some(step) = read else {
            return Err(Refusal::Cause(Cause::Rule));
        };
        match self.concluded(alloc, &step) {
            Ok(concluded) => line_if_same(&concluded, step, parts.clause, parts.has_new_symbol),
            Err(refusal) => Err(refusal),
        }
    }

    /// The conclusion of a step from the lines that were taken.
    fn concluded(&self, alloc: Global, step: &Step) -> Result<Clause, Refusal>
        requires { IsTrue (is_rule_step step.now) }
        ensures { IsConcluded step.now (verdict step.now (parent_lines (taken_in self.now))) result }
    {
        match conclusion(alloc, step, &self.taken.lines) {
            Ok(clause) => Ok(clause),
            Err(StepFault::Binding) => Err(Refusal::Cause(Cause::Binding)),
            Err(StepFault::Rule) => Err(Refusal::Cause(Cause::Rule)),
            Err(StepFault::NoMemory) => Err(Refusal::NoMemory),
        }
    }

    /// Whether there are as many bindings as the rule has, each right for its parent.
    fn are_bound(&self, kind: Kind<'_>, parents: &[u64], bindings: &[Option<Terms>]) -> bool
        ensures { result ≡ ((length bindings.now == bindings_count (kind_meant kind.entry))
            && list_all (λ b. is_bound b.0 (parent_lines (taken_in self.now) b.1)) (zip bindings.now parents.now)) }
    {
        bindings.len() == bindings_count(kind) && self.are_bound_to(parents, bindings)
    }

    /// Whether each binding is right for its parent.
    fn are_bound_to(&self, parents: &[u64], bindings: &[Option<Terms>]) -> bool
        ensures { result ≡ list_all (λ b. is_bound b.0 (parent_lines (taken_in self.now) b.1)) (zip bindings.now parents.now) }
    {
        let mut left = parents;
        for bind in bindings {
            let Some((place, others)) = left.split_first() else {
                return true;
            };
            if !is_bound(bind, self.taken.lines.parent(*place)) {
                return false;
            }
            left = others;
        }
        true
    }
}

/// The line of a clause, where that is what the step concludes.
fn line_if_same(
    concluded: &Clause,
    step: Step,
    clause: Clause,
    has_new_symbol: bool,
) -> Result<Line, Refusal>
    ensures verdict { IsVerdict (if not (clause_eq (clause_of concluded.now) (clause_of clause)) then refused conclusion
        else if has_new_symbol then refused new_symbol else taken (line_of step (clause_of concluded.now))) result }
    ensures line { IfOk result (λ line. line.step ≡ step) }
{
    if !same_clause(concluded, &clause) {
        return Err(Refusal::Cause(Cause::Conclusion));
    }
    line_by(step, clause, has_new_symbol)
}

/// Whether a binding is right for a parent; where no clause line is the parent, it isn't asked.
fn is_bound(bind: &Option<Terms>, parent: Option<ParentRef<'_>>) -> bool
    ensures { result ≡ is_bound bind.now (option_map parent_of parent.entry) }
{
    let Some(parent) = parent else {
        return true;
    };
    match bind {
        Some(bind) => binds(bind, parent.clause),
        None => false,
    }
}
