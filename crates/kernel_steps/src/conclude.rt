// The conclusion of a step.

ghost use Rattle.std.specs.Prelude.{◌≡◌, ◌-◌, ◌^◌, min, not, nat_le, map, sum_by, IsTrue, IfOk, IfErr};
ghost use Rattle.std.specs.List.{list_all};
ghost use Rattle.std.specs.Option.{option_map};
ghost use Rattle.fol_base.specs.Tree.{is_truth};
ghost use Rattle.fol_base.specs.Term.{tree_of};
ghost use Rattle.fol_base.specs.Clause.{literal_size, clause_size};
ghost use Rattle.fol_base.specs.Ground.{literals_instance};
ghost use Rattle.fol_base.specs.Literal.{literal_of, clause_of};
ghost use Rattle.fol_base.specs.Rules.{superposed, resolved, factored, merged};
ghost use Rattle.kernel_steps.specs.Parents.{parent_of};
ghost use Rattle.fol_base.specs.declared.limits.TheConstants.{MOST_BOUND_SYMBOLS};
ghost use Rattle.kernel_steps.specs.Conclusion.{bound_clause, binds, binds_parent, verdict, verdict_of, clause_with, by_one, by_two, is_rule_step, IsAnswerTo, IsRefusal};

use crate::chain::chain;
use crate::names::{sorted_names, united_names};
use crate::parents::{LendsParents, ParentRef};
use crate::rules::{self, Bound};
use crate::split::split;
use crate::step::{Step, StepFault};
use fol_base::{
    Clause, LendsLiterals, LendsTerms, Literals, MOST_BOUND_SYMBOLS, Position, Side, Term, Terms,
    instance_size,
};
use plain_types::{NameLit, Names};
use std::alloc::Global;

/// The conclusion of a step from its parents, for para, refl, factor, merge, split and chain: the literals that the
/// rule gives, with the parents' names, sorted and each once. `Binding` exactly where a parent that is there has
/// a binding that isn't right; else `Rule` exactly where a parent isn't there or the rule's condition fails.
pub fn conclusion<P: LendsParents>(
    alloc: Global,
    step: &Step,
    parents: &P,
) -> Result<Clause, StepFault>
    requires { IsTrue (is_rule_step step.now) }
    ensures { IsAnswerTo (verdict step.now (P.meaning parents.now)) result }
{
    match step {
        Step::Para {
            first,
            second,
            from,
            from_side,
            into,
            into_side,
            place,
            first_bind,
            second_bind,
        } => conclude_para(
            alloc,
            parents.parent(*first),
            first_bind,
            *from,
            *from_side,
            parents.parent(*second),
            second_bind,
            *into,
            *into_side,
            place,
        ),
        Step::Refl {
            parent,
            literal,
            bind,
        } => conclude_refl(alloc, parents.parent(*parent), bind, *literal),
        Step::Factor {
            parent,
            becomes,
            becomes_side,
            other,
            other_side,
            bind,
        } => conclude_factor(
            alloc,
            parents.parent(*parent),
            bind,
            *becomes,
            *becomes_side,
            *other,
            *other_side,
        ),
        Step::Merge {
            parent,
            stays,
            goes,
            bind,
        } => conclude_merge(alloc, parents.parent(*parent), bind, *stays, *goes),
        Step::Split {
            parent,
            definitions,
            parts,
        } => match parents.parent(*parent) {
            Some(parent) => split(
                alloc,
                parent,
                parents,
                definitions.as_slice(),
                parts.as_slice(),
            ),
            None => Err(StepFault::Rule),
        },
        Step::Chain {
            parents: numbers,
            pivots,
        } => chain(alloc, parents, numbers.as_slice(), pivots.as_slice()),
        _ => unreachable!(),
    }
}

fn conclude_para(
    alloc: Global,
    first: Option<ParentRef<'_>>,
    first_bind: &Terms,
    from: u64,
    from_side: Side,
    second: Option<ParentRef<'_>>,
    second_bind: &Terms,
    into: u64,
    into_side: Side,
    place: &Position,
) -> Result<Clause, StepFault>
    ensures { IsAnswerTo
        (by_two (option_map parent_of first.entry) first_bind.now (option_map parent_of second.entry) second_bind.now
        (λ ls ks. superposed ls from from_side ks into into_side place.now))
        result }
{
    if !binds_parent(first, first_bind) || !binds_parent(second, second_bind) {
        return Err(StepFault::Binding);
    }
    let Some(first) = first else {
        return Err(StepFault::Rule);
    };
    let Some(second) = second else {
        return Err(StepFault::Rule);
    };
    let made = rules::para(
        alloc,
        &bound(first, first_bind),
        from,
        from_side,
        &bound(second, second_bind),
        into,
        into_side,
        place,
    )?;
    match made {
        None => Err(StepFault::Rule),
        Some(literals) => {
            let names = united_names(
                alloc,
                first.clause.names.as_slice(),
                second.clause.names.as_slice(),
            )?;
            Ok(with_names(literals, names))
        }
    }
}

fn conclude_refl(
    alloc: Global,
    parent: Option<ParentRef<'_>>,
    bind: &Terms,
    literal: u64,
) -> Result<Clause, StepFault>
    ensures { IsAnswerTo (by_one (option_map parent_of parent.entry) bind.now (λ ls. resolved ls literal)) result }
{
    let parent = bound_parent(parent, bind)?;
    let made = rules::refl(alloc, &bound(parent, bind), literal)?;
    concluded(alloc, parent, made)
}

fn conclude_factor(
    alloc: Global,
    parent: Option<ParentRef<'_>>,
    bind: &Terms,
    becomes: u64,
    becomes_side: Side,
    other: u64,
    other_side: Side,
) -> Result<Clause, StepFault>
    ensures { IsAnswerTo
        (by_one (option_map parent_of parent.entry) bind.now (λ ls. factored ls becomes becomes_side other other_side))
        result }
{
    let parent = bound_parent(parent, bind)?;
    let made = rules::factor(
        alloc,
        &bound(parent, bind),
        becomes,
        becomes_side,
        other,
        other_side,
    )?;
    concluded(alloc, parent, made)
}

fn conclude_merge(
    alloc: Global,
    parent: Option<ParentRef<'_>>,
    bind: &Terms,
    stays: u64,
    goes: u64,
) -> Result<Clause, StepFault>
    ensures { IsAnswerTo (by_one (option_map parent_of parent.entry) bind.now (λ ls. merged ls stays goes)) result }
{
    let parent = bound_parent(parent, bind)?;
    let made = rules::merge(alloc, &bound(parent, bind), stays, goes)?;
    concluded(alloc, parent, made)
}

/// The literals that a rule gave of one parent, with its names.
fn concluded(
    alloc: Global,
    parent: ParentRef<'_>,
    made: Option<Literals>,
) -> Result<Clause, StepFault>
    ensures { IsAnswerTo
        (verdict_of (option_map (clause_with (clause_of parent.entry.clause.now).names) (option_map (map literal_of) made)))
        result }
{
    match made {
        None => Err(StepFault::Rule),
        Some(literals) => {
            let names = sorted_names(alloc, parent.clause.names.as_slice())?;
            Ok(with_names(literals, names))
        }
    }
}

fn with_names(literals: Literals, names: Vec<NameLit>) -> Clause
    ensures literals { result.literals ≡ literals }
    ensures names { result.names ≡ names.items }
{
    Clause {
        literals,
        names: Names::from_vec(names),
    }
}

/// The literals of a parent under its binding.
fn bound<'a>(parent: ParentRef<'a>, bind: &'a Terms) -> Bound<'a, Literals, Terms>
    ensures literals { result.literals.now ≡ parent.entry.clause.now.literals }
    ensures bind { result.bind.now ≡ bind.entry.now }
{
    Bound {
        literals: &parent.clause.literals,
        bind,
    }
}

/// The parent, where it is there and its binding is right. `Binding` exactly where it is there and the binding isn't.
fn bound_parent<'a>(parent: Option<ParentRef<'a>>, bind: &Terms) -> Result<ParentRef<'a>, StepFault>
    ensures ok { IfOk result (λ found. (parent.entry ≡ Some found) × IsTrue (binds bind.now (clause_of found.clause.now))) }
    ensures err { IfErr result (λ fault. IsRefusal bind.now (option_map parent_of parent.entry) fault) }
{
    match parent {
        Some(found) => {
            if binds(bind, found.clause) {
                Ok(found)
            } else {
                Err(StepFault::Binding)
            }
        }
        None => Err(StepFault::Rule),
    }
}

/// Whether the binding of a parent is right, if the parent is there.
fn binds_parent(parent: Option<ParentRef<'_>>, bind: &Terms) -> bool
    ensures { result ≡ binds_parent bind.now (option_map parent_of parent.entry) }
{
    match parent {
        Some(found) => binds(bind, found.clause),
        None => true,
    }
}

/// Whether a binding is right for a clause: it has a term for each of its variables, none of them `$true`, and doesn't make it
/// too large.
pub fn binds(bind: &Terms, clause: &Clause) -> bool
    ensures { result ≡ binds bind.now (clause_of clause.now) }
{
    bind.len() as u64 == clause.variable_bound()
        && has_no_truth(bind.as_slice())
        && is_small(clause, bind)
}

/// Whether no term is `$true`.
fn has_no_truth(terms: &[Term]) -> bool
    ensures { result ≡ list_all (λ t. not (is_truth t)) (map tree_of terms.now) }
{
    terms.iter().all(|term| !term.is_truth())
}

/// Whether a clause under a binding isn't too large.
fn is_small(clause: &Clause, bind: &Terms) -> bool
    ensures { result ≡ nat_le (clause_size (bound_clause bind.now (clause_of clause.now))) MOST_BOUND_SYMBOLS }
{
    bound_size(&clause.literals, bind) <= MOST_BOUND_SYMBOLS
}

/// The size of literals under a binding, stopping at u64's last value.
pub fn bound_size<L: LendsLiterals, S: LendsTerms>(literals: &L, bind: &S) -> u64
    ensures { result ≡ min (sum_by literal_size (literals_instance (S.meaning bind.now) (L.meaning literals.now))) (2 ^ 64 - 1) }
{
    let mut total: u64 = 0;
    for index in 0..literals.count() {
        let literal = literals.literal(index);
        total = total
            .saturating_add(instance_size(literal.left, bind))
            .saturating_add(instance_size(literal.right, bind));
    }
    total
}
