// The ground list of a derivation.

ghost use Rattle.std.specs.Prelude.{◌≡◌, ◌<◌, ◌≤◌, ◌++◌, length, map, IfOk, IfErr};
ghost use Rattle.fol_base.specs.Literal.{clause_of};
ghost use Rattle.herbrand_list.specs.Demands.{terms_for};
ghost use Rattle.herbrand_list.specs.GroundList.{speaks_of_names, is_clausify, names_line, demanded_instance, instances_at, instances_below, ground_list, weight};
ghost use Rattle.herbrand_list.specs.declared.fault.TheConstants.{MOST_WEIGHT};
ghost use Rattle.herbrand_list.specs.Worked.{constant_tree, ParentsAreEarlier, IsListed, listed, SaysLarge};
ghost use Rattle.herbrand_list.specs.Answer.{nameless};

use crate::demands::DemandList;
use crate::fault::GroundFault;
use crate::put_in::{PutIn, put_literals};
use fol_base::Clauses;
use kernel_steps::{Line, Step};
use plain_types::Mem;
use std::alloc::Global;

/// The ground list of lines without names, over a constant that stands for variables without a term.
pub(crate) fn list_of_lines(
    alloc: Global,
    constant: u32,
    lines: &[Line],
) -> Result<Clauses, GroundFault>
    requires some { 0 < length lines.now }
    requires earlier { ParentsAreEarlier lines.now }
    ensures light { IfOk result (λ _. weight (constant_tree constant) lines.now ≤ MOST_WEIGHT) }
    ensures list { IfOk result (λ list. map clause_of list ≡ map nameless (ground_list (constant_tree constant) lines.now)) }
    ensures large { IfErr result (SaysLarge (weight (constant_tree constant) lines.now)) }
{
    let demands = DemandList::of_lines(alloc, constant, lines)?;
    let list = instances(alloc, constant, lines, &demands)?;
    Ok(list)
}

/// The demanded instances of the lines that bring in clauses of the form, from the last line to the first.
fn instances(alloc: Global, constant: u32, lines: &[Line], demands: &DemandList) -> Mem<Clauses>
    requires { IsListed constant lines.now demands.now }
    ensures { IfOk result (λ list. map clause_of list
        ≡ map nameless (instances_below (constant_tree constant) lines.now (listed demands.now) (length lines.now))) }
{
    let mut list = Clauses::new(alloc);
    for number in (0..lines.len()).rev() {
        push_line(alloc, constant, lines, demands, number, &mut list)?;
    }
    Ok(list)
}

/// Adds the demanded instances of a line, where it brings in a clause of the form.
fn push_line(
    alloc: Global,
    constant: u32,
    lines: &[Line],
    demands: &DemandList,
    number: usize,
    list: &mut Clauses,
) -> Mem<()>
    requires there { number < length lines.now }
    requires listed { IsListed constant lines.now demands.now }
    ensures { IfOk result (λ _. map clause_of list.new
        ≡ map clause_of list.old ++ map nameless (instances_at (constant_tree constant) lines.now (listed demands.now) number)) }
{
    if !is_clausify(&lines[number].step) {
        return Ok(());
    }
    push_instances(alloc, constant, lines, demands, number, list)
}

/// Adds the demanded instances of a line in order of arrival.
fn push_instances(
    alloc: Global,
    constant: u32,
    lines: &[Line],
    demands: &DemandList,
    number: usize,
    list: &mut Clauses,
) -> Mem<()>
    requires there { number < length lines.now }
    requires listed { IsListed constant lines.now demands.now }
    ensures { IfOk result (λ _. map clause_of list.new ≡ map clause_of list.old
        ++ map nameless (map (demanded_instance (constant_tree constant) lines.now number) (terms_for number (listed demands.now)))) }
{
    let literals = lines[number].clause.literals.as_slice();
    for index in 0..demands.count(number) {
        let put = PutIn {
            constant,
            terms: demands.terms_of(number, index),
        };
        list.push(put_literals(alloc, &put, literals)?)?;
    }
    Ok(())
}

/// The first line that speaks of names, counted from 1.
pub(crate) fn names_line(lines: &[Line]) -> Option<u64>
    ensures { result ≡ names_line lines.now }
{
    for index in 0..lines.len() {
        if speaks_of_names(&lines[index].step) {
            return Some(index as u64 + 1);
        }
    }
    None
}

/// Whether a step is of a line that speaks of names.
fn speaks_of_names(step: &Step) -> bool
    ensures { result ≡ speaks_of_names step.now }
{
    matches!(
        step,
        Step::Component(_) | Step::Opposite(_) | Step::Split { .. } | Step::Chain { .. }
    )
}

/// Whether a step brings in a clause of the form.
fn is_clausify(step: &Step) -> bool
    ensures { result ≡ is_clausify step.now }
{
    matches!(step, Step::Clausify(_))
}
