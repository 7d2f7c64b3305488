// What a line demands, and how heavy it is.

ghost use Rattle.std.specs.Prelude.{◌≡◌, ◌+◌, ◌-◌, ◌<◌, ◌≤◌, ◌^◌, min, map, IfOk, IfErr, IsTrue};
ghost use Rattle.fol_base.specs.Instance.{Substitution, instance};
ghost use Rattle.fol_base.specs.Term.{tree_of};
ghost use Rattle.fol_base.specs.Ground.{literals_instance};
ghost use Rattle.herbrand_list.specs.Demands.{demanded_by};
ghost use Rattle.herbrand_list.specs.GroundList.{ground_size, literals_at};
ghost use Rattle.herbrand_list.specs.declared.fault.TheConstants.{MOST_WEIGHT};
ghost use Rattle.herbrand_list.specs.Worked.{constant_tree, putting, demand_of, demand_weight, AreSizes, bound_demand, SaysThat, SaysLarge, OneIsLarge};

use crate::fault::{GroundFault, MOST_WEIGHT};
use crate::put_in::{PutIn, put_terms};
use crate::sizes::{bound_sizes, literals_size, sizes_of};
use fol_base::Terms;
use kernel_steps::{Line, Step};
use plain_types::Sequence;
use std::alloc::Global;

/// A line with a ground term for each of its variables.
#[derive(Drop)]
pub(crate) struct Demanded {
    pub line: u64,
    pub terms: Terms,
}

/// What a step demands under these terms. A demand that is too large by itself is never built.
pub(crate) fn demanded_parents(
    alloc: Global,
    put: &PutIn<'_>,
    lines: &[Line],
    step: &Step,
) -> Result<Sequence<Demanded>, GroundFault>
    ensures made { IfOk result (λ made. map demand_of made
        ≡ demanded_by (constant_tree put.now.constant) step.now (map tree_of put.now.terms.now)) }
    ensures large { IfErr result (SaysThat (OneIsLarge (constant_tree put.now.constant) lines.now
        (demanded_by (constant_tree put.now.constant) step.now (map tree_of put.now.terms.now)))) }
{
    let sizes = sizes_of(alloc, put.terms)?;
    let sizes = sizes.as_slice();
    let mut made = Sequence::new(alloc);
    match step {
        Step::Para {
            first,
            second,
            first_bind,
            second_bind,
            ..
        } => {
            made.push(demanded_parent(alloc, put, lines, sizes, *first, first_bind)?)?;
            made.push(demanded_parent(alloc, put, lines, sizes, *second, second_bind)?)?;
            Ok(made)
        }
        Step::Refl { parent, bind, .. } => {
            made.push(demanded_parent(alloc, put, lines, sizes, *parent, bind)?)?;
            Ok(made)
        }
        Step::Factor { parent, bind, .. } => {
            made.push(demanded_parent(alloc, put, lines, sizes, *parent, bind)?)?;
            Ok(made)
        }
        Step::Merge { parent, bind, .. } => {
            made.push(demanded_parent(alloc, put, lines, sizes, *parent, bind)?)?;
            Ok(made)
        }
        _ => Ok(made),
    }
}

/// A parent under its binding.
fn demanded_parent(
    alloc: Global,
    put: &PutIn<'_>,
    lines: &[Line],
    sizes: &[u64],
    parent: u64,
    bind: &Terms,
) -> Result<Demanded, GroundFault>
    requires { AreSizes (putting put.now) sizes.now }
    ensures made { IfOk result (λ made. demand_of made ≡ bound_demand (putting put.now) parent bind.now) }
    ensures large { IfErr result (SaysLarge (demand_weight (constant_tree put.now.constant) lines.now
        (bound_demand (putting put.now) parent bind.now))) }
{
    let bound = bound_sizes(alloc, sizes, bind.as_slice())?;
    let size = size_of_line(lines, parent, bound.as_slice());
    heavier(0, size)?;
    let terms = put_terms(alloc, put, bind.as_slice())?;
    Ok(Demanded {
        line: parent,
        terms,
    })
}

/// The weight with an instance of that size more.
pub(crate) fn heavier(weight: u64, size: u64) -> Result<u64, GroundFault>
    ensures more { IfOk result (λ more. more ≡ weight + size + 1) }
    ensures light { IfOk result (λ more. more ≤ MOST_WEIGHT) }
    ensures large { IfErr result (SaysLarge (weight + size + 1)) }
{
    let more = weight.saturating_add(size).saturating_add(1);
    if more > MOST_WEIGHT {
        return Err(GroundFault::Large);
    }
    Ok(more)
}

/// The size of a line's instance, stopping at u64's last value, by the sizes of what stands for its variables.
pub(crate) fn size_of_line(lines: &[Line], number: u64, sizes: &[u64]) -> u64
    ensures { (σ : Substitution) → AreSizes σ sizes.now
        → result ≡ min (ground_size (literals_instance σ (literals_at lines.now number))) (2 ^ 64 - 1) }
{
    match lines.get(number as usize) {
        Some(line) => literals_size(sizes, line.clause.literals.as_slice()),
        None => 0,
    }
}
