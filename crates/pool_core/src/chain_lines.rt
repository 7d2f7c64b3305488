// The chains of a solver's log as lines of the derivation: each becomes a step, whose parents are lines.

ghost use Rattle.std.specs.Prelude.{◌≡◌, ◌+◌, ◌-◌, ◌<◌, ◌^◌, length, map, All, IfOk};
ghost use Rattle.pool_history.specs.Chains.{cited};
ghost use Rattle.pool_history.specs.Solving.{chain_step};
ghost use Rattle.pool_core.specs.Answered.{HasCitedBelow, line_cited};

use kernel_steps::Step;
use plain_types::{Mem, Names, Numbers};
use sat_core::Chain;
use std::alloc::Global;

/// The chains of a log as steps, of which the first gets the number `first` among the lines. The log cites clauses whose lines are told, and
/// chains of its own.
pub(crate) fn chain_steps(
    alloc: Global,
    handed: &[u64],
    first: u64,
    log: &[Chain],
) -> Mem<Vec<Step>>
    requires cited { All (HasCitedBelow (length handed.now + length log.now)) log.now }
    requires fits { first < 2 ^ 63 }
    ensures { IfOk result (λ steps. steps.items ≡ map (chain_step (line_cited handed.now first)) log.now) }
{
    let mut steps = Vec::with_capacity(alloc, log.len())?;
    for chain in log {
        steps.push_reserved(step_of(alloc, handed, first, chain)?);
    }
    Ok(steps)
}

/// A chain as a step.
fn step_of(alloc: Global, handed: &[u64], first: u64, chain: &Chain) -> Mem<Step>
    requires fits { All (λ n. first + (n - length handed.now) < 2 ^ 64) (cited chain.now) }
    ensures { IfOk result (λ step. step ≡ chain_step (line_cited handed.now first) chain.now) }
{
    let mut parents = Numbers::new(alloc);
    parents.push(line_cited(handed, first, chain.start))?;
    let mut pivots = Names::new(alloc);
    let links = chain.links.as_slice();
    for link in links {
        parents.push(line_cited(handed, first, link.number))?;
        pivots.push(link.pivot)?;
    }
    Ok(Step::Chain { parents, pivots })
}

/// The number of the line of what a log cites.
fn line_cited(handed: &[u64], first: u64, number: u64) -> u64
    requires { first + (number - length handed.now) < 2 ^ 64 }
    ensures { result ≡ line_cited handed.now first number }
{
    match number.checked_sub(handed.len() as u64) {
        Some(chain) => first + chain,
        None => handed[number as usize],
    }
}
