// Whether propositional clauses over equations have a model that is a congruence.

ghost use Rattle.std.specs.Prelude.{◌≡◌, ◌<◌, ◌≤◌, ◌^◌, ◌↔◌, length, IfOk, IsTrue, IsFalse};
ghost use Rattle.sat_core.specs.Clause.{names_below};
ghost use Rattle.congruence.specs.Congruence.{are_nodes, are_between};
ghost use Rattle.congruence.specs.Models.{HasNoModel, HasModel};

use crate::conflict::add_conflicts;
use crate::node::{Equation, Node};
use plain_types::Mem;
use sat_core::{Answer, PropClauses, solve};
use std::alloc::Global;

/// Whether no congruence makes the clauses true, where name i is the equation with number i. Clauses shut out each model that breaks equality,
/// up to one for the first model, two for the second, and twice as many each time.
pub fn has_no_model(
    alloc: Global,
    nodes: &[Node],
    atoms: &[Equation],
    mut clauses: PropClauses,
) -> Mem<bool>
    requires nodes { IsTrue (are_nodes nodes.now) }
    requires few { length nodes.now ≤ 2 ^ 32 }
    requires between { IsTrue (are_between nodes.now atoms.now) }
    requires few_atoms { length atoms.now < 2 ^ 32 }
    requires below { IsTrue (names_below (length atoms.now) clauses) }
    ensures refuted { IfOk result (λ refuted. IsTrue refuted ↔ HasNoModel nodes.now atoms.now clauses) }
    ensures model { IfOk result (λ refuted. IsFalse refuted → HasModel nodes.now atoms.now clauses) }
{
    let names = atoms.len() as u32;
    let mut most = 1_u32;
    'models: loop {
        match solve(alloc, &clauses, names)? {
            Answer::Refuted(_) => return Ok(true),
            Answer::Model(truths) => {
                if !add_conflicts(alloc, nodes, atoms, truths.as_slice(), most, &mut clauses)? {
                    return Ok(false);
                }
                most = most.saturating_mul(2);
            }
        }
    }
}
