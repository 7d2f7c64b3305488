// Whether no interpretation makes ground clauses true.

ghost use Rattle.std.specs.Prelude.{IfOk, IsTrue};
ghost use Rattle.herbrand_list.specs.Refuted.{ground_clauses, are_ground_clauses, TellsRefuted, TellsModel};

use crate::grounding::Grounding;
use congruence::has_no_model;
use fol_base::Clauses;
use plain_types::Mem;
use std::alloc::Global;

/// Whether no interpretation makes the ground clauses true, for clauses that use each symbol in one way. It is decided whether the clauses have a propositional model that is a
/// congruence of their terms; where they have one, its classes are the values of an interpretation.
pub fn ground_refuted(alloc: Global, list: &Clauses) -> Mem<bool>
    requires { IsTrue (are_ground_clauses (ground_clauses list.now)) }
    ensures refuted { IfOk result (TellsRefuted (ground_clauses list.now)) }
    ensures model { IfOk result (TellsModel (ground_clauses list.now)) }
{
    let mut grounding = Grounding::new(alloc)?;
    let clauses = grounding.clauses(alloc, list.as_slice())?;
    let nodes = grounding.terms.nodes.as_slice();
    let atoms = grounding.atoms.as_slice();
    has_no_model(alloc, nodes, atoms, clauses)
}
