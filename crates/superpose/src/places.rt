// The places of a term at which no variable stands.

ghost use Rattle.std.specs.Prelude.{◌≡◌, ◌++◌, map, IfOk};
ghost use Rattle.fol_base.specs.Tree.{trees_of};
ghost use Rattle.fol_base.specs.Term.{tree_of};
ghost use Rattle.superpose.specs.Sites.{below_path, inner_places, places, places_from};

use crate::sites::LiteralPlace;
use eq_rules::LiteralSide;
use fol_base::{Position, Term};
use plain_types::Mem;
use std::alloc::Global;

/// Adds the places below the root of a term that stands at a path of a side. The path is as before.
pub fn push_inner_places(
    alloc: Global,
    found: &mut Vec<LiteralPlace>,
    at: LiteralSide,
    term: &Term,
    path: &mut Vec<u64>,
) -> Mem<()>
    ensures path { IfOk result (λ _. path.new.items ≡ path.old.items) }
    ensures found { IfOk result (λ _.
        found.new.items ≡ found.old.items ++ map (below_path at path.old.items) (inner_places (tree_of term.now))) }
{
    if let Term::App(_, arguments) = term {
        push_argument_places(alloc, found, at, arguments.as_slice(), path)
    } else {
        Ok(())
    }
}

/// Adds the places of a term that stands at a path of a side, a term before its arguments. The path is as before.
#[cycle(push_places)]
pub fn push_places(
    alloc: Global,
    found: &mut Vec<LiteralPlace>,
    at: LiteralSide,
    term: &Term,
    path: &mut Vec<u64>,
) -> Mem<()>
    ensures path { IfOk result (λ _. path.new.items ≡ path.old.items) }
    ensures found { IfOk result (λ _.
        found.new.items ≡ found.old.items ++ map (below_path at path.old.items) (places (tree_of term.now))) }
{
    match term {
        Term::Var(_) => Ok(()),
        Term::App(_, arguments) => {
            let place = Position::from_slice(alloc, path.as_slice())?;
            found.push(LiteralPlace { at, place })?;
            push_argument_places(alloc, found, at, arguments.as_slice(), path)
        }
    }
}

#[cycle(push_places)]
fn push_argument_places(
    alloc: Global,
    found: &mut Vec<LiteralPlace>,
    at: LiteralSide,
    terms: &[Term],
    path: &mut Vec<u64>,
) -> Mem<()>
    ensures path { IfOk result (λ _. path.new.items ≡ path.old.items) }
    ensures found { IfOk result (λ _. found.new.items
        ≡ found.old.items ++ map (below_path at path.old.items) (places_from 0 (trees_of (map tree_of terms.now)))) }
{
    for index in 0..terms.len() {
        path.push(index as u64)?;
        push_places(alloc, found, at, &terms[index], path)?;
        path.pop();
    }
    Ok(())
}
