// The walk over the conclusion of a superposition that numbers its variables, of which nothing is built.

ghost use Rattle.std.specs.Prelude.{◌≡◌, ◌<◌, ◌≤◌, ◌-◌, true, Some, List, length, map, flat_map, drop, take, IfOk};
ghost use Rattle.std.specs.Option.{is_some};
ghost use Rattle.fol_base.specs.Tree.{Tree, tree_variables, trees_variables, trees_of};
ghost use Rattle.fol_base.specs.Instance.{instance, instances};
ghost use Rattle.fol_base.specs.Place.{replaced, subterm};
ghost use Rattle.fol_base.specs.Clause.{TreeLiteral, literal_instance, literal_variables};
ghost use Rattle.fol_base.specs.Ground.{literals_instance};
ghost use Rattle.fol_base.specs.Numbering.{with_variables};
ghost use Rattle.fol_base.specs.Sides.{side_of, with_side};
ghost use Rattle.fol_base.specs.Term.{tree_of};
ghost use Rattle.fol_base.specs.Lent.{lent_of};
ghost use Rattle.superpose.specs.Superposing.{EntersAt};
ghost use Rattle.superpose.specs.Concluding.{instance_variables, superposed_at};

use crate::sites::LiteralPlace;
use eq_rules::{LiteralSide, Renumbering, number_instance, number_literals};
use fol_base::{LendsLiterals, LendsTerms, LiteralRef, Side, Term};
use plain_types::Mem;

/// Numbers the variables of a superposition's conclusion: of the literals of the second premise, one of them superposed, and then of the
/// other literals of the first.
pub fn number_superposed<L: LendsLiterals, S: LendsTerms, M: LendsLiterals, T: LendsTerms>(
    numbers: &mut Renumbering,
    first: &L,
    first_terms: &S,
    from: LiteralSide,
    second: &M,
    second_terms: &T,
    into: &LiteralPlace,
) -> Mem<()>
    requires from_inside { from.literal < length (L.meaning first.now) }
    requires enters { EntersAt (M.meaning second.now) into.now }
    ensures { IfOk result (λ _. (plain : List TreeLiteral) → superposed_at from into.now
        (literals_instance (S.meaning first_terms.now) (L.meaning first.now))
        (literals_instance (T.meaning second_terms.now) (M.meaning second.now)) ≡ Some plain
        → numbers.new ≡ with_variables numbers.old (flat_map literal_variables plain)) }
{
    let first_count = first.count();
    let second_count = second.count();
    let index = into.at.literal;
    let target = second.literal(index);
    let new = first.literal(from.literal).other_side(from.side);
    number_literals(numbers, second, second_terms, 0, index)?;
    number_target(numbers, target, second_terms, into, new, first_terms)?;
    number_literals(numbers, second, second_terms, index + 1, second_count)?;
    number_literals(numbers, first, first_terms, 0, from.literal)?;
    number_literals(numbers, first, first_terms, from.literal + 1, first_count)
}

/// Numbers the variables of a literal's instance with a new term at a place of a side.
fn number_target<S: LendsTerms, T: LendsTerms>(
    numbers: &mut Renumbering,
    target: LiteralRef<'_>,
    bind: &T,
    into: &LiteralPlace,
    new: &Term,
    new_bind: &S,
) -> Mem<()>
    requires { is_some (subterm into.now.place (side_of into.now.at.side (lent_of target))) ≡ true }
    ensures { IfOk result (λ _. (side : Tree) → replaced into.now.place (instance (S.meaning new_bind.now) (tree_of new.now))
        (instance (T.meaning bind.now) (side_of into.now.at.side (lent_of target.entry))) ≡ Some side
        → numbers.new ≡ with_variables numbers.old (literal_variables
        (with_side into.now.at.side side (literal_instance (T.meaning bind.now) (lent_of target.entry))))) }
{
    let place = into.place.as_slice();
    match into.at.side {
        Side::Left => {
            number_replaced(numbers, target.left, bind, place, 0, new, new_bind)?;
            number_instance(numbers, target.right, bind)
        }
        Side::Right => {
            number_instance(numbers, target.left, bind)?;
            number_replaced(numbers, target.right, bind, place, 0, new, new_bind)
        }
    }
}

/// Numbers the variables of the instance of a term with a new one at the part of the place from `depth` on.
fn number_replaced<S: LendsTerms, T: LendsTerms>(
    numbers: &mut Renumbering,
    host: &Term,
    bind: &T,
    place: &[u64],
    depth: usize,
    new: &Term,
    new_bind: &S,
) -> Mem<()>
    requires within { depth ≤ length place.now }
    requires there { is_some (subterm (drop depth place.now) (tree_of host.now)) ≡ true }
    ensures { IfOk result (λ _. (made : Tree) → replaced (drop depth place.now) (instance (S.meaning new_bind.now) (tree_of new.now))
        (instance (T.meaning bind.now) (tree_of host.now)) ≡ Some made
        → numbers.new ≡ with_variables numbers.old (tree_variables made)) }
{
    if depth == place.len() {
        return number_instance(numbers, new, new_bind);
    }
    match host {
        Term::Var(_) => unreachable!(),
        Term::App(_, arguments) => {
            let index = place[depth] as usize;
            let items = arguments.as_slice();
            number_items(numbers, items, bind, 0, index)?;
            number_replaced(
                numbers,
                &items[index],
                bind,
                place,
                depth + 1,
                new,
                new_bind,
            )?;
            number_items(numbers, items, bind, index + 1, items.len())
        }
    }
}

/// Numbers the variables of the instances of the terms from one index up to another.
fn number_items<T: LendsTerms>(
    numbers: &mut Renumbering,
    items: &[Term],
    bind: &T,
    start: usize,
    end: usize,
) -> Mem<()>
    requires rising { start ≤ end }
    requires within { end ≤ length items.now }
    ensures { IfOk result (λ _. numbers.new ≡ with_variables numbers.old
        (flat_map (instance_variables (T.meaning bind.now)) (take (end - start) (drop start items.now)))) }
{
    for index in start..end {
        number_instance(numbers, &items[index], bind)?;
    }
    Ok(())
}
