// The sites of a clause, which are found once for a clause, whatever its partners: the sides from which superposition can start, and the
// places into which it can go. They are what an index of clauses holds.

ghost use Rattle.std.specs.Prelude.{◌≡◌, ◌<◌, ◌++◌, ◌&&◌, [], ◌∷◌, true, List, None, length, filter, map, slice_get, IfOk};
ghost use Rattle.fol_base.specs.Clause.{TreeLiteral, literal_size};
ghost use Rattle.fol_base.specs.Lent.{lent_of};
ghost use Rattle.fol_base.specs.Selection.{SelectionMode, chosen, eligible};
ghost use Rattle.fol_base.specs.declared.clause.Side.TheVariants.{Left, Right};
ghost use Rattle.bank_clause.specs.Clause.{clause_at, IsMemberOf};
ghost use Rattle.superpose.specs.Settled.{AreSettled, IsSettled};
ghost use Rattle.superpose.specs.Sites.{
  AreSitesOf,
  below_path,
  can_start,
  enter_sites,
  entered_places,
  is_positive_atom,
  is_usable,
  literal_enters,
  literal_starts,
  open_places,
  start_sites,
};

use crate::places::{push_inner_places, push_places};
use crate::settled::{SettledSides, settled_sides};
use bank_clause::Member;
use eq_rules::{LiteralSide, is_not_below};
use fol_base::{LendsLiterals, LiteralRef, Position, Side};
use kbo_order::{COMPARED_SIZE_LIMIT, Unbound};
use literal_selection::{Selection, eligible, selected};
use plain_types::Mem;
use std::alloc::Global;
use term_bank::Bank;

/// A place in a side of a literal of a clause.
#[derive(Drop)]
pub struct LiteralPlace {
    pub at: LiteralSide,
    pub place: Position,
}

/// The sites of a clause. No superposition starts from another side of it, or goes into another place.
#[derive(Drop)]
pub struct Sites {
    /// The mode by which the literal was chosen.
    pub mode: Selection,
    /// The chosen literal.
    pub choice: Option<usize>,
    /// The sides from which superposition can start: of positive literals that are strictly eligible where nothing is chosen, and not
    /// below the other side.
    pub from: Vec<LiteralSide>,
    /// The places into which it can go, where no variable stands, in sides of eligible literals that aren't below the other side: not the
    /// root of a positive atom. A term comes before its arguments.
    pub into: Vec<LiteralPlace>,
    /// The sides of each literal that are in order under every substitution.
    pub settled: Vec<SettledSides>,
}

/// A clause and its sites.
#[derive(Clone, Copy)]
pub struct Premise<'a> {
    pub member: &'a Member,
    pub sites: &'a Sites,
}

impl Sites {
    /// The sites of a member's clause.
    pub fn of_member(alloc: Global, bank: &Bank, member: &Member, mode: Selection) -> Mem<Sites>
        requires { IsMemberOf bank.now member.now }
        ensures sites { IfOk result (AreSitesOf (clause_at member.now.clause)) }
        ensures mode { IfOk result (λ sites. sites.mode ≡ mode) }
    {
        let is_small = u64::from(member.clause.size()) < COMPARED_SIZE_LIMIT;
        prove!(is_small);
        let choice = selected(&member.clause.lend(bank), mode);
        let from = start_sites(alloc, bank, member, choice)?;
        let into = enter_sites(alloc, bank, member, choice)?;
        let settled = settled_sides(alloc, bank, member, choice)?;
        Ok(Sites {
            mode,
            choice,
            from,
            into,
            settled,
        })
    }

    /// Whether a side is in order under every substitution.
    pub(crate) fn is_settled(&self, at: LiteralSide) -> bool
        requires { at.literal < length self.now.settled.items }
        ensures { (ls : List TreeLiteral) → AreSettled ls self.now.choice self.now.settled.items → result ≡ true → IsSettled ls self.now.choice at }
    {
        let sides = self.settled[at.literal];
        match at.side {
            Side::Left => sides.left,
            Side::Right => sides.right,
        }
    }
}

/// The sides from which superposition can start.
fn start_sites(
    alloc: Global,
    bank: &Bank,
    member: &Member,
    choice: Option<usize>,
) -> Mem<Vec<LiteralSide>>
    requires { IsMemberOf bank.now member.now }
    ensures { IfOk result (λ from. (mode : SelectionMode) → choice ≡ chosen mode (clause_at member.now.clause).literals
        → from.items ≡ start_sites mode (clause_at member.now.clause).literals) }
{
    let mut from = Vec::new(alloc);
    if choice.is_some() {
        return Ok(from);
    }
    let count = member.clause.literals().len();
    for literal in 0..count {
        push_start(bank, member, left_of(literal), &mut from)?;
        push_start(bank, member, right_of(literal), &mut from)?;
    }
    Ok(from)
}

/// The left side of a literal.
pub fn left_of(literal: usize) -> LiteralSide
    ensures { result ≡ record { literal = literal; side = Left } }
{
    LiteralSide {
        literal,
        side: Side::Left,
    }
}

/// The right side of a literal.
pub fn right_of(literal: usize) -> LiteralSide
    ensures { result ≡ record { literal = literal; side = Right } }
{
    LiteralSide {
        literal,
        side: Side::Right,
    }
}

/// Adds a side if superposition can start from it, where nothing is chosen.
fn push_start(bank: &Bank, member: &Member, at: LiteralSide, from: &mut Vec<LiteralSide>) -> Mem<()>
    requires member { IsMemberOf bank.now member.now }
    requires inside { at.literal < length (clause_at member.now.clause).literals }
    ensures { IfOk result (λ _. (mode : SelectionMode) → chosen mode (clause_at member.now.clause).literals ≡ None
        → from.new.items ≡ from.old.items ++ filter (can_start mode (clause_at member.now.clause).literals) (at ∷ [])) }
{
    if can_start(bank, member, at) {
        from.push(at)?;
    }
    Ok(())
}

/// Whether superposition can start from a side, where nothing is chosen.
fn can_start(bank: &Bank, member: &Member, at: LiteralSide) -> bool
    requires member { IsMemberOf bank.now member.now }
    requires inside { at.literal < length (clause_at member.now.clause).literals }
    ensures { result ≡ (literal_starts at.side (slice_get (clause_at member.now.clause).literals at.literal)
        && eligible (clause_at member.now.clause).literals at.literal None true) }
{
    let is_small = u64::from(member.clause.size()) < COMPARED_SIZE_LIMIT;
    prove!(is_small);
    let literals = member.clause.lend(bank);
    let literal = literals.literal(at.literal);
    literal.positive && is_usable(literal, at.side) && eligible(&literals, at.literal, None, true)
}

/// The places into which superposition can go.
fn enter_sites(
    alloc: Global,
    bank: &Bank,
    member: &Member,
    choice: Option<usize>,
) -> Mem<Vec<LiteralPlace>>
    requires { IsMemberOf bank.now member.now }
    ensures { IfOk result (λ into. (mode : SelectionMode) → choice ≡ chosen mode (clause_at member.now.clause).literals
        → into.items ≡ enter_sites mode (clause_at member.now.clause).literals) }
{
    let mut into = Vec::new(alloc);
    let count = member.clause.literals().len();
    for literal in 0..count {
        push_entered(alloc, bank, member, choice, left_of(literal), &mut into)?;
        push_entered(alloc, bank, member, choice, right_of(literal), &mut into)?;
    }
    Ok(into)
}

/// Adds the places of a side if superposition can go into it.
fn push_entered(
    alloc: Global,
    bank: &Bank,
    member: &Member,
    choice: Option<usize>,
    at: LiteralSide,
    into: &mut Vec<LiteralPlace>,
) -> Mem<()>
    requires member { IsMemberOf bank.now member.now }
    requires inside { at.literal < length (clause_at member.now.clause).literals }
    ensures { IfOk result (λ _. (mode : SelectionMode) → choice ≡ chosen mode (clause_at member.now.clause).literals
        → into.new.items ≡ into.old.items ++ entered_places mode (clause_at member.now.clause).literals at) }
{
    if !can_enter(bank, member, choice, at) {
        return Ok(());
    }
    let literals = member.clause.lend(bank);
    push_open_places(alloc, literals.literal(at.literal), at, into)
}

/// Adds the places of a side into which something can go.
fn push_open_places(
    alloc: Global,
    literal: LiteralRef<'_>,
    at: LiteralSide,
    into: &mut Vec<LiteralPlace>,
) -> Mem<()>
    ensures { IfOk result (λ _.
        into.new.items ≡ into.old.items ++ map (below_path at []) (open_places at.side (lent_of literal.entry))) }
{
    let mut path = Vec::new(alloc);
    let side = literal.side(at.side);
    if is_positive_atom(literal, at.side) {
        push_inner_places(alloc, into, at, side, &mut path)
    } else {
        push_places(alloc, into, at, side, &mut path)
    }
}

/// Whether a side is a positive atom, into the root of which nothing can go.
fn is_positive_atom(literal: LiteralRef<'_>, side: Side) -> bool
    ensures { result ≡ is_positive_atom side (lent_of literal.entry) }
{
    literal.positive && literal.other_side(side).is_truth()
}

/// Whether superposition can go into a side, with the choice made before.
fn can_enter(bank: &Bank, member: &Member, choice: Option<usize>, at: LiteralSide) -> bool
    requires member { IsMemberOf bank.now member.now }
    requires inside { at.literal < length (clause_at member.now.clause).literals }
    ensures { result ≡ literal_enters (clause_at member.now.clause).literals choice at
        (slice_get (clause_at member.now.clause).literals at.literal) }
{
    let is_small = u64::from(member.clause.size()) < COMPARED_SIZE_LIMIT;
    prove!(is_small);
    let literals = member.clause.lend(bank);
    let literal = literals.literal(at.literal);
    is_usable(literal, at.side)
        && !(literal.positive && choice.is_some())
        && eligible(&literals, at.literal, choice, literal.positive)
}

/// Whether a side isn't `$true`, and the other one isn't greater than or equal to it.
fn is_usable(literal: LiteralRef<'_>, side: Side) -> bool
    requires { literal_size (lent_of literal) < COMPARED_SIZE_LIMIT }
    ensures { result ≡ is_usable side (lent_of literal.entry) }
{
    !literal.side(side).is_truth() && is_not_below(literal, side, &Unbound)
}
