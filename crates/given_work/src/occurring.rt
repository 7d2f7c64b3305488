// An index of the terms that occur in the told clauses. A unit can rewrite or cut only clauses in which an instance of one of its sides occurs.

ghost use Rattle.std.specs.Prelude.{◌++◌, ◌≡◌, ◌<◌, map, IfOk};
ghost use Rattle.fol_base.specs.Clause.{literal_size};
ghost use Rattle.fol_base.specs.Lent.{lent_of};
ghost use Rattle.fol_base.specs.Term.{tree_of};
ghost use Rattle.fol_base.specs.declared.limits.TheConstants.{SIZE_LIMIT};
ghost use Rattle.disc_tree.specs.Entries.{KeepsAll};
ghost use Rattle.given_work.specs.Occurring.{ListsLiterals, ListsSide, ListsTerm, ListsTerms, numbers_with_instances};
ghost use Rattle.unit_cutting.specs.Indexed.{KeepsOthers};

use bank_clause::BankLiterals;
use disc_tree::DiscTree;
use fol_base::{LendsLiterals, LiteralRef, Term};
use kbo_order::is_greater;
use plain_types::Mem;

/// Adds the sides of literals and the terms in them, but for the variables in them, with the number of a clause.
pub(crate) fn put_literals(
    terms: &mut DiscTree,
    literals: &BankLiterals<'_>,
    number: u32,
) -> Mem<()>
    ensures put { IfOk result (λ _. ListsLiterals number terms.new literals.now) }
    ensures kept { IfOk result (λ _. KeepsAll terms.old terms.new) }
{
    for index in 0..literals.count() {
        put_literal(terms, literals.literal(index), number)?;
    }
    Ok(())
}

/// As above, for one literal.
fn put_literal(terms: &mut DiscTree, literal: LiteralRef<'_>, number: u32) -> Mem<()>
    ensures left { IfOk result (λ _. ListsSide number terms.new (lent_of literal.entry).left) }
    ensures right { IfOk result (λ _. ListsSide number terms.new (lent_of literal.entry).right) }
    ensures kept { IfOk result (λ _. KeepsAll terms.old terms.new) }
{
    put_side(terms, literal.left, number)?;
    put_side(terms, literal.right, number)?;
    Ok(())
}

/// Adds a side and the terms in it.
fn put_side(terms: &mut DiscTree, side: &Term, number: u32) -> Mem<()>
    ensures put { IfOk result (λ _. ListsSide number terms.new (tree_of side.now)) }
    ensures kept { IfOk result (λ _. KeepsAll terms.old terms.new) }
{
    match side {
        Term::Var(_) => terms.insert(side, u64::from(number))?,
        Term::App(_, _) => put_term(terms, side, number)?,
    }
    Ok(())
}

/// Adds a term and the terms in it, but for variables.
#[cycle(put_term)]
fn put_term(terms: &mut DiscTree, term: &Term, number: u32) -> Mem<()>
    ensures put { IfOk result (λ _. ListsTerm number terms.new (tree_of term.now)) }
    ensures kept { IfOk result (λ _. KeepsAll terms.old terms.new) }
{
    match term {
        Term::Var(_) => Ok(()),
        Term::App(_, arguments) => {
            terms.insert(term, u64::from(number))?;
            put_arguments(terms, arguments.as_slice(), number)?;
            Ok(())
        }
    }
}

/// As above, for each argument of a term.
#[cycle(put_term)]
fn put_arguments(terms: &mut DiscTree, arguments: &[Term], number: u32) -> Mem<()>
    ensures put { IfOk result (λ _. ListsTerms number terms.new (map tree_of arguments.now)) }
    ensures kept { IfOk result (λ _. KeepsAll terms.old terms.new) }
{
    for index in 0..arguments.len() {
        put_term(terms, &arguments[index], number)?;
    }
    Ok(())
}

/// Takes away the sides of literals and the terms in them, as far as they are there with the number of a clause.
pub(crate) fn take_literals(terms: &mut DiscTree, literals: &BankLiterals<'_>, number: u32)
    ensures { KeepsOthers number terms.old terms.new }
{
    for index in 0..literals.count() {
        take_literal(terms, literals.literal(index), number);
    }
}

/// As above, for one literal.
fn take_literal(terms: &mut DiscTree, literal: LiteralRef<'_>, number: u32)
    ensures { KeepsOthers number terms.old terms.new }
{
    take_term(terms, literal.left, number);
    take_term(terms, literal.right, number);
}

/// Takes away a term and the terms in it, as far as they are there.
#[cycle(take_term)]
fn take_term(terms: &mut DiscTree, term: &Term, number: u32)
    ensures { KeepsOthers number terms.old terms.new }
{
    terms.remove(term, u64::from(number));
    if let Term::App(_, arguments) = term {
        take_arguments(terms, arguments.as_slice(), number);
    }
}

/// As above, for each argument of a term.
#[cycle(take_term)]
fn take_arguments(terms: &mut DiscTree, arguments: &[Term], number: u32)
    ensures { KeepsOthers number terms.old terms.new }
{
    for index in 0..arguments.len() {
        take_term(terms, &arguments[index], number);
    }
}

/// Adds the numbers of the clauses in which, by its heads, an instance of the greater side of a literal may occur, or of either side where
/// neither is greater. A unit rewrites by no smaller side, and cuts only where an instance of each side occurs.
pub(crate) fn push_with_instances(
    terms: &DiscTree,
    literal: LiteralRef<'_>,
    numbers: &mut Vec<u64>,
) -> Mem<()>
    requires { literal_size (lent_of literal) < SIZE_LIMIT }
    ensures { IfOk result (λ _. numbers.new.items ≡ numbers.old.items ++ numbers_with_instances terms.now (lent_of literal.entry)) }
{
    if is_greater(literal.left, literal.right) {
        terms.push_instances(literal.left, numbers)?;
        return Ok(());
    }
    if is_greater(literal.right, literal.left) {
        terms.push_instances(literal.right, numbers)?;
        return Ok(());
    }
    terms.push_instances(literal.left, numbers)?;
    terms.push_instances(literal.right, numbers)?;
    Ok(())
}
