// How the sides of an equation compare, as far as the equation tells it once, so that a match needn't ask it again.

ghost use Rattle.std.specs.Prelude.{◌≡◌, ◌<◌, IfOk, IsTrue, IsPermutation, map};
ghost use Rattle.fol_base.specs.Clause.{literal_size};
ghost use Rattle.fol_base.specs.Instance.{instance, instances};
ghost use Rattle.fol_base.specs.Lent.{lent_of};
ghost use Rattle.fol_base.specs.Order.{tree_greater, trees_greater};
ghost use Rattle.fol_base.specs.Sides.{other_side_of, side_of};
ghost use Rattle.fol_base.specs.Term.{tree_of};
ghost use Rattle.fol_base.specs.Tree.{tree_size, tree_variables, trees_of, trees_size};
ghost use Rattle.fol_base.specs.declared.limits.TheConstants.{SIZE_LIMIT};
ghost use Rattle.unifier.specs.Matching.{by_pairs};
ghost use Rattle.rewriting.specs.Descent.{AreBalanced, Descends, DescendsTo};
ghost use Rattle.rewriting.specs.Units.{may_rewrite};
ghost use Rattle.rewriting.specs.declared.descent.Descent.TheVariants.{FirstDifference};

use crate::spot::is_smaller;
use fol_base::{LiteralRef, Side, Term, is_instance, push_variables};
use kbo_order::is_greater;
use plain_types::Mem;
use std::alloc::Global;
use unifier::Matched;

/// How a side by which an equation may rewrite compares with the other side.
#[derive(Clone, Copy)]
pub(crate) enum Descent {
    /// It is greater, and so is each of its instances.
    Always,
    /// Both sides have one size and each variable equally often, and so have their instances: what differs first decides.
    FirstDifference,
    /// Each instance has to be asked.
    Instances,
}

/// How the sides by which an equation may rewrite compare with the other ones.
pub(crate) fn descent_of(alloc: Global, equation: LiteralRef<'_>) -> Mem<Descent>
    requires { literal_size (lent_of equation) < SIZE_LIMIT }
    ensures { IfOk result (λ known. (s : Side) → IsTrue (may_rewrite s (lent_of equation.entry))
        → Descends known (side_of s (lent_of equation.entry)) (other_side_of s (lent_of equation.entry))) }
{
    if is_greater(equation.left, equation.right) {
        return Ok(Descent::Always);
    }
    if is_greater(equation.right, equation.left) {
        return Ok(Descent::Always);
    }
    if are_balanced(alloc, equation.left, equation.right)? {
        Ok(Descent::FirstDifference)
    } else {
        Ok(Descent::Instances)
    }
}

/// Whether two terms have one size and each variable equally often.
fn are_balanced(alloc: Global, one: &Term, other: &Term) -> Mem<bool>
    requires size { tree_size (tree_of one.now) < SIZE_LIMIT }
    requires other_size { tree_size (tree_of other.now) < SIZE_LIMIT }
    ensures { IfOk result (λ balanced. IsTrue balanced → AreBalanced (tree_of one.now) (tree_of other.now)) }
{
    if one.size() != other.size() {
        return Ok(false);
    }
    let left = sorted_variables(alloc, one)?;
    let right = sorted_variables(alloc, other)?;
    Ok(are_same(left.as_slice(), right.as_slice()))
}

/// The variables of a term, each as often as it occurs, in order.
fn sorted_variables(alloc: Global, term: &Term) -> Mem<Vec<u32>>
    ensures { IfOk result (λ sorted. IsPermutation (tree_variables (tree_of term.now)) sorted.items) }
{
    let mut variables = Vec::new(alloc);
    push_variables(term, &mut variables)?;
    variables.sort_unstable();
    Ok(variables)
}

/// Whether two lists of numbers are equal.
fn are_same(numbers: &[u32], others: &[u32]) -> bool
    ensures { IsTrue result → numbers.now ≡ others.now }
{
    numbers == others
}

impl Descent {
    /// Whether an instance is smaller than a term, which has a size.
    pub(crate) fn is_smaller(self, new: &Term, terms: &Matched<'_>, old: &Term, size: u64) -> bool
        requires size { size ≡ tree_size (tree_of old.now) }
        requires small { size < SIZE_LIMIT }
        requires descends { DescendsTo self (tree_of old.now) (instance (by_pairs terms.now) (tree_of new.now)) }
        ensures exact { result ≡ tree_greater (tree_of old.now) (instance (by_pairs terms.now) (tree_of new.now)) }
        ensures size { IsTrue result → tree_size (instance (by_pairs terms.now) (tree_of new.now)) < SIZE_LIMIT }
    {
        match self {
            Descent::Always => true,
            Descent::FirstDifference => differs_below(new, terms, old, size),
            Descent::Instances => is_smaller(new, terms, old, size),
        }
    }
}

/// Whether an instance is smaller than a term of its size that has each variable as often at least.
fn differs_below(new: &Term, terms: &Matched<'_>, old: &Term, size: u64) -> bool
    requires size { size ≡ tree_size (tree_of old.now) }
    requires small { size < SIZE_LIMIT }
    requires descends { DescendsTo FirstDifference (tree_of old.now) (instance (by_pairs terms.now) (tree_of new.now)) }
    ensures { result ≡ tree_greater (tree_of old.now) (instance (by_pairs terms.now) (tree_of new.now)) }
{
    match old {
        Term::Var(_) => false,
        Term::App(symbol, ones) => match new {
            Term::Var(_) => is_smaller(new, terms, old, size),
            Term::App(other, others) => {
                if *symbol != *other {
                    return *other < *symbol;
                }
                is_first_smaller(others.as_slice(), terms, ones.as_slice())
            }
        },
    }
}

/// Whether the first instance that differs from its term is smaller than it.
fn is_first_smaller(new: &[Term], terms: &Matched<'_>, old: &[Term]) -> bool
    requires { trees_size (trees_of (map tree_of old.now)) < SIZE_LIMIT }
    ensures { result ≡ trees_greater (trees_of (map tree_of old.now)) (instances (by_pairs terms.now) (trees_of (map tree_of new.now))) }
{
    for index in 0..old.len() {
        if index >= new.len() {
            return false;
        }
        if !is_instance(&new[index], terms, &old[index]) {
            return is_below(&new[index], terms, &old[index]);
        }
    }
    false
}

/// Whether an instance is smaller than a term.
fn is_below(new: &Term, terms: &Matched<'_>, old: &Term) -> bool
    requires { tree_size (tree_of old.now) < SIZE_LIMIT }
    ensures { result ≡ tree_greater (tree_of old.now) (instance (by_pairs terms.now) (tree_of new.now)) }
{
    is_smaller(new, terms, old, old.size())
}
