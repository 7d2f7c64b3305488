// Terms that look random.

ghost use Rattle.std.specs.Prelude.{◌≡◌, max, length, IfOk};
ghost use Rattle.std.specs.List.{All};
ghost use Rattle.fol_base.specs.Tree.{tree_size};
ghost use Rattle.fol_base.specs.Term.{tree_of};
ghost use Rattle.sample.specs.Sizes.{IsOfUsualSize};

use crate::Random;
use crate::terms::{binary, constant, unary};
use fol_base::Term;
use plain_types::Mem;
use std::alloc::Global;

/// `count` terms of 5 to 20 symbols and variables.
pub fn random_terms(alloc: Global, random: &mut Random, count: u64) -> Mem<Vec<Term>>
    ensures count { IfOk result (λ terms. length terms.items ≡ count) }
    ensures sizes { IfOk result (λ terms. All (λ term. IsOfUsualSize (tree_of term)) terms.items) }
{
    let mut terms = Vec::new(alloc);
    for _ in 0..count {
        let size = 5 + random.below(16);
        terms.push(random_term(alloc, random, size)?)?;
    }
    Ok(terms)
}

/// A term of `size` symbols and variables, over the variables 0 to 3, the constants 4 to 15, the unary symbols
/// 16 and 17 and the binary ones 18 and 19.
pub fn random_term(alloc: Global, random: &mut Random, size: u64) -> Mem<Term>
    ensures { IfOk result (λ term. tree_size (tree_of term) ≡ max 1 size) }
{
    if size < 2 {
        return Ok(random_leaf(alloc, random));
    }
    let odd = random.below(2) == 1;
    if size == 2 || random.below(3) == 0 {
        let argument = random_term(alloc, random, size - 1)?;
        return unary(alloc, if odd { 17 } else { 16 }, argument);
    }
    let left = 1 + random.below(size - 2);
    let first = random_term(alloc, random, left)?;
    let second = random_term(alloc, random, size - 1 - left)?;
    binary(alloc, if odd { 19 } else { 18 }, first, second)
}

/// One of four variables or twelve constants.
fn random_leaf(alloc: Global, random: &mut Random) -> Term
    ensures { tree_size (tree_of result) ≡ 1 }
{
    let number = random.below(16) as u32;
    if number < 4 {
        Term::Var(number)
    } else {
        constant(alloc, number)
    }
}
