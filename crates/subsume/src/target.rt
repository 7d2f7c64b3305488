// A clause that may be subsumed, as the search looks at it.

ghost use Rattle.std.specs.Prelude.{◌≡◌, map, IfOk};
ghost use Rattle.fol_base.specs.Lent.{lent_of};

use fol_base::{LendsLiterals, LiteralRef};
use plain_types::Mem;
use std::alloc::Global;

/// The literals of a clause, lent, and the numbers that it asserts.
#[derive(Drop)]
pub(crate) struct Target<'a> {
    pub(crate) literals: Vec<LiteralRef<'a>>,
    pub(crate) assertions: Vec<u32>,
}

/// The literals of a lender, one after another.
pub(crate) fn lent_literals<'a, L: LendsLiterals>(
    alloc: Global,
    lender: &'a L,
) -> Mem<Vec<LiteralRef<'a>>>
    ensures { IfOk result (λ lent. map lent_of lent.items ≡ L.meaning lender.now) }
{
    let count = lender.count();
    let mut lent = Vec::with_capacity(alloc, count)?;
    for index in 0..count {
        lent.push(lender.literal(index))?;
    }
    Ok(lent)
}
