// Literals and names of a bank clause as a clause has them.

ghost use Rattle.std.specs.Prelude.{◌≡◌, map, IfOk};
ghost use Rattle.plain_types.specs.Names.{negative_of};
ghost use Rattle.fol_base.specs.Literal.{literal_of};
ghost use Rattle.term_bank.specs.Literal.{IsLiteralOf, AreLiteralsOf, literal_at, literals_at};

use fol_base::Literal;
use plain_types::{Mem, NameLit};
use std::alloc::Global;
use term_bank::{Bank, BankLit};

/// The literals as trees.
pub(crate) fn tree_literals(alloc: Global, bank: &Bank, literals: &[BankLit]) -> Mem<Vec<Literal>>
    requires { AreLiteralsOf bank.now literals.now }
    ensures { IfOk result (λ made. map literal_of made.items ≡ literals_at literals.now) }
{
    let mut made = Vec::with_capacity(alloc, literals.len())?;
    for literal in literals {
        made.push_reserved(tree_literal(alloc, bank, literal)?);
    }
    Ok(made)
}

/// The literal as trees.
fn tree_literal(alloc: Global, bank: &Bank, literal: &BankLit) -> Mem<Literal>
    requires { IsLiteralOf bank.now literal.now }
    ensures { IfOk result (λ made. literal_of made ≡ literal_at literal.now) }
{
    let left = bank.tree(&literal.left).copy(alloc)?;
    let right = bank.tree(&literal.right).copy(alloc)?;
    Ok(Literal {
        positive: literal.positive,
        left,
        right,
    })
}

/// The names with the negative sign.
pub(crate) fn negative_names(alloc: Global, names: &[u32]) -> Mem<Vec<NameLit>>
    ensures { IfOk result (λ signed. signed.items ≡ map negative_of names.now) }
{
    let mut signed = Vec::with_capacity(alloc, names.len())?;
    for name in names {
        signed.push_reserved(NameLit {
            positive: false,
            name: *name,
        });
    }
    Ok(signed)
}
