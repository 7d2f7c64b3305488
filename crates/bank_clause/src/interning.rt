// Literals and names of a clause as a bank clause keeps them.

ghost use Rattle.std.specs.Prelude.{◌≡◌, map, IfOk, OnOk, OnErr};
ghost use Rattle.std.specs.List.{All};
ghost use Rattle.fol_base.specs.Literal.{literal_of};
ghost use Rattle.term_bank.specs.Table.{IsTableOf};
ghost use Rattle.term_bank.specs.Literal.{IsLiteralOf, AreLiteralsOf, literal_at, literals_at};
ghost use Rattle.term_bank.specs.Interning.{InternsAll, InternsFirst};
ghost use Rattle.bank_clause.specs.Clause.{IsKnown, literal_sides, sides};

use crate::clause::BankLits;
use fol_base::Literal;
use plain_types::{Mem, NameLit};
use smallvec::SmallVec;
use std::alloc::Global;
use std::sync::Wait;
use term_bank::{Bank, BankLit, Table};

/// The literals with their sides interned, from left to right. After an out-of-memory error some first ones of the
/// sides have been interned.
pub(crate) fn intern_literals<R: Wait>(
    rt: &R,
    alloc: Global,
    bank: &Bank,
    table: &mut Table,
    literals: &[Literal],
) -> Mem<BankLits>
    requires { IsTableOf bank.now table.old }
    ensures references { IfOk result (λ made. AreLiteralsOf bank.now made.items) }
    ensures same { IfOk result (λ made. literals_at made.items ≡ map literal_of literals.now) }
    ensures known { IfOk result (λ made. All (IsKnown table.new) made.items) }
    ensures table { IsTableOf bank.now table.new }
    ensures interned { OnOk result (InternsAll (sides (map literal_of literals.now)) table.old table.new) }
    ensures interned_first { OnErr result
        (InternsFirst (sides (map literal_of literals.now)) table.old table.new) }
{
    let mut made = SmallVec::with_capacity(alloc, literals.len())?;
    for literal in literals {
        made.push(intern_literal(rt, alloc, bank, table, literal)?)?;
    }
    Ok(made)
}

/// The literal with its sides interned. After an out-of-memory error its left side may have been interned.
fn intern_literal<R: Wait>(
    rt: &R,
    alloc: Global,
    bank: &Bank,
    table: &mut Table,
    literal: &Literal,
) -> Mem<BankLit>
    requires { IsTableOf bank.now table.old }
    ensures references { IfOk result (IsLiteralOf bank.now) }
    ensures same { IfOk result (λ made. literal_at made ≡ literal_of literal.now) }
    ensures known { IfOk result (IsKnown table.new) }
    ensures table { IsTableOf bank.now table.new }
    ensures interned { OnOk result (InternsAll (literal_sides (literal_of literal.now)) table.old table.new) }
    ensures interned_first { OnErr result
        (InternsFirst (literal_sides (literal_of literal.now)) table.old table.new) }
{
    let left = bank.intern(rt, alloc, table, &literal.left)?;
    let right = bank.intern(rt, alloc, table, &literal.right)?;
    Ok(BankLit {
        positive: literal.positive,
        left,
        right,
    })
}

/// The names without their signs.
pub(crate) fn bare_names(alloc: Global, names: &[NameLit]) -> Mem<Vec<u32>>
    ensures { IfOk result (λ bare. bare.items ≡ map (λ n. n.name) names.now) }
{
    let mut bare = Vec::with_capacity(alloc, names.len())?;
    for name in names {
        bare.push_reserved(name.name);
    }
    Ok(bare)
}
