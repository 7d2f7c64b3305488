// Clauses in a bank.

ghost use Rattle.std.specs.Prelude.{◌≡◌, ◌<◌, ◌≤◌, IfOk, OnOk, OnErr};
ghost use Rattle.std.specs.List.{All};
ghost use Rattle.std.specs.List.Sorted.{IsStrictlyIncreasing};
ghost use Rattle.fol_base.specs.Clause.{clause_size, clause_variables};
ghost use Rattle.fol_base.specs.Canonical.{IsCanonical, bound_of};
ghost use Rattle.fol_base.specs.Literal.{clause_of};
ghost use Rattle.term_bank.specs.Table.{IsTableOf};
ghost use Rattle.term_bank.specs.Interning.{InternsAll, InternsFirst};
ghost use Rattle.bank_clause.specs.Clause.{
  AreAssertions,
  IsClauseOf,
  IsKnown,
  clause_at,
  sides,
};

use crate::interning::{bare_names, intern_literals};
use crate::trees::{negative_names, tree_literals};
use fol_base::{Clause, Literals, SIZE_LIMIT};
use plain_types::{Mem, Names};
use smallvec::SmallVec;
use std::alloc::Global;
use std::marker::Model;
use std::sync::Wait;
use term_bank::{Bank, BankLit, Table};

/// Few clauses have more literals, so most lists of them take no allocation of their own.
pub(crate) type BankLits = SmallVec<BankLit, 4>;

/// A clause whose literals' sides are terms of a bank, with the names of the split-off parts that it
/// asserts. Its variables are numbered by first occurrence. Clauses are equal, and hashed, by their signs, the numbers of their sides and
/// their names, which means something only inside one bank.
#[derive(Drop)]
pub struct BankClause {
    literals: BankLits,
    names: Vec<u32>,
    symbols: u32,
    variables: u32,
}

const _: () = prove!(size_of::<BankClause>() == 128);

impl Model for BankClause {
    ghost use Rattle.bank_clause.specs.Parts.{ClauseParts, IsClauseOver, clause_parts_code};

    ghost Value = { ClauseParts };

    ghost coded = { clause_parts_code };

    ghost view = { λ c. record { literals = c.literals.items; names = c.names.items } };

    ghost invariant = { λ c. IsClauseOver c.literals.items c.names.items c.symbols c.variables };
}

impl BankClause {
    /// The clause with its literals' sides interned, from left to right; the table learns
    /// nothing else. After an out-of-memory error some first ones of the sides have been interned.
    pub fn of_clause<R: Wait>(
        rt: &R,
        alloc: Global,
        bank: &Bank,
        table: &mut Table,
        clause: &Clause,
    ) -> Mem<BankClause>
        requires table { IsTableOf bank.now table.old }
        requires canonical { IsCanonical (clause_of clause.now) }
        requires names { AreAssertions clause.now.names }
        requires size { clause_size (clause_of clause.now) < SIZE_LIMIT }
        ensures of_bank { IfOk result (IsClauseOf bank.now) }
        ensures same { IfOk result (λ made. clause_at made ≡ clause_of clause.now) }
        ensures known { IfOk result (λ made. All (IsKnown table.new) made.literals) }
        ensures table { IsTableOf bank.now table.new }
        ensures interned { OnOk result
            (InternsAll (sides (clause_of clause.now).literals) table.old table.new) }
        ensures interned_first { OnErr result
            (InternsFirst (sides (clause_of clause.now).literals) table.old table.new) }
    {
        let names = bare_names(alloc, clause.names.as_slice())?;
        let literals = intern_literals(rt, alloc, bank, table, clause.literals.as_slice())?;
        Ok(BankClause {
            literals,
            names,
            symbols: clause.size() as u32,
            variables: clause.variable_bound() as u32,
        })
    }

    /// The clause as trees. `of_clause` takes it back.
    pub fn to_clause(&self, bank: &Bank) -> Mem<Clause>
        requires { IsClauseOf bank.now self.now }
        ensures same { IfOk result (λ clause. clause_of clause ≡ clause_at self.now) }
        ensures canonical { IfOk result (λ clause. IsCanonical (clause_of clause)) }
        ensures names { IfOk result (λ clause. AreAssertions clause.names) }
        ensures size { IfOk result (λ clause. clause_size (clause_of clause) < SIZE_LIMIT) }
    {
        let alloc = *self.literals.allocator();
        let literals = tree_literals(alloc, bank, self.literals.as_slice())?;
        let names = negative_names(alloc, self.names.as_slice())?;
        Ok(Clause {
            literals: Literals::from_vec(literals),
            names: Names::from_vec(names),
        })
    }

    /// The literals, lent. Their variables are numbered by first occurrence.
    pub fn literals(&self) -> &[BankLit]
        ensures literals { result.now ≡ self.now.literals }
        ensures canonical { IsCanonical (clause_at self.now) }
    {
        self.literals.as_slice()
    }

    /// The names of the split-off parts that the clause asserts, rising.
    pub fn names(&self) -> &[u32]
        ensures names { result.now ≡ self.now.names }
        ensures rise { IsStrictlyIncreasing result.now }
    {
        &self.names
    }

    /// The sizes of both sides of all literals together. Names count nothing.
    pub fn size(&self) -> u32
        ensures size { result ≡ clause_size (clause_at self.now) }
        ensures limit { result < SIZE_LIMIT }
    {
        self.symbols
    }

    /// How many variables there are: they have the numbers below it.
    pub fn variable_bound(&self) -> u32
        ensures variables { result ≡ bound_of (clause_variables (clause_at self.now)) }
        ensures few { result ≤ clause_size (clause_at self.now) }
        ensures limit { result < SIZE_LIMIT }
    {
        self.variables
    }

    /// The literals under other assertions.
    pub(crate) fn with_names(self, names: Vec<u32>) -> BankClause
        requires { IsStrictlyIncreasing names.items }
        ensures { result ≡ record { literals = self.literals; names = names.items } }
    {
        let BankClause {
            literals,
            names: _,
            symbols,
            variables,
        } = self;
        BankClause {
            literals,
            names,
            symbols,
            variables,
        }
    }

    /// An equal clause.
    pub fn copied(&self) -> Mem<BankClause>
        ensures { IfOk result (λ made. made ≡ self.now) }
    {
        let alloc = *self.literals.allocator();
        let literals = copied_literals(alloc, self.literals.as_slice())?;
        let mut names = Vec::new(alloc);
        names.extend_from_slice(self.names.as_slice())?;
        Ok(BankClause {
            literals,
            names,
            symbols: self.symbols,
            variables: self.variables,
        })
    }
}

/// Equal literals.
fn copied_literals(alloc: Global, literals: &[BankLit]) -> Mem<BankLits>
    ensures { IfOk result (λ made. made.items ≡ literals.now) }
{
    let mut made = SmallVec::with_capacity(alloc, literals.len())?;
    for literal in literals {
        made.push(literal.copy())?;
    }
    Ok(made)
}
