// A clause of a bank lends its literals: no term is copied to be looked at.

ghost use Rattle.std.specs.Prelude.{◌≡◌};
ghost use Rattle.bank_clause.specs.Clause.{IsClauseOf, clause_at};

use crate::clause::BankClause;
use fol_base::{LendsLiterals, LiteralRef};
use std::marker::Model;
use term_bank::{Bank, BankLit};

/// The literals of a clause of a bank, lent with the bank, whose terms are their sides.
#[derive(Drop)]
pub struct BankLiterals<'a> {
    bank: &'a Bank,
    literals: &'a [BankLit],
}

impl<'a> Model for BankLiterals<'a> {
    ghost use Rattle.std.specs.Prelude.{List};
    ghost use Rattle.fol_base.specs.Clause.{TreeLiteral};
    ghost use Rattle.term_bank.specs.Literal.{AreLiteralsOf, literals_at};
    ghost use Rattle.bank_clause.specs.Lending.{tree_literals_code};

    ghost Value = { List TreeLiteral };

    ghost coded = { tree_literals_code };

    ghost view = { λ lent. literals_at lent.literals.now };

    ghost invariant = { λ lent. AreLiteralsOf lent.bank.now lent.literals.now };
}

impl BankClause {
    /// The literals as literals of terms, lent.
    pub fn lend<'a>(&'a self, bank: &'a Bank) -> BankLiterals<'a>
        requires { IsClauseOf bank.now self.now }
        ensures { result ≡ (clause_at self.entry.now).literals }
    {
        BankLiterals {
            bank,
            literals: self.literals(),
        }
    }
}

impl<'a> LendsLiterals for BankLiterals<'a> {
    ghost meaning = { λ lent. lent };

    fn count(&self) -> usize {
        self.literals.len()
    }

    fn literal(&self, index: usize) -> LiteralRef<'_> {
        let literals = self.literals;
        let literal = &literals[index];
        LiteralRef {
            positive: literal.positive,
            left: self.bank.tree(&literal.left),
            right: self.bank.tree(&literal.right),
        }
    }
}
