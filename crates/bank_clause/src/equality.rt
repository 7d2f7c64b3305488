// Equality of bank clauses by the numbers of their references.

ghost use Rattle.std.specs.Prelude.{◌≡◌, true};
ghost use Rattle.std.specs.Cmp.{partial_equiv_from_equiv};
ghost use lib.Pointwise.{pointwise};
ghost use Rattle.term_bank.specs.Literal.{IsLiteralOf, AreLiteralsOf, literal_at, literals_at, same_numbers};
ghost use Rattle.bank_clause.specs.Clause.{IsClauseOf, clause_at, equal_by_numbers};
ghost use Rattle.bank_clause.specs.Equality.{equal_by_numbers_equiv};

use crate::clause::BankClause;
use term_bank::{Bank, BankLit};

impl PartialEq for BankClause {
    ghost eq = { equal_by_numbers };

    ghost laws = { partial_equiv_from_equiv equal_by_numbers_equiv };

    fn eq(&self, other: &BankClause) -> bool {
        self.literals() == other.literals() && self.names() == other.names()
    }
}

impl Eq for BankClause {
    ghost laws = { equal_by_numbers_equiv };
}

impl BankClause {
    /// Shows that clauses of one bank that are equal by numbers are the same clause. It changes nothing.
    pub fn agree(&self, bank: &Bank, other: &BankClause)
        requires first { IsClauseOf bank.now self.now }
        requires second { IsClauseOf bank.now other.now }
        requires equal { equal_by_numbers self.now other.now ≡ true }
        ensures { clause_at self.now ≡ clause_at other.now }
    {
        agree_literals(bank, self.literals(), other.literals());
    }
}

fn agree_literals(bank: &Bank, first: &[BankLit], second: &[BankLit])
    requires first { AreLiteralsOf bank.now first.now }
    requires second { AreLiteralsOf bank.now second.now }
    requires equal { pointwise same_numbers first.now second.now ≡ true }
    ensures { literals_at first.now ≡ literals_at second.now }
{
    for index in 0..first.len() {
        agree_literal(bank, &first[index], &second[index]);
    }
}

fn agree_literal(bank: &Bank, first: &BankLit, second: &BankLit)
    requires first { IsLiteralOf bank.now first.now }
    requires second { IsLiteralOf bank.now second.now }
    requires equal { same_numbers first.now second.now ≡ true }
    ensures { literal_at first.now ≡ literal_at second.now }
{
    bank.agree(&first.left, &second.left);
    bank.agree(&first.right, &second.right);
}
