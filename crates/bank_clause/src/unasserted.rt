// Clauses that get their assertion later.

ghost use Rattle.std.specs.Prelude.{◌≡◌, [], ◌∷◌, IfOk};

use crate::clause::BankClause;
use plain_types::Mem;
use std::alloc::Global;
use std::marker::Model;

/// A clause without assertions, with room for one. A part of a clause is made before the tag of the part is known; it gets that as its
/// assertion at a moment when no memory may be taken. Contracts see the clause.
#[derive(Drop)]
pub struct UnassertedClause {
    clause: BankClause,
    names: Vec<u32>,
}

impl Model for UnassertedClause {
    ghost use Rattle.std.specs.Prelude.{◌≡◌, ◌<◌, [], vec_len, vec_capacity};
    ghost use Rattle.bank_clause.specs.Parts.{ClauseParts, clause_parts_code};

    ghost Value = { ClauseParts };

    ghost coded = { clause_parts_code };

    ghost view = { λ u. u.clause };

    ghost invariant = { λ u. (u.clause.names ≡ []) × (u.names.items ≡ []) × (vec_len u.names < vec_capacity u.names) };
}

impl UnassertedClause {
    /// A clause without assertions, with room made for one.
    pub fn of(alloc: Global, clause: BankClause) -> Mem<UnassertedClause>
        requires { clause.names ≡ [] }
        ensures { IfOk result (λ made. made ≡ clause) }
    {
        let names = Vec::with_capacity(alloc, 1)?;
        Ok(UnassertedClause { clause, names })
    }

    /// The clause, lent.
    pub fn clause(&self) -> &BankClause
        ensures clause { result.now ≡ self.now }
        ensures unnamed { self.now.names ≡ [] }
    {
        &self.clause
    }

    /// The clause with a name as its assertion. It takes no memory.
    pub fn asserting(self, name: u32) -> BankClause
        ensures { result ≡ record { literals = self.literals; names = name ∷ [] } }
    {
        let UnassertedClause { clause, mut names } = self;
        names.push_reserved(name);
        clause.with_names(names)
    }
}
