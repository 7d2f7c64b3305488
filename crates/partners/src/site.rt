// Sites as terms: what an index of sites is searched by.

ghost use Rattle.std.specs.Prelude.{◌≡◌, List, Option, option_map};
ghost use Rattle.fol_base.specs.Tree.{Tree};
ghost use Rattle.fol_base.specs.Clause.{TreeLiteral};
ghost use Rattle.fol_base.specs.Term.{tree_of};
ghost use Rattle.partners.specs.SiteTerms.{place_term, start_term};

use bank_clause::BankLiterals;
use eq_rules::LiteralSide;
use fol_base::{LendsLiterals, Term, at};
use superpose::LiteralPlace;

/// A site of a clause, which stands for one of its terms.
pub(crate) trait Site {
    ghost term_in: { List TreeLiteral → Self → Option Tree };

    /// The term at the site. None where the clause has no such site.
    fn term<'a>(&self, literals: &'a BankLiterals<'_>) -> Option<&'a Term>
        ensures { option_map (λ found. tree_of found.now) result ≡ term_in literals.entry.now self.now };
}

impl Site for LiteralSide {
    ghost term_in = { start_term };

    fn term<'a>(&self, literals: &'a BankLiterals<'_>) -> Option<&'a Term> {
        if self.literal < literals.count() {
            Some(literals.literal(self.literal).side(self.side))
        } else {
            None
        }
    }
}

impl Site for LiteralPlace {
    ghost term_in = { place_term };

    fn term<'a>(&self, literals: &'a BankLiterals<'_>) -> Option<&'a Term> {
        match self.at.term(literals) {
            Some(side) => at(side, &self.place),
            None => None,
        }
    }
}
