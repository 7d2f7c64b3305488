// Bindings: the most general unifier that a unification finds.

ghost use Rattle.std.specs.Prelude.{◌≡◌, ◌≤◌, true, sum_by, IfOk};
ghost use Rattle.fol_base.specs.Canonical.{terms_from};
ghost use Rattle.fol_base.specs.Clause.{literal_size};
ghost use Rattle.fol_base.specs.Instance.{instance};
ghost use Rattle.fol_base.specs.Term.{tree_of};
ghost use Rattle.fol_base.specs.Tree.{VariablesBelow, tree_size};
ghost use Rattle.fol_base.specs.Ground.{literals_instance};
ghost use Rattle.term_bank.specs.Literal.{AreLiteralsOf, literals_at};
ghost use Rattle.unifier.specs.SolvedForm.{substitution_of};
ghost use Rattle.unifier.specs.Renaming.{AreRenamed, fits};
ghost use Rattle.plain_types.specs.Capped.{capped};

use crate::solution::Solution;
use fol_base::{SIZE_LIMIT, Side, Subst, Term};
use plain_types::Mem;
use std::marker::Model;
use term_bank::{Bank, BankLit};

/// A most general unifier. Contracts see it as a solved form: whether the sides were taken apart, and the
/// variables of the two terms with the trees that they become.
#[derive(Drop)]
pub struct Bindings {
    solution: Solution,
}

impl Model for Bindings {
    ghost use Rattle.unifier.specs.SolvedForm.{SolvedForm};
    ghost use Rattle.unifier.specs.SolvedFormCode.{solved_form_code};

    ghost Value = { SolvedForm };

    ghost coded = { solved_form_code };

    ghost use Rattle.unifier.specs.Solution.{solved_form};

    ghost view = { λ b. solved_form b.solution };
}

impl Bindings {
    ghost use Rattle.unifier.specs.Solution.{solved_form};

    /// The solved form.
    pub(crate) fn of_solution(solution: Solution) -> Bindings
        ensures { result ≡ solved_form solution }
    {
        Bindings { solution }
    }

    /// The two substitutions into shared variables, for the first `left_vars` variables of the left side
    /// and the first `right_vars` of the right one. The shared variables have the numbers from 0 on,
    /// without gaps. The condition is that neither count is above `SIZE_LIMIT`, and that each variable of the two terms
    /// has a number below its side's count, or below one of both counts where the sides aren't taken apart;
    /// `unify` says which counts meet that, and `fits` tells it too.
    pub fn substs(&self, left_vars: u32, right_vars: u32) -> Mem<(Subst, Subst)>
        requires fits { fits self.now left_vars right_vars ≡ true }
        requires left_room { left_vars ≤ SIZE_LIMIT }
        requires right_room { right_vars ≤ SIZE_LIMIT }
        ensures { IfOk result (λ made. AreRenamed self.now left_vars right_vars made.0 made.1) }
    {
        self.solution.substs(left_vars, right_vars)
    }

    /// The terms for the first variables of a side, in the unifier's own variables, whose numbers are those of the variables of both
    /// sides: where the sides are taken apart, twice the number of a left one, and one more than twice that of a right one. The condition
    /// is that neither `count` nor the number of a variable of the two terms is above `SIZE_LIMIT`; counts that fit tell it, by `counts_that_fit`.
    pub fn terms(&self, side: Side, count: u32) -> Mem<Subst>
        requires fits { fits self.now SIZE_LIMIT SIZE_LIMIT ≡ true }
        requires room { count ≤ SIZE_LIMIT }
        ensures { IfOk result (λ terms. terms ≡ terms_from 0 count (substitution_of self.now side)) }
    {
        self.solution.terms(side, count)
    }

    /// The instance of a side's term, in the unifier's own variables as `terms` has them.
    pub fn apply(&self, side: Side, term: &Term) -> Mem<Term>
        requires fits { fits self.now SIZE_LIMIT SIZE_LIMIT ≡ true }
        requires below { VariablesBelow SIZE_LIMIT (tree_of term.now) }
        ensures { IfOk result (λ made. tree_of made ≡ instance (substitution_of self.now side) (tree_of term.now)) }
    {
        self.solution.apply(side, term)
    }

    /// Whether each variable of the two terms has a number below its side's count, also where it stands for
    /// itself; below one of both counts where the sides aren't taken apart, since a variable is one of both
    /// sides then.
    pub fn fits(&self, left_vars: u32, right_vars: u32) -> bool
        ensures { result ≡ fits self.now left_vars right_vars }
    {
        self.solution.fits(left_vars, right_vars)
    }

    /// The size of a side's literals after the unifier: the occurrences of symbols and variables in both
    /// sides of each, stopping at u64's last value. The instance isn't built, and no memory is taken unless the unifier has more than
    /// 64 cells.
    pub fn instance_size(&self, bank: &Bank, side: Side, literals: &[BankLit]) -> Mem<u64>
        requires { AreLiteralsOf bank.now literals.now }
        ensures { IfOk result (λ size. size
            ≡ capped (sum_by literal_size (literals_instance (substitution_of self.now side) (literals_at literals.now)))) }
    {
        self.solution.instance_size(bank, side, literals)
    }

    /// The size of a side's term after the unifier, as `instance_size` tells it of literals.
    pub fn term_size(&self, side: Side, term: &Term) -> Mem<u64>
        ensures { IfOk result (λ size. size
            ≡ capped (tree_size (instance (substitution_of self.now side) (tree_of term.now)))) }
    {
        self.solution.size_of(side, term)
    }
}
