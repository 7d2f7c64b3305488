// Subsumption of one clause by another.

ghost use Rattle.std.specs.Prelude.{◌≡◌, ◌↔◌, ℕ, Bool, true, map, IfOk, IfSome, IsTrue, All};
ghost use Rattle.fol_base.specs.Clause.{TreeClause, LiteralVariablesBelow};
ghost use Rattle.fol_base.specs.Literal.{clause_of};
ghost use Rattle.fol_base.specs.Lent.{lent_of};
ghost use Rattle.fol_base.specs.Subsumption.{Subsumes, all_different};
ghost use Rattle.fol_base.specs.WellFormed.{SymbolUse};
ghost use Rattle.bank_clause.specs.Clause.{clause_at, IsClauseOf};
ghost use Rattle.unifier.specs.Matching.{are_below, variables_of};
ghost use Rattle.unifier.specs.Laws.{AreFunctionPairs};
ghost use Rattle.subsume.specs.Kinds.{AreLiterals};
ghost use Rattle.subsume.specs.Placing.{IsFoundFor};
ghost use Rattle.subsume.specs.Target.{AreOfUse, IsMapped, IsSubsumption, IsTargetOf, Maps};

use crate::choosing::have_partners;
use crate::placing::place;
use crate::target::{Target, lent_literals};
use bank_clause::BankClause;
use fol_base::{Clause, LendsLiterals, LiteralRef, Subst, are_among, asserted_numbers};
use plain_types::Mem;
use std::alloc::Global;
use term_bank::Bank;
use unifier::Matched;

/// A substitution by which a clause subsumes another: it maps the literals of the first to different literals of the second, sides in
/// either order, and the assertions of the first are among the second's. None exactly where there is none.
pub fn subsumes(
    alloc: Global,
    bank: &Bank,
    general: &BankClause,
    special: &Clause,
) -> Mem<Option<Subst>>
    requires { IsClauseOf bank.now general.now }
    ensures { IfOk result (λ found. (usage : SymbolUse) → AreOfUse usage (clause_at general.now) (clause_of special.now)
        → IsSubsumption usage.is_predicate (clause_at general.now) (clause_of special.now) found) }
{
    let target = Target {
        literals: lent_literals(alloc, &special.literals)?,
        assertions: asserted_numbers(alloc, special.names.as_slice())?,
    };
    match find_matcher(alloc, &general.lend(bank), general.names(), &target)? {
        None => Ok(None),
        Some(pairs) => Ok(Some(pairs.subst(general.variable_bound())?)),
    }
}

/// Whether a clause subsumes another.
pub(crate) fn is_subsumed(
    alloc: Global,
    bank: &Bank,
    general: &BankClause,
    target: &Target<'_>,
) -> Mem<bool>
    requires { IsClauseOf bank.now general.now }
    ensures { IfOk result (λ found. (usage : SymbolUse) (d : TreeClause) → IsTargetOf target.now d → AreOfUse usage (clause_at general.now) d
        → IsTrue found ↔ Subsumes usage.is_predicate (clause_at general.now) d) }
{
    let found = find_matcher(alloc, &general.lend(bank), general.names(), target)?;
    Ok(found.is_some())
}

/// The pairs of the substitutions that map literals to different literals of a target, where the target has the assertions.
fn find_matcher<'a, L: LendsLiterals>(
    alloc: Global,
    literals: &L,
    names: &[u32],
    target: &Target<'a>,
) -> Mem<Option<Matched<'a>>>
    ensures found { IfOk result (IsFoundFor (L.meaning literals.now) (map lent_of target.now.literals.items)
        (Maps names.now (L.meaning literals.now) target.now.assertions.items (map lent_of target.now.literals.items))) }
    ensures below { IfOk result (λ found. (count : ℕ) → All (LiteralVariablesBelow count) (L.meaning literals.now)
        → IfSome found (λ pairs. are_below count pairs ≡ true)) }
    ensures function_terms { IfOk result (λ found. (is_predicate : ℕ → Bool)
        → AreLiterals is_predicate (L.meaning literals.now) → AreLiterals is_predicate (map lent_of target.now.literals.items)
        → IfSome found (AreFunctionPairs is_predicate)) }
    ensures once { IfOk result (λ found. IfSome found (λ pairs. all_different (variables_of pairs) ≡ true)) }
{
    if !are_among(names, target.assertions.as_slice()) {
        return Ok(None);
    }
    let targets = target.literals.as_slice();
    let found = have_partners(alloc, literals, targets)?;
    if !found {
        return Ok(None);
    }
    let patterns = lent_literals(alloc, literals)?;
    find_places(alloc, patterns.as_slice(), targets)
}

/// The pairs for literals that are lent, whatever is asserted.
fn find_places<'a>(
    alloc: Global,
    patterns: &[LiteralRef<'_>],
    targets: &[LiteralRef<'a>],
) -> Mem<Option<Matched<'a>>>
    ensures found { IfOk result (IsFoundFor (map lent_of patterns.now) (map lent_of targets.now)
        (IsMapped (map lent_of patterns.now) (map lent_of targets.now))) }
    ensures below { IfOk result (λ found. (count : ℕ) → All (LiteralVariablesBelow count) (map lent_of patterns.now)
        → IfSome found (λ pairs. are_below count pairs ≡ true)) }
    ensures function_terms { IfOk result (λ found. (is_predicate : ℕ → Bool)
        → AreLiterals is_predicate (map lent_of patterns.now) → AreLiterals is_predicate (map lent_of targets.now)
        → IfSome found (AreFunctionPairs is_predicate)) }
    ensures once { IfOk result (λ found. IfSome found (λ pairs. all_different (variables_of pairs) ≡ true)) }
{
    let mut used = Vec::new(alloc);
    used.resize(targets.len(), false)?;
    place(
        alloc,
        patterns,
        targets,
        used.as_mut_slice(),
        Matched::empty(alloc),
    )
}
