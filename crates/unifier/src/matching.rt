// Matching: what turns a pattern into a target.

ghost use Rattle.std.specs.Prelude.{◌≡◌, ℕ, Bool, true, None, Some, length, map, take, IfOk, IfSome, OnErr, IsTrue, MatchOption, if◌then◌else◌};
ghost use Rattle.fol_base.specs.Tree.{trees_of, VariablesBelow};
ghost use Rattle.fol_base.specs.Term.{tree_of};
ghost use Rattle.unifier.specs.Matching.{IsExtended, IsMatched, NoMatcher, are_below, term_for};
ghost use Rattle.unifier.specs.Laws.{AreFunctionPairs, are_of_one_kind};
ghost use Rattle.unifier.specs.Walk.{met, walk, walk_all};

use crate::matched::Matched;
use fol_base::{Term, same_term};
use plain_types::Mem;
use std::alloc::Global;

/// The matcher that has the pairs of `so_far` and one pair for each further variable of the pattern.
/// None exactly where no matcher has all of them. The target's subterms are borrowed, not copied.
/// Function terms in give function terms out, and a number above the variables of the pattern and of the
/// pairs handed in is above those of the pairs found.
pub fn match_onto<'a>(
    alloc: Global,
    pattern: &Term,
    target: &'a Term,
    so_far: &Matched<'a>,
) -> Mem<Option<Matched<'a>>>
    ensures found { IfOk result (λ found. MatchOption found
        (NoMatcher so_far.now (tree_of pattern.now) (tree_of target.now))
        (IsMatched so_far.now (tree_of pattern.now) (tree_of target.now))) }
    ensures below { IfOk result (λ found. (count : ℕ) → VariablesBelow count (tree_of pattern.now)
        → are_below count so_far.now ≡ true → IfSome found (λ pairs. are_below count pairs ≡ true)) }
    ensures function_terms { IfOk result (λ found. (is_predicate : ℕ → Bool)
        → IsTrue (are_of_one_kind is_predicate (tree_of pattern.now) (tree_of target.now))
        → AreFunctionPairs is_predicate so_far.now → IfSome found (AreFunctionPairs is_predicate)) }
{
    let mut found = so_far.copied(alloc)?;
    if found.extend(pattern, target)? {
        Ok(Some(found))
    } else {
        Ok(None)
    }
}

impl<'a> Matched<'a> {
    /// Adds a pair for each further variable of the pattern, where that makes a matcher, and says whether it does: false exactly where
    /// no matcher has the pairs that are there. Where the answer is false, and after an out-of-memory error, the pairs are as before. Memory is
    /// taken only for new pairs.
    pub fn extend(&mut self, pattern: &Term, target: &'a Term) -> Mem<bool>
        ensures found { IfOk result (λ fits. IsExtended self.old (tree_of pattern.now) (tree_of target.now) self.new fits) }
        ensures below { IfOk result (λ _. (count : ℕ) → VariablesBelow count (tree_of pattern.now)
            → are_below count self.old ≡ true → are_below count self.new ≡ true) }
        ensures function_terms { IfOk result (λ _. (is_predicate : ℕ → Bool)
            → IsTrue (are_of_one_kind is_predicate (tree_of pattern.now) (tree_of target.now))
            → AreFunctionPairs is_predicate self.old → AreFunctionPairs is_predicate self.new) }
        ensures err { OnErr result (self.new ≡ self.old) }
    {
        let count = self.len();
        match self.follow(pattern, target) {
            Ok(true) => Ok(true),
            Ok(false) => {
                self.cut(count);
                Ok(false)
            }
            Err(refused) => {
                self.cut(count);
                Err(refused)
            }
        }
    }

    /// Adds what turns the pattern into the target as far as both are followed, and says whether it can.
    #[cycle(follow)]
    fn follow(&mut self, pattern: &Term, target: &'a Term) -> Mem<bool>
        ensures found { IfOk result (λ fits.
            walk self.old (tree_of pattern.now) (tree_of target.now) ≡ (if fits then Some self.new else None)) }
        ensures grows { take (length self.old) self.new ≡ self.old }
    {
        match pattern {
            Term::Var(variable) => self.meet(*variable, target),
            Term::App(symbol, arguments) => match target {
                Term::Var(_) => Ok(false),
                Term::App(other, others) => {
                    if *symbol == *other {
                        self.follow_all(arguments.as_slice(), others.as_slice())
                    } else {
                        Ok(false)
                    }
                }
            },
        }
    }

    /// Adds what turns each term of a list into the one at its place.
    #[cycle(follow)]
    fn follow_all(&mut self, patterns: &[Term], targets: &'a [Term]) -> Mem<bool>
        ensures found { IfOk result (λ fits.
            walk_all self.old (trees_of (map tree_of patterns.now)) (trees_of (map tree_of targets.now))
            ≡ (if fits then Some self.new else None)) }
        ensures grows { take (length self.old) self.new ≡ self.old }
    {
        if patterns.len() != targets.len() {
            return Ok(false);
        }
        for index in 0..patterns.len() {
            if !self.follow(&patterns[index], &targets[index])? {
                return Ok(false);
            }
        }
        Ok(true)
    }

    /// A variable that has a term must have this one; one that has none gets it.
    fn meet(&mut self, variable: u32, target: &'a Term) -> Mem<bool>
        ensures found { IfOk result (λ fits.
            met (term_for variable self.old) self.old variable (tree_of target.now) ≡ (if fits then Some self.new else None)) }
        ensures grows { take (length self.old) self.new ≡ self.old }
    {
        match self.term_for(variable) {
            Some(term) => Ok(same_term(term, target)),
            None => {
                self.push(variable, target)?;
                Ok(true)
            }
        }
    }
}
