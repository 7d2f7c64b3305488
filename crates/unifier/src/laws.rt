// The laws of unifiers: each is the contract of a function without arguments and with an empty body.

ghost use Rattle.unifier.specs.Additions.{
  FurtherTermsAreSubterms,
  MatchersPutSubterms,
  SubtermsAddNothing,
  UnifiersAddNoSymbols,
  UnifiersAddNoVariables,
  UnifiersApartAddNoSymbols,
};
ghost use Rattle.unifier.specs.Laws.{
  MatchersPutFunctionTerms,
  UnifiersApartPutFunctionTerms,
  UnifiersPutFunctionTerms,
};
ghost use Rattle.unifier.specs.Renaming.{FitLeavesOthers, FitLeavesOthersApart, FitsAbove};
ghost use Rattle.unifier.specs.SharedLaws.{
  OwnTermsAreNamed,
  SharedKeepSizes,
  SharedPutFunctionTerms,
  SharedUnify,
  SharedUnifyApart,
  SharedUnifyOne,
};

/// A most general unifier of two function terms, or of two terms each of which is a predicate term or
/// `$true`, puts in function terms alone.
pub fn unifiers_put_function_terms()
    ensures together { UnifiersPutFunctionTerms }
    ensures apart { UnifiersApartPutFunctionTerms }
{}

/// The substitution of pairs whose terms are function terms puts in function terms alone, and so does that of
/// `Matched::subst`.
pub fn matchers_put_function_terms()
    ensures { MatchersPutFunctionTerms }
{}

/// A most general unifier puts in no symbols but those of the two terms.
pub fn unifiers_add_no_symbols()
    ensures together { UnifiersAddNoSymbols }
    ensures apart { UnifiersApartAddNoSymbols }
{}

/// The unifier that `unify` finds puts in, for the variables of the two terms, no variables but theirs.
pub fn unifiers_add_no_variables()
    ensures { UnifiersAddNoVariables }
{}

/// A matcher puts in subterms of the target for the variables of the pattern, and so do the pairs that `match_onto` and `extend` add.
/// These have no symbols and no variables but the target's.
pub fn matchers_put_subterms()
    ensures variables { MatchersPutSubterms }
    ensures pairs { FurtherTermsAreSubterms }
    ensures nothing_added { SubtermsAddNothing }
{}

/// The terms that `Bindings::terms` gives are those of the unifier by names that can be undone; those of `Bindings::substs` are so too,
/// as `AreRenamed` says.
pub fn own_terms_are_named()
    ensures { OwnTermsAreNamed }
{}

/// After `unify`, the terms of `Bindings::terms` or `Bindings::substs` make the terms equal, and all substitutions
/// that do are another after them, on the variables that were asked for. Where the sides aren't taken apart
/// and the left count is above the variables of both terms, the left one alone does, as for
/// `substs(count, 0)`.
pub fn shared_substitutions_unify()
    ensures together { SharedUnify }
    ensures apart { SharedUnifyApart }
    ensures one { SharedUnifyOne }
{}

/// The instances of literals under the substitutions of `Bindings::substs` have the size that
/// `Bindings::instance_size` tells.
pub fn shared_substitutions_keep_sizes()
    ensures { SharedKeepSizes }
{}

/// The substitutions of `Bindings::substs` put in function terms alone, where `unify` was given two function
/// terms, or two terms each of which is a predicate term or `$true`.
pub fn shared_substitutions_put_function_terms()
    ensures { SharedPutFunctionTerms }
{}

/// The meaning of `Bindings::fits`: each variable that isn't below its side's count stands for itself; where the
/// sides aren't taken apart, each that is below neither count. Larger counts fit too.
pub fn counts_that_fit()
    ensures together { FitLeavesOthers }
    ensures apart { FitLeavesOthersApart }
    ensures above { FitsAbove }
{}
