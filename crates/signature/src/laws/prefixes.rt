// Fresh prefixes.

ghost use Rattle.std.specs.Prelude.{◌≡◌, [], ◌∷◌, codes};
ghost use Rattle.signature.specs.Symbol.{function_symbol};
ghost use Rattle.signature.specs.Prefix.{PrefixIsLeast, fresh_prefix_of};

/// No name begins with a fresh prefix, and with fewer `_` some name does.
pub fn prefix_is_least()
    ensures { PrefixIsLeast }
{}

/// Fresh prefixes: `sk_` where a symbol is named `sk0`.
pub fn prefix_examples()
    ensures taken { fresh_prefix_of (function_symbol (codes "sk0") 0 ∷ []) (codes "sk") ≡ codes "sk_" }
    ensures free { fresh_prefix_of (function_symbol (codes "s") 0 ∷ []) (codes "sk") ≡ codes "sk" }
    ensures longer { fresh_prefix_of (function_symbol (codes "sk__a") 0 ∷ []) (codes "sk") ≡ codes "sk___" }
{}
