// The numbers of symbols, and Skolem terms.

ghost use Rattle.std.specs.Prelude.{◌≡◌, IfOk};
ghost use Rattle.fol_base.specs.Term.{tree_of};
ghost use Rattle.signature.specs.Symbol.{number_of};
ghost use Rattle.signature.specs.Clausal.{applied};
ghost use Rattle.skolem.specs.Skolemized.{IsKnown};

use fol_base::{Term, Terms};
use plain_types::{Mem, NoMemory};
use signature::{Signature, SymbolKind, SymbolRef, arity_of};
use std::alloc::Global;

/// The number of the symbol of that kind, name and number of arguments.
pub(crate) fn number_in(
    signature: &Signature,
    kind: SymbolKind,
    name: &[u8],
    arguments: usize,
) -> Mem<u32>
    requires known { IsKnown signature.now (record { kind = kind; name = name.now; arity = arguments }) }
    ensures { IfOk result (λ number. number ≡ number_of signature.now (record { kind = kind; name = name.now; arity = arguments })) }
{
    let arity = arity_of(arguments)?;
    signature
        .find(SymbolRef { kind, name, arity })
        .ok_or(NoMemory)
}

/// A symbol applied to variables.
pub(crate) fn applied(alloc: Global, symbol: u32, variables: &[u32]) -> Mem<Term>
    ensures { IfOk result (λ term. tree_of term ≡ applied symbol variables.now) }
{
    let mut arguments = Terms::new(alloc);
    for variable in variables {
        arguments.push(Term::Var(*variable))?;
    }
    Ok(Term::App(symbol, arguments))
}
