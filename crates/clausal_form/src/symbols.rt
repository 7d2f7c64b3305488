// The symbols that a form has beyond its problem's: the prefixes of their names, the naming symbols and the spare constant.

ghost use Rattle.std.specs.Prelude.{◌≡◌, codes, IfOk};
ghost use Rattle.std.specs.List.{list_any};
ghost use Rattle.signature.specs.Prefix.{fresh_prefix_of};
ghost use Rattle.signature.specs.Form.{AreUnused, is_constant};
ghost use Rattle.clausal_form.specs.Symbols.{with_names, with_spare};

use plain_types::{Mem, Text};
use signature::{Signature, Symbol, SymbolKind, fresh_prefix};
use skolem::number_after;
use std::alloc::Global;

/// The beginnings of the names that a form makes, with which no name of the problem begins.
#[derive(Drop)]
pub(crate) struct Prefixes {
    pub skolem: Text,
    pub naming: Text,
    pub spare: Text,
}

/// The prefixes for a problem of those symbols.
pub(crate) fn fresh_prefixes(alloc: Global, signature: &Signature) -> Mem<Prefixes>
    ensures skolem { IfOk result (λ prefixes. prefixes.skolem ≡ fresh_prefix_of signature.now (codes "sk")) }
    ensures naming { IfOk result (λ prefixes. prefixes.naming ≡ fresh_prefix_of signature.now (codes "nm")) }
    ensures spare { IfOk result (λ prefixes. prefixes.spare ≡ fresh_prefix_of signature.now (codes "hc")) }
{
    Ok(Prefixes {
        skolem: fresh_prefix(alloc, signature, "sk")?,
        naming: fresh_prefix(alloc, signature, "nm")?,
        spare: fresh_prefix(alloc, signature, "hc")?,
    })
}

/// Adds naming symbols of those numbers of arguments, named by the prefix and the numbers from 0 on. After an out-of-memory error there may be some
/// of them.
pub(crate) fn add_naming_symbols(
    alloc: Global,
    signature: &mut Signature,
    prefix: &Text,
    arities: &[u32],
) -> Mem<()>
    requires unused { AreUnused signature.old prefix.now 0 }
    ensures { IfOk result (λ _. signature.new ≡ with_names prefix.now arities.now signature.old) }
{
    let mut number = 0;
    for arity in arities {
        signature.add_numbered(alloc, SymbolKind::Predicate, prefix, number, *arity)?;
        number = number_after(number)?;
    }
    Ok(())
}

/// Adds the spare constant, named by the prefix and 0, where there is no constant.
pub(crate) fn add_spare_constant(alloc: Global, signature: &mut Signature, prefix: &Text) -> Mem<()>
    requires unused { AreUnused signature.old prefix.now 0 }
    ensures { IfOk result (λ _. signature.new ≡ with_spare prefix.now signature.old) }
{
    if has_constant(signature.as_slice()) {
        return Ok(());
    }
    signature.add_numbered(alloc, SymbolKind::Function, prefix, 0, 0)
}

/// Whether one of them is a constant.
fn has_constant(symbols: &[Symbol]) -> bool
    ensures { result ≡ list_any is_constant symbols.now }
{
    for symbol in symbols {
        if is_a_constant(symbol) {
            return true;
        }
    }
    false
}

/// Whether the symbol is a constant.
fn is_a_constant(symbol: &Symbol) -> bool
    ensures { result ≡ is_constant symbol.now }
{
    match symbol.kind {
        SymbolKind::Predicate => false,
        SymbolKind::Function => symbol.arity == 0,
    }
}
