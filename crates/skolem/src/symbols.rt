// The Skolem symbols of a form, added to the signature.

ghost use Rattle.std.specs.Prelude.{◌≡◌, ◌+◌, ◌++◌, length, take, IfOk, OnErr};
ghost use Rattle.signature.specs.Symbol.{function_symbol};
ghost use Rattle.signature.specs.Form.{AreUnused, numbered_symbols};

use plain_types::{Mem, NoMemory, Text};
use signature::{Signature, SymbolKind};
use std::alloc::Global;

/// Adds the symbols of those numbers of arguments, named by the prefix and the numbers from `next` on, and gives the number after the
/// last. After an out-of-memory error the signature is as before.
pub fn add_skolem_symbols(
    alloc: Global,
    signature: &mut Signature,
    prefix: &Text,
    next: u32,
    arities: &[u32],
) -> Mem<u32>
    requires unused { AreUnused signature.old prefix.now next }
    ensures number { IfOk result (λ number. number ≡ next + length arities.now) }
    ensures added { IfOk result (λ _.
        signature.new ≡ signature.old ++ numbered_symbols function_symbol prefix.now next arities.now) }
    ensures unchanged { OnErr result (signature.new ≡ signature.old) }
{
    let before = signature.len();
    let added = push_symbols(alloc, signature, prefix, next, arities);
    if added.is_err() {
        signature.truncate(before);
    }
    added
}

/// Adds them; after an out-of-memory error there may be further symbols at the end.
fn push_symbols(
    alloc: Global,
    signature: &mut Signature,
    prefix: &Text,
    next: u32,
    arities: &[u32],
) -> Mem<u32>
    requires unused { AreUnused signature.old prefix.now next }
    ensures number { IfOk result (λ number. number ≡ next + length arities.now) }
    ensures added { IfOk result (λ _.
        signature.new ≡ signature.old ++ numbered_symbols function_symbol prefix.now next arities.now) }
    ensures begun { OnErr result (take (length signature.old) signature.new ≡ signature.old) }
{
    let mut number = next;
    for arity in arities {
        signature.add_numbered(alloc, SymbolKind::Function, prefix, number, *arity)?;
        number = number_after(number)?;
    }
    Ok(number)
}

/// The next number, where there is one; else out of memory, since no more symbols fit.
pub fn number_after(number: u32) -> Mem<u32>
    ensures { IfOk result (λ next. next ≡ number + 1) }
{
    number.checked_add(1).ok_or(NoMemory)
}
