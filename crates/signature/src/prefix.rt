// The beginnings of the names that the product makes.

ghost use Rattle.std.specs.Prelude.{◌≡◌, ◌≤◌, ◌++◌, length, IfOk};
ghost use Rattle.signature.specs.Prefix.{underscores, underscore_run, needed_after, needed, fresh_prefix_of};

use crate::signature::Signature;
use crate::symbol::Symbol;
use plain_types::{Mem, Text};
use std::alloc::Global;

/// The base followed by the least number of `_` such that no symbol's name begins with the result. The signature is that of the
/// problem, before anything is added.
pub fn fresh_prefix(alloc: Global, signature: &Signature, base: &str) -> Mem<Text>
    ensures { IfOk result (λ prefix. prefix ≡ fresh_prefix_of signature.now base.now) }
{
    let count = needed_for_all(base.as_bytes(), signature.as_slice());
    let mut prefix = Vec::new(alloc);
    prefix.extend_from_slice(base.as_bytes())?;
    for _ in 0..count {
        prefix.push(b'_')?;
    }
    Ok(Text::from_vec(prefix))
}

/// How many `_` have to follow the base so that no symbol's name begins with the result.
fn needed_for_all(base: &[u8], symbols: &[Symbol]) -> usize
    ensures { result ≡ needed symbols.now base.now }
{
    let mut count = 0;
    for symbol in symbols {
        count = count.max(needed_for(base, symbol.name.as_slice()));
    }
    count
}

/// How many `_` have to follow the base so that the name doesn't begin with the result.
fn needed_for(base: &[u8], name: &[u8]) -> usize
    ensures { result ≡ needed_after base.now name.now }
{
    if !name.starts_with(base) {
        return 0;
    }
    run_of_underscores(&name[base.len()..]) + 1
}

/// How many `_` a text begins with.
fn run_of_underscores(text: &[u8]) -> usize
    ensures value { result ≡ underscore_run text.now }
    ensures bound { result ≤ length text.now }
{
    for place in 0..text.len() {
        if text[place] != b'_' {
            return place;
        }
    }
    text.len()
}
