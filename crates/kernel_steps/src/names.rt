// Lists of signed names: sorted, each name once, as clauses have them.

ghost use Rattle.std.specs.Prelude.{◌≡◌, ◌++◌, IfOk};
ghost use Rattle.plain_types.specs.Names.{has_name};
ghost use Rattle.kernel_steps.specs.Names.{are_sorted, name_rank, sorted_names};

use plain_types::{Mem, NameLit};
use std::alloc::Global;

/// Whether a signed name stands in the list.
pub(crate) fn has_name(names: &[NameLit], name: NameLit) -> bool
    ensures { result ≡ has_name name names.now }
{
    names.iter().any(|other| name == *other)
}

/// The names of a list, sorted, each once.
pub fn sorted_names(alloc: Global, names: &[NameLit]) -> Mem<Vec<NameLit>>
    ensures { IfOk result (λ sorted. sorted.items ≡ sorted_names names.now) }
{
    let mut sorted = Vec::new(alloc);
    sorted.extend_from_slice(names)?;
    sort_names(&mut sorted);
    Ok(sorted)
}

/// The names of two lists, sorted, each once.
pub(crate) fn united_names(
    alloc: Global,
    names: &[NameLit],
    others: &[NameLit],
) -> Mem<Vec<NameLit>>
    ensures { IfOk result (λ united. united.items ≡ sorted_names (names.now ++ others.now)) }
{
    let mut united = Vec::new(alloc);
    united.extend_from_slice(names)?;
    united.extend_from_slice(others)?;
    sort_names(&mut united);
    Ok(united)
}

/// Sorts names and leaves each once. A list that is sorted already, as those of conclusions are, is only read.
pub(crate) fn sort_names(names: &mut Vec<NameLit>)
    ensures { names.new.items ≡ sorted_names names.old.items }
{
    if !are_sorted(names.as_slice()) {
        names.sort_unstable_by_key(|name| rank(*name));
        names.dedup();
    }
}

/// Whether each name comes before the next.
fn are_sorted(names: &[NameLit]) -> bool
    ensures { result ≡ are_sorted names.now }
{
    for index in 1..names.len() {
        if rank(names[index - 1]) >= rank(names[index]) {
            return false;
        }
    }
    true
}

/// A number by which names are sorted: by their own numbers, and of one number the negative name first.
fn rank(name: NameLit) -> u64
    ensures { result ≡ name_rank name }
{
    2 * u64::from(name.name) + u64::from(name.positive)
}
