// Signed names in the order in which clauses have them, each once. What is done here takes no memory.

ghost use Rattle.std.specs.Prelude.{◌≡◌};
ghost use Rattle.kernel_steps.specs.Names.{are_sorted, name_rank, sorted_names};

use plain_types::NameLit;

/// Sorts names and leaves each once. A list that is sorted already is only read.
pub(crate) fn sort_names(names: &mut Vec<NameLit>)
    ensures { names.new.items ≡ sorted_names names.old.items }
{
    if !are_sorted(names.as_slice()) {
        names.sort_unstable_by_key(|name| rank(*name));
        names.dedup();
    }
}

/// Whether each name comes before the next.
fn are_sorted(names: &[NameLit]) -> bool
    ensures { result ≡ are_sorted names.now }
{
    for index in 1..names.len() {
        if rank(names[index - 1]) >= rank(names[index]) {
            return false;
        }
    }
    true
}

/// A number by which names are sorted: by their own numbers, and of one number the negative name first.
fn rank(name: NameLit) -> u64
    ensures { result ≡ name_rank name }
{
    2 * u64::from(name.name) + u64::from(name.positive)
}
