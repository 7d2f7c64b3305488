// The entries of sites in a tree: the term of a site with the site's number, which tells the member and the site.

ghost use Rattle.std.specs.Prelude.{◌≡◌, ◌↔◌, ◌<◌, ◌≤◌, ◌/◌, ◌%◌, ℕ, Contains, length, slice_get, IfOk, Some};
ghost use Rattle.std.specs.List.Sorted.{IsStrictlyIncreasing};
ghost use Rattle.fol_base.specs.Tree.{Tree};
ghost use Rattle.disc_tree.specs.Entries.{IsIn, KeepsAll};
ghost use Rattle.partners.specs.Index.{AreIndexed, KeepsOthers, site_number};

use crate::site::Site;
use bank_clause::BankLiterals;
use disc_tree::DiscTree;
use plain_types::{Mem, Numbers};

/// A clause has fewer sites of either kind.
pub(crate) const MOST_SITES: u64 = 1 << 32;

/// The number of a site of a member.
pub(crate) fn site_number(number: u32, index: usize) -> u64
    requires { index < MOST_SITES }
    ensures { result ≡ site_number number index }
{
    u64::from(number) * MOST_SITES + index as u64
}

/// The member's number and the site's index for which a number stands.
pub(crate) fn site_of(entry: u64) -> (u32, usize)
    ensures number { result.0 ≡ entry / MOST_SITES }
    ensures index { result.1 ≡ entry % MOST_SITES }
{
    ((entry / MOST_SITES) as u32, (entry % MOST_SITES) as usize)
}

/// Adds the sites of a member. After an out-of-memory error some may have been added.
pub(crate) fn put_sites<S: Site>(
    tree: &mut DiscTree,
    literals: &BankLiterals<'_>,
    number: u32,
    sites: &[S],
) -> Mem<()>
    requires { length sites.now ≤ MOST_SITES }
    ensures put { IfOk result (λ _. AreIndexed S.term_in literals.now number sites.now tree.new) }
    ensures kept { KeepsAll tree.old tree.new }
{
    for index in 0..sites.len() {
        put_site(tree, literals, number, index, &sites[index])?;
    }
    Ok(())
}

/// Adds a site of a member.
fn put_site<S: Site>(
    tree: &mut DiscTree,
    literals: &BankLiterals<'_>,
    number: u32,
    index: usize,
    site: &S,
) -> Mem<()>
    requires { index < MOST_SITES }
    ensures put { IfOk result (λ _. (t : Tree) → S.term_in literals.now site.now ≡ Some t → IsIn (t, site_number number index) tree.new) }
    ensures kept { KeepsAll tree.old tree.new }
{
    if let Some(term) = site.term(literals) {
        tree.insert(term, site_number(number, index))?;
    }
    Ok(())
}

/// Takes away the sites of a member, as far as they are there.
pub(crate) fn take_sites<S: Site>(
    tree: &mut DiscTree,
    literals: &BankLiterals<'_>,
    number: u32,
    sites: &[S],
)
    requires { length sites.now ≤ MOST_SITES }
    ensures { KeepsOthers number tree.old tree.new }
{
    for index in 0..sites.len() {
        take_site(tree, literals, number, index, &sites[index]);
    }
}

/// Takes away a site of a member, if it is there.
fn take_site<S: Site>(
    tree: &mut DiscTree,
    literals: &BankLiterals<'_>,
    number: u32,
    index: usize,
    site: &S,
)
    requires { index < MOST_SITES }
    ensures { KeepsOthers number tree.old tree.new }
{
    if let Some(term) = site.term(literals) {
        tree.remove(term, site_number(number, index));
    }
}

/// These numbers in order, each once. So what is tried doesn't depend on the form of the tree.
pub fn in_order(found: Numbers) -> Numbers
    ensures rise { IsStrictlyIncreasing result }
    ensures same { (n : ℕ) → Contains result n ↔ Contains found n }
{
    let mut numbers = found.into_vec();
    numbers.sort_unstable();
    numbers.dedup();
    Numbers::from_vec(numbers)
}
