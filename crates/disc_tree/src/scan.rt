// The plain test of two terms, against which the tree is measured.

ghost use Rattle.std.specs.Prelude.{◌≡◌, map};
ghost use Rattle.fol_base.specs.Tree.{trees_of};
ghost use Rattle.fol_base.specs.Term.{tree_of};
ghost use Rattle.fol_base.specs.Compatible.{compatible_by, all_compatible_by};

use fol_base::Term;

/// Whether an entry's term is compatible with a query, where the entry's variables may stand for terms, and where the query's may. A scan
/// of all entries by this test answers what the tree's calls answer.
#[cycle(compatible)]
pub fn is_compatible(entry: &Term, query: &Term, entry_varies: bool, query_varies: bool) -> bool
    ensures { result ≡ compatible_by entry_varies query_varies (tree_of entry.now) (tree_of query.now) }
{
    match entry {
        Term::Var(_) => match query {
            Term::Var(_) => entry_varies || query_varies,
            Term::App(_, _) => entry_varies,
        },
        Term::App(first, ones) => match query {
            Term::Var(_) => query_varies,
            Term::App(second, others) => *first == *second
                && are_compatible(
                    ones.as_slice(),
                    others.as_slice(),
                    entry_varies,
                    query_varies,
                ),
        },
    }
}

/// Whether two lists have the same length and are compatible one by one.
#[cycle(compatible)]
fn are_compatible(
    entries: &[Term],
    queries: &[Term],
    entry_varies: bool,
    query_varies: bool,
) -> bool
    ensures { result ≡ all_compatible_by entry_varies query_varies (trees_of (map tree_of entries.now)) (trees_of (map tree_of queries.now)) }
{
    if entries.len() != queries.len() {
        return false;
    }
    for index in 0..entries.len() {
        if !is_compatible(&entries[index], &queries[index], entry_varies, query_varies) {
            return false;
        }
    }
    true
}
