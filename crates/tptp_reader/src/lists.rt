// Lists that are whole, without room after their last element: most hold one to three, where a vector that grows has room for four.

ghost use Rattle.std.specs.Prelude.{◌≡◌};

use tptp_tree::{Formulas, TreeTerms};

/// These terms, without spare room. It takes no memory.
pub fn fitted_terms(terms: TreeTerms) -> TreeTerms
    ensures { result ≡ terms }
{
    let mut items = terms.into_vec();
    items.shrink_to_fit();
    TreeTerms::from_vec(items)
}

/// These formulas, without spare room. It takes no memory.
pub fn fitted_formulas(formulas: Formulas) -> Formulas
    ensures { result ≡ formulas }
{
    let mut items = formulas.into_vec();
    items.shrink_to_fit();
    Formulas::from_vec(items)
}
