// An early no: two terms with different symbols at one place.

ghost use Rattle.std.specs.Prelude.{◌≡◌, map};
ghost use Rattle.fol_base.specs.Tree.{trees_of};
ghost use Rattle.fol_base.specs.Term.{tree_of};
ghost use Rattle.unifier.specs.Clashing.{clash, clash_in};

use fol_base::Term;

/// Whether two terms have different symbols, or different numbers of arguments, at one place. Then no
/// substitutions make them equal, with the sides apart or not. It takes no memory.
#[cycle(clash)]
pub fn clash(left: &Term, right: &Term) -> bool
    ensures { result ≡ clash (tree_of left.now) (tree_of right.now) }
{
    match left {
        Term::Var(_) => false,
        Term::App(symbol, arguments) => match right {
            Term::Var(_) => false,
            Term::App(other, others) => {
                if *symbol != *other {
                    return true;
                }
                clash_in(arguments.as_slice(), others.as_slice())
            }
        },
    }
}

/// Whether two lists of terms have different lengths, or terms that clash at one place.
#[cycle(clash)]
fn clash_in(left: &[Term], right: &[Term]) -> bool
    ensures { result ≡ clash_in (trees_of (map tree_of left.now)) (trees_of (map tree_of right.now)) }
{
    if left.len() != right.len() {
        return true;
    }
    for index in 0..left.len() {
        if clash(&left[index], &right[index]) {
            return true;
        }
    }
    false
}
