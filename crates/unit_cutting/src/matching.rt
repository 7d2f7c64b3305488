// Which literal of a clause is an instance of one that is wanted.

ghost use Rattle.std.specs.Prelude.{◌≡◌, IfOk};
ghost use Rattle.fol_base.specs.Lent.{lent_of};
ghost use Rattle.unit_cutting.specs.Cutting.{IsFittingOrNone, may_fit};

use fol_base::LiteralRef;
use plain_types::Mem;
use std::alloc::Global;
use subsume::{are_alike, match_sides};
use unifier::Matched;

/// The matcher of a wanted literal onto an instance of it, and whether that one's sides stand exchanged.
#[derive(Drop)]
pub(crate) struct Fitting<'t> {
    pub(crate) crossed: bool,
    pub(crate) terms: Matched<'t>,
}

/// How a literal is an instance of a wanted one, sides in either order. None exactly where no substitution by function terms makes it one,
/// or it is an equation of `$true` with itself.
pub(crate) fn fit<'t>(
    alloc: Global,
    wanted: LiteralRef<'_>,
    literal: LiteralRef<'t>,
) -> Mem<Option<Fitting<'t>>>
    ensures { IfOk result (IsFittingOrNone (lent_of wanted.entry) (lent_of literal.entry)) }
{
    if !may_fit(wanted, literal) {
        return Ok(None);
    }
    let none = Matched::empty(alloc);
    match match_sides(alloc, wanted, literal, &none)? {
        Some(terms) => Ok(Some(Fitting {
            crossed: false,
            terms,
        })),
        None => match match_sides(alloc, wanted, literal.exchanged(), &none)? {
            Some(terms) => Ok(Some(Fitting {
                crossed: true,
                terms,
            })),
            None => Ok(None),
        },
    }
}

/// Whether a literal comes into question as an instance of another one.
fn may_fit(wanted: LiteralRef<'_>, literal: LiteralRef<'_>) -> bool
    ensures { result ≡ may_fit (lent_of wanted.entry) (lent_of literal.entry) }
{
    are_alike(wanted, literal) && !(literal.left.is_truth() && literal.right.is_truth())
}
