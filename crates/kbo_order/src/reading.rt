// Terms that are read under a substitution: the walks of this crate meet the instance, and nobody builds it.

ghost use Rattle.std.specs.Prelude.{◌≡◌, ℕ, true};
ghost use Rattle.fol_base.specs.Instance.{Substitution};
ghost use Rattle.fol_base.specs.Term.{tree_of};
ghost use Rattle.fol_base.specs.declared.term.Term.TheVariants.{Var};
ghost use Rattle.kbo_order.specs.Reading.{seen};

use fol_base::{LendsTerms, Term};

/// The empty substitution: a term under it is the term as it stands.
#[derive(Clone, Copy)]
pub struct Unbound;

impl LendsTerms for Unbound {
    ghost use Rattle.fol_base.specs.Tree.{variable};

    ghost meaning = { λ _. variable };

    fn term(&self, _number: u32) -> Option<&Term> {
        None
    }
}

/// A term whose own head is the head of the instance.
#[derive(Clone, Copy)]
pub struct HeadTerm<'a> {
    pub term: &'a Term,
    /// The term stands for itself: it is what a variable was bound to, or below that.
    pub is_bound: bool,
}

/// The term at which the head of an instance stands: a variable is followed to what it is bound to, once.
#[inline(always)]
pub fn head<'a, S: LendsTerms>(term: &'a Term, bind: &'a S, is_bound: bool) -> HeadTerm<'a>
    ensures same { seen result.is_bound (S.meaning bind.entry.now) (tree_of result.term.now)
        ≡ seen is_bound (S.meaning bind.entry.now) (tree_of term.entry.now) }
    ensures followed { (v : ℕ) → result.term.now ≡ Var v → result.is_bound ≡ true }
{
    match term {
        Term::App(_, _) => HeadTerm { term, is_bound },
        Term::Var(number) => {
            if is_bound {
                return HeadTerm { term, is_bound };
            }
            let bound = match bind.term(*number) {
                Some(put) => put,
                None => term,
            };
            HeadTerm {
                term: bound,
                is_bound: true,
            }
        }
    }
}
