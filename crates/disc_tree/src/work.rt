// The terms of a query that are left to read, as lists that lie in the callers' frames: they take no memory.

ghost use Rattle.std.specs.Prelude.{◌≡◌, ◌+◌, ◌++◌, map};
ghost use Rattle.fol_base.specs.Term.{tree_of};
ghost use Rattle.disc_tree.specs.Path.{arguments};
ghost use Rattle.disc_tree.specs.Work.{trees_left, terms_left};

use fol_base::Term;

/// The terms that are still to be read: a first one, those beside it, and those of the frames below.
#[derive(Clone, Copy)]
pub(crate) enum Rest<'a> {
    Nothing,
    Then(&'a Term, &'a [Term], &'a Rest<'a>),
}

/// How many terms of a path are still to be passed over: one and a number more, and those of the frames below. No sum is made, so none
/// can overflow.
#[derive(Clone, Copy)]
pub(crate) enum Skipped<'a> {
    Closed,
    More(usize, &'a Skipped<'a>),
}

impl<'a> Rest<'a> {
    /// Some terms, and then what is left below.
    pub(crate) fn of(terms: &'a [Term], below: &'a Rest<'a>) -> Rest<'a>
        ensures { trees_left result ≡ map tree_of terms.now ++ trees_left below.now }
    {
        match terms.split_first() {
            None => *below,
            Some((first, more)) => Rest::Then(first, more, below),
        }
    }
}

impl<'a> Skipped<'a> {
    /// A number of terms, and then those that are left below.
    pub(crate) fn of(count: usize, below: &'a Skipped<'a>) -> Skipped<'a>
        ensures { terms_left result ≡ count + terms_left below.now }
    {
        if count == 0 {
            *below
        } else {
            Skipped::More(count - 1, below)
        }
    }
}

/// The arguments of a term: none of a variable.
pub(crate) fn arguments_of(term: &Term) -> &[Term]
    ensures { map tree_of result.now ≡ arguments (tree_of term.now) }
{
    match term {
        Term::Var(_) => &[],
        Term::App(_, arguments) => arguments.as_slice(),
    }
}
