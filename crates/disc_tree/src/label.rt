// Labels: the heads of terms, as a path has them.

ghost use Rattle.std.specs.Prelude.{◌≡◌};
ghost use Rattle.fol_base.specs.Term.{tree_of};
ghost use Rattle.fol_base.specs.Tree.{list_of};
ghost use Rattle.disc_tree.specs.Path.{head, arity, comes_before, same_label};

use fol_base::Term;

/// A variable, all of which are one star, or a symbol with the number of its arguments.
#[derive(Clone, Copy)]
pub(crate) enum Label {
    Star,
    Symbol(u32, usize),
}

impl Label {
    /// The label of a term's head.
    pub(crate) fn of(term: &Term) -> Label
        ensures { result ≡ head (tree_of term.now) }
    {
        match term {
            Term::Var(_) => Label::Star,
            Term::App(symbol, arguments) => Label::Symbol(*symbol, arguments.len()),
        }
    }

    /// How many terms of a path follow as the head's arguments.
    pub(crate) fn arity(self) -> usize
        ensures { result ≡ arity self }
    {
        match self {
            Label::Star => 0,
            Label::Symbol(_, arity) => arity,
        }
    }

    /// Whether two labels are the same.
    pub(crate) fn is_same(self, other: Label) -> bool
        ensures { result ≡ same_label self other }
    {
        match self {
            Label::Star => match other {
                Label::Star => true,
                Label::Symbol(_, _) => false,
            },
            Label::Symbol(symbol, arity) => match other {
                Label::Star => false,
                Label::Symbol(other_symbol, other_arity) => symbol == other_symbol
                    && arity == other_arity,
            },
        }
    }

    /// Whether this label stands earlier among a node's children.
    pub(crate) fn comes_before(self, other: Label) -> bool
        ensures { result ≡ comes_before self other }
    {
        match self {
            Label::Star => match other {
                Label::Star => false,
                Label::Symbol(_, _) => true,
            },
            Label::Symbol(symbol, arity) => match other {
                Label::Star => false,
                Label::Symbol(other_symbol, other_arity) => {
                    symbol < other_symbol || (symbol == other_symbol && arity < other_arity)
                }
            },
        }
    }
}
