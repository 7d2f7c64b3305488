// The terms to which the variables in force are bound.

ghost use Rattle.std.specs.Prelude.{◌≡◌, ◌++◌, ◌-◌, ◌^◌, min, IfOk, OnErr};
ghost use Rattle.fol_base.specs.Tree.{tree_size, tree_variables};
ghost use Rattle.fol_base.specs.Term.{tree_of};
ghost use Rattle.skolem.specs.BoundTerm.{bound_tree};

use crate::terms::applied;
use fol_base::Term;
use plain_types::Mem;
use std::alloc::Global;
use std::rc::Rc;

/// The term to which a variable is bound. It is made where the variable occurs, and not before: the Skolem terms of one quantifier share
/// the list of their arguments.
#[derive(Drop)]
pub(crate) enum BoundTerm {
    Var(u32),
    /// A Skolem symbol, and the variables to which it is applied.
    Skolem {
        symbol: u32,
        arguments: Rc<Vec<u32>>,
    },
    /// A term without variables, for a name that is to add none.
    Closed,
}

impl BoundTerm {
    /// The term.
    pub(crate) fn to_term(&self, alloc: Global) -> Mem<Term>
        ensures { IfOk result (λ term. tree_of term ≡ bound_tree self.now) }
    {
        match self {
            BoundTerm::Var(number) => Ok(Term::Var(*number)),
            BoundTerm::Skolem { symbol, arguments } => {
                applied(alloc, *symbol, arguments.as_slice())
            }
            BoundTerm::Closed => Ok(Term::truth(alloc)),
        }
    }

    /// The term's occurrences of symbols and variables, stopping at u64's last value.
    pub(crate) fn size(&self) -> u64
        ensures { result ≡ min (tree_size (bound_tree self.now)) (2 ^ 64 - 1) }
    {
        match self {
            BoundTerm::Var(_) | BoundTerm::Closed => 1,
            BoundTerm::Skolem {
                symbol: _,
                arguments,
            } => (arguments.as_slice().len() as u64).saturating_add(1),
        }
    }

    /// An equal term. The arguments of a Skolem term are shared.
    pub(crate) fn share(&self) -> Mem<BoundTerm>
        ensures { IfOk result (λ shared. bound_tree shared ≡ bound_tree self.now) }
    {
        match self {
            BoundTerm::Var(number) => Ok(BoundTerm::Var(*number)),
            BoundTerm::Skolem { symbol, arguments } => Ok(BoundTerm::Skolem {
                symbol: *symbol,
                arguments: arguments.clone()?,
            }),
            BoundTerm::Closed => Ok(BoundTerm::Closed),
        }
    }

    /// Adds the term's variables; after an out-of-memory error none is added.
    pub(crate) fn push_variables(&self, found: &mut Vec<u32>) -> Mem<()>
        ensures added { IfOk result (λ _. found.new.items ≡ found.old.items ++ tree_variables (bound_tree self.now)) }
        ensures unchanged { OnErr result (found.new.items ≡ found.old.items) }
    {
        match self {
            BoundTerm::Var(number) => Ok(found.push(*number)?),
            BoundTerm::Skolem {
                symbol: _,
                arguments,
            } => Ok(found.extend_from_slice(arguments.as_slice())?),
            BoundTerm::Closed => Ok(()),
        }
    }
}
