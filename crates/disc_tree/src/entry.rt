// An entry at the end of a path.

ghost use Rattle.std.specs.Prelude.{◌≡◌, ◌↔◌, IfOk, IsTrue, MatchOption, None, Some};
ghost use Rattle.fol_base.specs.Tree.{tree_variables, trees_variables, trees_of};
ghost use Rattle.fol_base.specs.Term.{tree_of};
ghost use Rattle.disc_tree.specs.Entries.{without_front};
ghost use Rattle.disc_tree.specs.Rows.{IsNamed};

use fol_base::{Term, Terms, push_variables};
use plain_types::Mem;
use std::alloc::Global;
use std::marker::Model;
use std::snapshot::Snapshot;

/// A number, and what the path doesn't tell of its term: the variables, from left to right. Contracts see the term and the number.
#[derive(Drop)]
pub(crate) struct Entry {
    number: u64,
    variables: Vec<u32>,
    term: Snapshot<Term>,
}

impl Model for Entry {
    ghost use Rattle.std.specs.Prelude.{◌≡◌, ℕ};
    ghost use Rattle.std.specs.Coded.{coded×, coded_ℕ};
    ghost use Rattle.fol_base.specs.Tree.{Tree, tree_variables};
    ghost use Rattle.fol_base.specs.TreeCode.{tree_code};
    ghost use Rattle.fol_base.specs.Term.{tree_of};

    ghost Value = { Tree × ℕ };

    ghost coded = { coded× tree_code coded_ℕ };

    ghost view = { λ a. (tree_of a.term.value, a.number) };

    ghost invariant = { λ a. a.variables.items ≡ tree_variables (tree_of a.term.value) };
}

impl Entry {
    /// The entry of a term and a number.
    pub(crate) fn new(alloc: Global, term: &Term, number: u64) -> Mem<Entry>
        ensures { IfOk result (λ entry. entry ≡ (tree_of term.now, number)) }
    {
        let mut variables = Vec::new(alloc);
        push_variables(term, &mut variables)?;
        Ok(Entry {
            number,
            variables,
            term: Snapshot::of(term),
        })
    }

    /// The entry's number.
    pub(crate) fn number(&self) -> u64
        ensures { result ≡ self.now.1 }
    {
        self.number
    }

    /// The variables of its term, from left to right.
    pub(crate) fn variables(&self) -> &[u32]
        ensures { result.now ≡ tree_variables self.now.0 }
    {
        self.variables.as_slice()
    }

    /// Whether the entry has this number and the term's variables. So it is the term's, if its path is the term's too.
    pub(crate) fn is_for(&self, term: &Term, number: u64) -> bool
        ensures { IsTrue result ↔ IsNamed (tree_variables (tree_of term.now)) number self.now }
    {
        if self.number != number {
            return false;
        }
        match without_variables(term, &self.variables) {
            Some(others) => others.is_empty(),
            None => false,
        }
    }
}

/// The numbers that come after a term's variables in a list. None where the list doesn't begin with these variables.
#[cycle(without_variables)]
fn without_variables<'a>(term: &Term, numbers: &'a [u32]) -> Option<&'a [u32]>
    ensures { MatchOption result (without_front (tree_variables (tree_of term.now)) numbers.now ≡ None)
        (λ others. without_front (tree_variables (tree_of term.now)) numbers.now ≡ Some others.now) }
{
    match term {
        Term::Var(variable) => match numbers.split_first() {
            Some((first, others)) => if *first == *variable {
                Some(others)
            } else {
                None
            },
            None => None,
        },
        Term::App(_, arguments) => without_all_variables(arguments, numbers),
    }
}

#[cycle(without_variables)]
fn without_all_variables<'a>(terms: &Terms, numbers: &'a [u32]) -> Option<&'a [u32]>
    ensures { MatchOption result (without_front (trees_variables (trees_of terms.now)) numbers.now ≡ None)
        (λ others. without_front (trees_variables (trees_of terms.now)) numbers.now ≡ Some others.now) }
{
    let mut others = numbers;
    for term in terms.as_slice() {
        match without_variables(term, others) {
            Some(fewer) => others = fewer,
            None => return None,
        }
    }
    Some(others)
}
