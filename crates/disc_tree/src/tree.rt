// The tree: a list of entries, each a term and a number.

ghost use Rattle.std.specs.Prelude.{◌≡◌, ◌↔◌, ◌≤◌, ◌<◌, ◌+◌, ◌*◌, ◌++◌, [], IfOk, OnErr, IsTrue, true, false};
ghost use Rattle.fol_base.specs.Term.{tree_of};
ghost use Rattle.fol_base.specs.Compatible.{compatible, compatible_generalisation, compatible_instance, compatible_by};
ghost use Rattle.fol_base.specs.Ground.{is_ground};
ghost use Rattle.disc_tree.specs.Entries.{IsBeginning, IsIn, IsWith, numbers_where};
ghost use Rattle.disc_tree.specs.Firsts.{IsFirst};
ghost use Rattle.disc_tree.specs.Generalisations.{answers_of, generalisations};
ghost use Rattle.disc_tree.specs.Prefixes.{compatible_prefixes};

use crate::entry::Entry;
use crate::first::first_in;
use crate::fitting::Varying;
use crate::node::Node;
use crate::query::collect;
use crate::stars::{Generalisation, Stars};
use crate::steps::Steps;
use crate::work::{Rest, Skipped};
use fol_base::Term;
use plain_types::{Mem, Numbers};
use std::alloc::Global;
use std::marker::{Brand, Model};
use std::sync::ledger::{Blank, Ledger};

/// An index of terms, which contracts see as the list of its entries, each a term and a number, in the order in which queries find them.
/// Where a new entry stands in that order is not said.
#[derive(Drop)]
pub struct DiscTree {
    alloc: Global,
    root: Node,
}

impl Model for DiscTree {
    ghost use Rattle.std.specs.Prelude.{List, ℕ};
    ghost use Rattle.std.specs.Coded.{coded×, coded_ℕ, coded_list};
    ghost use Rattle.fol_base.specs.Tree.{Tree};
    ghost use Rattle.fol_base.specs.TreeCode.{tree_code};

    ghost Value = { List (Tree × ℕ) };

    ghost coded = { coded_list (coded× tree_code coded_ℕ) };

    ghost use Rattle.disc_tree.specs.Rows.{rows, entries_of, HavePaths};

    ghost view = { λ a. entries_of (rows a.root) };

    ghost invariant = { λ a. HavePaths (rows a.root) };
}

impl DiscTree {
    /// The empty tree. It keeps the allocator for its later calls.
    pub fn new(alloc: Global) -> Mem<DiscTree>
        ensures { IfOk result (λ tree. tree ≡ []) }
    {
        Ok(DiscTree {
            alloc,
            root: Node::new(alloc),
        })
    }

    /// Adds an entry. After an out-of-memory error the tree is as before.
    ///
    /// Its time is in proportion to the term's symbols and variables, with a search by halving among the children of each node on the way.
    /// It moves the children after a new one, and the entries with the same path that have higher numbers. Where the term's path leaves a tail, each
    /// label on which both agree becomes a node, the tail's labels after it are moved, and those that still agree are compared again: a tail of n labels
    /// that agrees in d costs up to d n moves and d d / 2 compares more.
    pub fn insert(&mut self, term: &Term, entry: u64) -> Mem<()>
        ensures ok { IfOk result (λ _. IsWith (tree_of term.now, entry) self.old self.new) }
        ensures err { OnErr result (self.new ≡ self.old) }
    {
        let made = Entry::new(self.alloc, term, entry)?;
        let rest = Rest::Then(term, &[], &Rest::Nothing);
        self.root.insert(self.alloc, &rest, made)?;
        Ok(())
    }

    /// Takes away an entry, and the branches that are empty without it. True exactly where it was there. It takes no memory.
    pub fn remove(&mut self, term: &Term, entry: u64) -> bool
        ensures there { IsTrue result ↔ IsIn (tree_of term.now, entry) self.old }
        ensures removed { IsTrue result → IsWith (tree_of term.now, entry) self.new self.old }
        ensures unchanged { result ≡ false → self.new ≡ self.old }
    {
        let rest = Rest::Then(term, &[], &Rest::Nothing);
        self.root.remove(&rest, term, entry)
    }

    /// The numbers of exactly the entries whose term is compatible with the query: of those that may unify with it.
    pub fn unifiable(&self, query: &Term) -> Mem<Numbers>
        ensures { IfOk result (λ numbers. numbers ≡ numbers_where (λ term. compatible term (tree_of query.now)) self.now) }
    {
        let mut found = Vec::new(self.alloc);
        self.push_unifiable(query, &mut found)?;
        Ok(Numbers::from_vec(found))
    }

    /// The numbers of exactly the entries that may be generalisations of the query: only a variable of the entry stands for another term.
    pub fn generalisations(&self, query: &Term) -> Mem<Numbers>
        ensures { IfOk result (λ numbers.
            numbers ≡ numbers_where (λ term. compatible_generalisation term (tree_of query.now)) self.now) }
    {
        let mut found = Vec::new(self.alloc);
        self.push_generalisations(query, &mut found)?;
        Ok(Numbers::from_vec(found))
    }

    /// The numbers of exactly the entries that may be instances of the query: only a variable of the query stands for another term.
    pub fn instances(&self, query: &Term) -> Mem<Numbers>
        ensures { IfOk result (λ numbers.
            numbers ≡ numbers_where (λ term. compatible_instance term (tree_of query.now)) self.now) }
    {
        let mut found = Vec::new(self.alloc);
        self.push_instances(query, &mut found)?;
        Ok(Numbers::from_vec(found))
    }

    /// Adds what `unifiable` answers to a list of the caller's. After an out-of-memory error the list is as before.
    pub fn push_unifiable(&self, query: &Term, found: &mut Vec<u64>) -> Mem<()>
        ensures found { IfOk result (λ _. found.new.items
            ≡ found.old.items ++ numbers_where (λ term. compatible term (tree_of query.now)) self.now) }
        ensures kept { IsBeginning found.old.items found.new.items }
        ensures err { OnErr result (found.new.items ≡ found.old.items) }
    {
        self.push_uncounted(query, Varying::BOTH, found)
    }

    /// Adds what `generalisations` answers to a list of the caller's. After an out-of-memory error the list is as before.
    pub fn push_generalisations(&self, query: &Term, found: &mut Vec<u64>) -> Mem<()>
        ensures found { IfOk result (λ _. found.new.items
            ≡ found.old.items ++ numbers_where (λ term. compatible_generalisation term (tree_of query.now)) self.now) }
        ensures kept { IsBeginning found.old.items found.new.items }
        ensures err { OnErr result (found.new.items ≡ found.old.items) }
    {
        self.push_uncounted(query, Varying::ENTRIES, found)
    }

    /// The answer of a test for the entries that `generalisations` finds, one after another, up to the first that it accepts by an answer other than
    /// None: that answer, and None where it accepts none. The test is handed what each variable of an entry's term stands for, so that it has the
    /// matchers without a walk over either term (`laws::matchers_are_read_off`). No list is made, and what comes after the accepted entry isn't
    /// read.
    pub fn first_generalisation<T, F: Fn(Generalisation<'_>) -> Mem<Option<T>>>(
        &self,
        query: &Term,
        test: F,
    ) -> Mem<Option<T>>
        requires { F.IsAlwaysCallable test }
        ensures { IfOk result (IsFirst (answers_of (F.post test)) (generalisations (tree_of query.now) self.now)) }
    {
        self.first_from::<T, F, Brand>(query, &test, Blank::new(1))
    }

    /// The counted call on a new ledger, which nobody reads.
    fn first_from<T, F: Fn(Generalisation<'_>) -> Mem<Option<T>>, L: Ledger>(
        &self,
        query: &Term,
        test: &F,
        blank: Blank,
    ) -> Mem<Option<T>>
        requires test { F.IsAlwaysCallable test.now }
        requires name { blank.name ≡ L.name }
        requires parts { blank.parts ≡ L.parts }
        requires some { 0 < blank.parts }
        ensures { IfOk result (IsFirst (answers_of (F.post test.now)) (generalisations (tree_of query.now) self.now)) }
    {
        let mut steps = Steps::<L>::new(blank);
        let rest = Rest::Then(query, &[], &Rest::Nothing);
        first_in(&self.root, &rest, &Stars::Nothing, test, &mut steps)
    }

    /// Adds what `instances` answers to a list of the caller's. After an out-of-memory error the list is as before.
    pub fn push_instances(&self, query: &Term, found: &mut Vec<u64>) -> Mem<()>
        ensures found { IfOk result (λ _. found.new.items
            ≡ found.old.items ++ numbers_where (λ term. compatible_instance term (tree_of query.now)) self.now) }
        ensures kept { IsBeginning found.old.items found.new.items }
        ensures err { OnErr result (found.new.items ≡ found.old.items) }
    {
        self.push_uncounted(query, Varying::QUERIES, found)
    }

    /// The answer of `unifiable`. Each read of a node is a step: a child by its label or by its place, how many children there are, or the
    /// entries.
    pub fn unifiable_counted<L: Ledger>(&self, query: &Term, steps: &mut Steps<L>) -> Mem<Numbers>
        ensures found { IfOk result (λ numbers.
            numbers ≡ numbers_where (λ term. compatible term (tree_of query.now)) self.now) }
        ensures steps { is_ground (tree_of query.now) ≡ true
            → steps.new ≤ steps.old + 2 * compatible_prefixes (tree_of query.now) self.now }
        ensures visits { IfOk result (λ _. is_ground (tree_of query.now) ≡ true
            → steps.old + compatible_prefixes (tree_of query.now) self.now ≤ steps.new) }
        ensures counter { steps.old ≤ steps.new }
    {
        self.find(query, Varying::BOTH, steps)
    }

    /// The answer of `generalisations`, with a step for each read of a node.
    pub fn generalisations_counted<L: Ledger>(
        &self,
        query: &Term,
        steps: &mut Steps<L>,
    ) -> Mem<Numbers>
        ensures found { IfOk result (λ numbers.
            numbers ≡ numbers_where (λ term. compatible_generalisation term (tree_of query.now)) self.now) }
        ensures steps { is_ground (tree_of query.now) ≡ true
            → steps.new ≤ steps.old + 2 * compatible_prefixes (tree_of query.now) self.now }
        ensures visits { IfOk result (λ _. is_ground (tree_of query.now) ≡ true
            → steps.old + compatible_prefixes (tree_of query.now) self.now ≤ steps.new) }
        ensures counter { steps.old ≤ steps.new }
    {
        self.find(query, Varying::ENTRIES, steps)
    }

    /// The numbers of the entries whose term is compatible with the query, where these variables may stand for terms.
    fn find<L: Ledger>(&self, query: &Term, varying: Varying, steps: &mut Steps<L>) -> Mem<Numbers>
        ensures found { IfOk result (λ numbers.
            numbers ≡ numbers_where (λ term. compatible_by varying.entry varying.query term (tree_of query.now)) self.now) }
        ensures steps { is_ground (tree_of query.now) ≡ true
            → steps.new ≤ steps.old + 2 * compatible_prefixes (tree_of query.now) self.now }
        ensures visits { IfOk result (λ _. varying.entry ≡ true → is_ground (tree_of query.now) ≡ true
            → steps.old + compatible_prefixes (tree_of query.now) self.now ≤ steps.new) }
        ensures counter { steps.old ≤ steps.new }
    {
        let mut found = Vec::new(self.alloc);
        self.push_found(query, varying, &mut found, steps)?;
        Ok(Numbers::from_vec(found))
    }

    /// Adds these numbers to a list.
    fn push_found<L: Ledger>(
        &self,
        query: &Term,
        varying: Varying,
        found: &mut Vec<u64>,
        steps: &mut Steps<L>,
    ) -> Mem<()>
        ensures found { IfOk result (λ _. found.new.items ≡ found.old.items
            ++ numbers_where (λ term. compatible_by varying.entry varying.query term (tree_of query.now)) self.now) }
        ensures steps { is_ground (tree_of query.now) ≡ true
            → steps.new ≤ steps.old + 2 * compatible_prefixes (tree_of query.now) self.now }
        ensures visits { IfOk result (λ _. varying.entry ≡ true → is_ground (tree_of query.now) ≡ true
            → steps.old + compatible_prefixes (tree_of query.now) self.now ≤ steps.new) }
        ensures kept { IsBeginning found.old.items found.new.items }
        ensures counter { steps.old ≤ steps.new }
    {
        let rest = Rest::Then(query, &[], &Rest::Nothing);
        collect(&self.root, &Skipped::Closed, &rest, varying, found, steps)
    }

    /// Adds these numbers for a caller that counts nothing; after an out-of-memory error none is added.
    fn push_uncounted(&self, query: &Term, varying: Varying, found: &mut Vec<u64>) -> Mem<()>
        ensures found { IfOk result (λ _. found.new.items ≡ found.old.items
            ++ numbers_where (λ term. compatible_by varying.entry varying.query term (tree_of query.now)) self.now) }
        ensures kept { IsBeginning found.old.items found.new.items }
        ensures err { OnErr result (found.new.items ≡ found.old.items) }
    {
        let before = found.len();
        match self.push_from::<Brand>(query, varying, found, Blank::new(1)) {
            Ok(()) => Ok(()),
            Err(refused) => {
                found.truncate(before);
                Err(refused)
            }
        }
    }

    /// The counted call on a new ledger, which nobody reads. After an out-of-memory error some numbers may have been added.
    fn push_from<L: Ledger>(
        &self,
        query: &Term,
        varying: Varying,
        found: &mut Vec<u64>,
        blank: Blank,
    ) -> Mem<()>
        requires name { blank.name ≡ L.name }
        requires parts { blank.parts ≡ L.parts }
        requires some { 0 < blank.parts }
        ensures found { IfOk result (λ _. found.new.items ≡ found.old.items
            ++ numbers_where (λ term. compatible_by varying.entry varying.query term (tree_of query.now)) self.now) }
        ensures kept { IsBeginning found.old.items found.new.items }
    {
        let mut steps = Steps::<L>::new(blank);
        self.push_found(query, varying, found, &mut steps)
    }
}
