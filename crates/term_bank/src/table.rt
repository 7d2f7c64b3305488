// The table of a bank: which trees were interned through it, and with which references.

ghost use Rattle.std.specs.Prelude.{◌≡◌, [], None, Some, IfSome, IfOk, OnErr};
ghost use Rattle.std.specs.Option.{option_map};
ghost use Rattle.fol_base.specs.Term.{tree_of};
ghost use Rattle.term_bank.specs.Hash.{tree_hash};
ghost use Rattle.term_bank.specs.Bank.{number, tree_at, IsOf};
ghost use Rattle.term_bank.specs.Entry.{interned, NoTreeTwice};
ghost use Rattle.term_bank.specs.Table.{entries, number_in, IsTableOf};

use crate::bank::Bank;
use crate::chains::Chains;
use crate::reference::TermRef;
use crate::rows::Rows;
use boxcar::slot::Written;
use fol_base::Term;
use plain_types::Mem;
use std::alloc::Global;
use std::marker::Model;
use std::sync::Wait;

/// The terms that were interned through it, each with its reference. No tree stands in it twice, and none is
/// copied: a term is found by its hash, and compared with the bank's own.
#[derive(Drop)]
pub struct Table {
    shown: Written<Rows>,
    chains: Chains,
}

impl Model for Table {
    ghost use Rattle.std.specs.Prelude.{map};
    ghost use Rattle.term_bank.specs.Contents.{Contents, contents_code};

    ghost Value = { Contents };

    ghost coded = { contents_code };

    ghost use Rattle.term_bank.specs.Entry.{entry_of, AreEntriesOf};

    ghost view = { λ t. record { bank = t.shown.of; entries = map entry_of t.chains.entries.items } };

    ghost invariant = { λ t. AreEntriesOf t.shown.of t.chains.entries.items t.chains.newest.entries };
}

impl Table {
    /// An empty table of the bank whose rows are shown.
    pub(crate) fn new(alloc: Global, shown: Written<Rows>) -> Table
        ensures { result ≡ record { bank = shown.of; entries = [] } }
    {
        Table {
            shown,
            chains: Chains::new(alloc),
        }
    }

    /// Shows that no tree stands in the table twice. It does nothing.
    pub fn once(&self)
        ensures { NoTreeTwice (entries self.now) }
    {
        let _ = &self.chains;
    }

    /// The reference of a term's tree, where the table has one.
    pub(crate) fn find(&self, bank: &Bank, hash: u64, term: &Term) -> Option<&TermRef>
        requires table { IsTableOf bank.now self.now }
        requires hash { hash ≡ tree_hash 0 (tree_of term.now) }
        ensures number { option_map (λ r. number r.now) result ≡ number_in self.now (tree_of term.now) }
        ensures of_bank { IfSome result (λ r. IsOf bank.now r.now) }
        ensures tree { IfSome result (λ r. tree_at r.now ≡ tree_of term.now) }
    {
        self.chains.find(bank, hash, term)
    }

    /// Adds a term whose tree the table doesn't have to the bank, and takes in its reference. The table's memory is taken first,
    /// so that no term is put into the bank that nobody can find.
    pub(crate) fn add<R: Wait>(
        &mut self,
        rt: &R,
        alloc: Global,
        bank: &Bank,
        hash: u64,
        term: Term,
    ) -> Mem<TermRef>
        requires table { IsTableOf bank.now self.old }
        requires new { number_in self.old (tree_of term) ≡ None }
        requires hash { hash ≡ tree_hash 0 (tree_of term) }
        ensures reference { IfOk result (IsOf bank.now) }
        ensures tree { IfOk result (λ reference. tree_at reference ≡ tree_of term) }
        ensures known { IfOk result (λ reference. number_in self.new (tree_of term) ≡ Some (number reference)) }
        ensures entries { IfOk result (λ reference.
            entries self.new ≡ interned (entries self.old) (tree_of term) (number reference)) }
        ensures table { IsTableOf bank.now self.new }
        ensures unchanged { OnErr result (self.new ≡ self.old) }
    {
        self.chains.make_room()?;
        let reference = bank.put(rt, alloc, term)?;
        self.chains.learn(hash, reference.copy());
        Ok(reference)
    }
}
