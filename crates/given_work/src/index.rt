// A worker's index: the known clauses, which were activated and live, in the sets in which they are looked for.

ghost use Rattle.std.specs.Prelude.{◌≡◌, [], All, IfOk};
ghost use Rattle.bank_clause.specs.Clause.{AreMembersOf};
ghost use Rattle.pool_history.specs.Answers.{IsChangeOf};
ghost use Rattle.given_work.specs.Learning.{AreNews, learned};

use crate::learning::learn_all;
use crate::sets::Sets;
use crate::store::Store;
use plain_types::Mem;
use pool_history::{News, Options};
use std::alloc::Global;
use std::marker::Model;
use term_bank::Bank;

/// A worker's own sets of the living activated clauses that it was told. Contracts see it as its options, the place in the history up to
/// which it was told, and the list of the clauses in the order of their positions. The sets stand in boxes, since an index is handed on by
/// value.
#[derive(Drop)]
pub struct Index {
    pub(crate) options: Options,
    pub(crate) told: u64,
    pub(crate) store: Box<Store>,
    pub(crate) sets: Box<Sets>,
}

impl Model for Index {
    ghost use Rattle.given_work.specs.View.{IndexView, index_code};

    ghost Value = { IndexView };

    ghost coded = { index_code };

    ghost use Rattle.given_work.specs.Index.{IsIndex, view_of};

    ghost view = { view_of };

    ghost invariant = { IsIndex };
}

impl Index {
    /// No clauses, told up to place 0.
    pub fn new(alloc: Global, options: Options) -> Mem<Index>
        ensures { IfOk result (λ index. index ≡ record { options = options; told = 0; members = [] }) }
    {
        let store = Box::new(alloc, Store::new(alloc, options.select)?)?;
        let sets = Box::new(alloc, Sets::new(alloc)?)?;
        Ok(Index {
            options,
            told: 0,
            store,
            sets,
        })
    }

    /// Learns what changed up to a place in the history. After an out-of-memory error the index is gone.
    pub fn learn(self, alloc: Global, bank: &Bank, news: &News, as_of: u64) -> Mem<Index>
        requires of_bank { AreMembersOf bank.now self.members }
        requires changes { All (IsChangeOf bank.now) news.now }
        requires new { AreNews self.members news.now }
        ensures index { IfOk result (λ index. index
            ≡ record { options = self.options; told = as_of; members = learned self.members news.now }) }
        ensures of_bank { IfOk result (λ index. AreMembersOf bank.now index.members) }
    {
        // The parts of the index keep the allocator.
        let _ = alloc;
        let Index {
            options,
            told: _,
            mut store,
            mut sets,
        } = self;
        learn_all(bank, news.as_slice(), &mut store, &mut sets)?;
        Ok(Index {
            options,
            told: as_of,
            store,
            sets,
        })
    }

    /// The place in the history up to which it was told. It takes no memory.
    pub fn told(&self) -> u64
        ensures { result ≡ self.now.told }
    {
        self.told
    }
}
