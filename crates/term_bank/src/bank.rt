// The bank.

ghost use Rattle.std.specs.Prelude.{◌≡◌, [], None, Some, IfOk, OnErr};
ghost use Rattle.fol_base.specs.Term.{tree_of};
ghost use Rattle.term_bank.specs.Bank.{identity, number, tree_at, IsOf};
ghost use Rattle.term_bank.specs.Entry.{interned};
ghost use Rattle.term_bank.specs.Table.{entries, number_in, IsTableOf};

use crate::hash::term_hash;
use crate::reference::TermRef;
use crate::rows::{AllRows, Rows, Shown, laid, located, rows_to_lay};
use crate::table::Table;
use boxcar::slot::{OnceSlot, Written};
use boxcar::tag::Tag;
use fol_base::Term;
use plain_types::{Mem, NoMemory};
use std::alloc::Global;
use std::marker::Model;
use std::sync::Wait;
use std::sync::atomic::{AtomicU64, Ordering};

/// A bank of terms, which threads share. It only grows, and a reference of it stands for one tree for good.
#[derive(Drop)]
pub struct Bank {
    rows: OnceSlot<Rows, AllRows>,
    shown: Written<Rows>,
    next: AtomicU64,
}

impl Model for Bank {
    ghost use Rattle.std.specs.Prelude.{◌≡◌, ℕ};

    ghost Value = { ℕ };

    ghost view = { λ bank. bank.rows.id };

    ghost invariant = { λ bank. bank.shown.of ≡ bank.rows.id };
}

impl Bank {
    /// An empty bank and an empty table of it.
    pub fn new(alloc: Global) -> Mem<(Bank, Table)>
        ensures table { IfOk result (λ made. IsTableOf made.0 made.1) }
        ensures empty { IfOk result (λ made. entries made.1 ≡ []) }
    {
        let rows = OnceSlot::new(&Tag::empty());
        let Ok(shown) = rows.set_written(rows_to_lay(alloc)?) else {
            return Err(NoMemory);
        };
        let table = Table::new(alloc, shown.again());
        let bank = Bank {
            rows,
            shown,
            next: AtomicU64::new(0),
        };
        Ok((bank, table))
    }

    /// A further table of the bank, empty. Two tables may have different numbers for one tree.
    pub fn empty_table(&self, alloc: Global) -> Table
        ensures { result ≡ record { bank = identity self.now; entries = [] } }
    {
        Table::new(alloc, self.shown.again())
    }

    /// The reference of a term's tree, with the number that the table has for it; a tree that the table
    /// doesn't have is added. Out of memory is answered only for a tree that the table doesn't have, and leaves the table
    /// as before.
    ///
    /// A term that is there is hashed, and compared with the bank's own; a new one is hashed once and copied once.
    pub fn intern<R: Wait>(
        &self,
        rt: &R,
        alloc: Global,
        table: &mut Table,
        term: &Term,
    ) -> Mem<TermRef>
        requires { IsTableOf self.now table.old }
        ensures reference { IfOk result (IsOf self.now) }
        ensures tree { IfOk result (λ reference. tree_at reference ≡ tree_of term.now) }
        ensures known { IfOk result (λ reference. number_in table.new (tree_of term.now) ≡ Some (number reference)) }
        ensures entries { IfOk result (λ reference.
            entries table.new ≡ interned (entries table.old) (tree_of term.now) (number reference)) }
        ensures table { IsTableOf self.now table.new }
        ensures table_unchanged { OnErr result (table.new ≡ table.old) }
        ensures known_given { OnErr result (number_in table.old (tree_of term.now) ≡ None) }
    {
        let hash = term_hash(0, term);
        if let Some(reference) = table.find(self, hash, term) {
            return Ok(reference.copy());
        }
        table.add(rt, alloc, self, hash, term.copy(alloc)?)
    }

    /// As `intern`, for a term that is handed over: a new one is moved into the bank, and not copied.
    pub fn intern_owned<R: Wait>(
        &self,
        rt: &R,
        alloc: Global,
        table: &mut Table,
        term: Term,
    ) -> Mem<TermRef>
        requires { IsTableOf self.now table.old }
        ensures reference { IfOk result (IsOf self.now) }
        ensures tree { IfOk result (λ reference. tree_at reference ≡ tree_of term) }
        ensures known { IfOk result (λ reference. number_in table.new (tree_of term) ≡ Some (number reference)) }
        ensures entries { IfOk result (λ reference.
            entries table.new ≡ interned (entries table.old) (tree_of term) (number reference)) }
        ensures table { IsTableOf self.now table.new }
        ensures table_unchanged { OnErr result (table.new ≡ table.old) }
        ensures known_given { OnErr result (number_in table.old (tree_of term) ≡ None) }
    {
        let hash = term_hash(0, &term);
        if let Some(reference) = table.find(self, hash, &term) {
            return Ok(reference.copy());
        }
        table.add(rt, alloc, self, hash, term)
    }

    /// Puts a term at the next place. The place's row is made before the place is taken, so a refusal uses up no place, but where
    /// other threads take the last ones of a row meanwhile.
    pub(crate) fn put<R: Wait>(&self, rt: &R, alloc: Global, term: Term) -> Mem<TermRef>
        ensures reference { IfOk result (IsOf self.now) }
        ensures tree { IfOk result (λ reference. tree_at reference ≡ tree_of term) }
    {
        let rows = self.rows.value(&self.shown);
        let Some((ahead, _)) = located(self.next.load(Ordering::SeqCst)) else {
            return Err(NoMemory);
        };
        laid(rt, alloc, &rows[usize::from(ahead)], ahead)?;
        let Some((row, place)) = located(self.next.fetch_add(1, Ordering::SeqCst)) else {
            return Err(NoMemory);
        };
        let written = laid(rt, alloc, &rows[usize::from(row)], row)?;
        let places = rows[usize::from(row)].value(&written);
        let Ok(item) = places[place as usize].set_written(term) else {
            return Err(NoMemory);
        };
        let shown = Shown {
            rows: self.shown.again(),
            row: written,
            item,
        };
        Ok(TermRef {
            place,
            row,
            shown: Some(shown),
        })
    }

    /// The term of a reference, lent.
    pub fn tree(&self, reference: &TermRef) -> &Term
        requires { IsOf self.now reference.now }
        ensures { tree_of result.now ≡ tree_at reference.now }
    {
        match &reference.shown {
            Some(shown) => {
                let rows = self.rows.value(&shown.rows);
                let slots = rows[usize::from(reference.row)].value(&shown.row);
                slots[reference.place as usize].value(&shown.item)
            }
            None => unreachable!(),
        }
    }

    /// Shows that two references of this bank with equal numbers stand for equal trees. It does nothing.
    pub fn agree(&self, first: &TermRef, second: &TermRef)
        requires first { IsOf self.now first.now }
        requires second { IsOf self.now second.now }
        requires numbers { number first.now ≡ number second.now }
        ensures { tree_at first.now ≡ tree_at second.now }
    {
        if let (Some(one), Some(other)) = (&first.shown, &second.shown) {
            one.rows.agrees(&other.rows);
            one.row.agrees(&other.row);
            one.item.agrees(&other.item);
        }
    }
}
