// Sets of members, which tell of a clause which members subsume it, and of a member which others it subsumes.

ghost use Rattle.std.specs.Prelude.{◌≡◌, [], ◌∷◌, IfOk, OnErr, IsTrue, IsPermutation, true, false};
ghost use Rattle.fol_base.specs.Subsumption.{all_different};
ghost use Rattle.bank_clause.specs.Clause.{IsMemberOf};
ghost use Rattle.subsume.specs.Editing.{HasNoNumber, IsNumbered};
ghost use Rattle.subsume.specs.Members.{numbers_of};

use crate::entry::Entry;
use crate::parted::PartedMembers;
use crate::vector::Features;
use bank_clause::Member;
use indexmap::IndexMap;
use plain_types::Mem;
use std::alloc::Global;
use std::marker::Model;
use term_bank::Bank;

/// Members with different numbers, which contracts see as a list in no particular order.
#[derive(Drop)]
pub struct Subsumers {
    alloc: Global,
    pub(crate) members: PartedMembers,
    /// The features of each member, by its number.
    known: IndexMap<u32, Features>,
}

impl Model for Subsumers {
    ghost use Rattle.std.specs.Prelude.{List};
    ghost use Rattle.std.specs.Coded.{coded_list};
    ghost use Rattle.bank_clause.specs.declared.member.Member.{Member};
    ghost use Rattle.subsume.specs.MemberCode.{member_code};

    ghost Value = { List Member };

    ghost coded = { coded_list member_code };

    ghost use Rattle.subsume.specs.Members.{AreKnown};

    ghost view = { λ a. a.members };

    ghost invariant = { λ a. AreKnown a.members a.known.entries };
}

impl Subsumers {
    /// No members. It keeps the allocator for its later calls.
    pub fn new(alloc: Global) -> Mem<Subsumers>
        ensures { IfOk result (λ set. set ≡ []) }
    {
        Ok(Subsumers {
            alloc,
            members: PartedMembers::new(alloc),
            known: IndexMap::new(alloc),
        })
    }

    /// Shows that no number stands twice. It changes nothing.
    pub fn once(&self)
        ensures { all_different (numbers_of self.now) ≡ true }
    {
        let _ = &self.known;
    }

    /// Adds an equal member. The condition is that the member is of the bank, and that none with its number is there. After want of
    /// memory the set is as before.
    pub fn insert(&mut self, bank: &Bank, member: &Member) -> Mem<()>
        requires member { IsMemberOf bank.now member.now }
        requires new { HasNoNumber member.now.number self.old }
        ensures ok { IfOk result (λ _. IsPermutation (member.now ∷ self.old) self.new) }
        ensures err { OnErr result (self.new ≡ self.old) }
    {
        let features = Features::of(&member.clause.lend(bank));
        let clause = member.clause.copied()?;
        self.known.reserve(1)?;
        let number = member.number;
        let entry = Entry {
            features,
            member: Member { number, clause },
        };
        self.members.insert(self.alloc, entry)?;
        let _ = self.known.insert(number, features).unwrap();
        Ok(())
    }

    /// Takes out the member with a number. True exactly where it was there. It takes no memory.
    pub fn remove(&mut self, number: u32) -> bool
        ensures removed { IsTrue result → IsNumbered number self.old self.new }
        ensures unchanged { result ≡ false → self.new ≡ self.old }
        ensures absent { result ≡ false → HasNoNumber number self.old }
        ensures gone { HasNoNumber number self.new }
    {
        match self.known.swap_remove(&number) {
            None => false,
            Some(features) => self.members.remove(&features, number),
        }
    }
}
