// The set: members by their numbers, each with its position and its sites, and two trees of the terms at their sites.

ghost use Rattle.std.specs.Prelude.{◌≡◌, [], None, Some, nat_lt, IfOk, IfSome, OnErr, if◌then◌else◌};
ghost use Rattle.std.specs.Option.{option_map};
ghost use Rattle.fol_base.specs.Term.{tree_of};
ghost use Rattle.term_bank.specs.declared.bank.Bank.{Bank};
ghost use Rattle.bank_clause.specs.Clause.{IsMemberOf};
ghost use Rattle.superpose.specs.Sites.{enter_sites, start_sites};
ghost use Rattle.partners.specs.Index.{KeepsOthers};
ghost use Rattle.disc_tree.specs.Entries.{KeepsAll};
ghost use Rattle.partners.specs.Known.{AreAllIndexed, HaveFewSites};
ghost use Rattle.partners.specs.Meeting.{AreCandidates};
ghost use Rattle.partners.specs.Partners.{AreOfBank, AreSitesFor, HasAlso, HasNoMore, partner_before, placed_numbered};
ghost use Rattle.partners.specs.SiteTerms.{place_term, start_term};

use crate::index::{in_order, put_sites, take_sites};
use bank_clause::{BankLiterals, Member};
use disc_tree::DiscTree;
use fol_base::{SIZE_LIMIT, Term};
use indexmap::IndexMap;
use literal_selection::Selection;
use plain_types::{Mem, Numbers};
use std::alloc::Global;
use std::marker::Model;
use superpose::{Premise, Sites};
use term_bank::Bank;

/// Clauses of a bank with different numbers, each with a position. Contracts see the mode by which their literals are chosen, and the list
/// of the members with their positions, which they look up by number.
#[derive(Drop)]
pub struct Partners {
    alloc: Global,
    mode: Selection,
    known: IndexMap<u32, Partner>,
    /// The sides from which superposition can start.
    starts: DiscTree,
    /// The terms at the places into which it can go.
    places: DiscTree,
}

/// A member, its position, and its sites.
#[derive(Drop)]
pub(crate) struct Partner {
    pub(crate) position: usize,
    pub(crate) member: Member,
    pub(crate) sites: Sites,
}

impl Model for Partners {
    ghost use Rattle.std.specs.Prelude.{◌≡◌, ℕ, map, nat_eq, Some};
    ghost use Rattle.indexmap.specs.IndexMap.{get};
    ghost use Rattle.partners.specs.Partners.{PartnerSet, partner_set_code};

    ghost Value = { PartnerSet };

    ghost coded = { partner_set_code };

    ghost use Rattle.partners.specs.Known.{IsKnown, placed_of};
    ghost use Rattle.partners.specs.declared.partners.Partner.{Partner};

    ghost view = { λ a. record { mode = a.mode; members = map placed_of a.known.entries } };

    ghost invariant = { λ a. (n : ℕ) (p : Partner) → get nat_eq a.known n ≡ Some p → IsKnown a.mode a.starts a.places n p };
}

impl Partner {
    /// The member with its sites.
    fn premise(&self) -> Premise<'_>
        ensures member { result.member.now ≡ self.now.member }
        ensures sites { result.sites.now ≡ self.now.sites }
    {
        Premise {
            member: &self.member,
            sites: &self.sites,
        }
    }

    /// That member with its sites, if its position is below the bound.
    fn premise_before(&self, bound: usize) -> Option<Premise<'_>>
        ensures member { option_map (λ p. p.member.now) result ≡ (if nat_lt self.now.position bound then Some self.now.member else None) }
        ensures sites { IfSome result (λ p. p.sites.now ≡ self.now.sites) }
    {
        if self.position < bound {
            Some(self.premise())
        } else {
            None
        }
    }
}

impl Partners {
    /// No members, and the mode by which the literals of those to come are chosen. It keeps the allocator for its later calls.
    pub fn new(alloc: Global, mode: Selection) -> Mem<Partners>
        ensures none { IfOk result (λ set. set ≡ record { mode = mode; members = [] }) }
        ensures of_bank { IfOk result (λ set. (bank : Bank) → AreOfBank bank set) }
    {
        let starts = DiscTree::new(alloc)?;
        let places = DiscTree::new(alloc)?;
        Ok(Partners {
            alloc,
            mode,
            known: IndexMap::new(alloc),
            starts,
            places,
        })
    }

    /// Adds an equal member, and finds its sites. The condition is that none with its number is there. After an out-of-memory error the set is as
    /// before. Its time is in proportion to the terms at the sites, with a search among the children of the trees' nodes.
    pub fn insert(&mut self, bank: &Bank, member: &Member, position: usize) -> Mem<()>
        requires member { IsMemberOf bank.now member.now }
        requires number { placed_numbered member.now.number self.old.members ≡ None }
        ensures ok { IfOk result (λ _. HasAlso (record { position = position; member = member.now }) self.old self.new) }
        ensures of_bank { IfOk result (λ _. AreOfBank bank.now self.old → AreOfBank bank.now self.new) }
        ensures err { OnErr result (self.new ≡ self.old) }
    {
        let is_small = u64::from(member.clause.size()) < SIZE_LIMIT;
        prove!(is_small);
        let sites = Sites::of_member(self.alloc, bank, member, self.mode)?;
        let clause = member.clause.copied()?;
        self.known.reserve(1)?;
        let number = member.number;
        let literals = member.clause.lend(bank);
        put_all(
            &mut self.starts,
            &mut self.places,
            &literals,
            number,
            &sites,
        )?;
        let member = Member { number, clause };
        let partner = Partner {
            position,
            member,
            sites,
        };
        self.known.insert(number, partner).unwrap();
        Ok(())
    }

    /// Takes away the member with a number, and tells its position. None exactly where there is none. It takes no memory.
    pub fn remove(&mut self, bank: &Bank, number: u32) -> Option<usize>
        requires { AreOfBank bank.now self.old }
        ensures position { result ≡ option_map (λ p. p.position) (placed_numbered number self.old.members) }
        ensures removed { HasNoMore number self.old self.new }
        ensures of_bank { AreOfBank bank.now self.new }
    {
        match self.known.swap_remove(&number) {
            None => None,
            Some(partner) => {
                let literals = partner.member.clause.lend(bank);
                let sites = &partner.sites;
                take_all(&mut self.starts, &mut self.places, &literals, number, sites);
                Some(partner.position)
            }
        }
    }

    /// The mode by which the members' literals are chosen.
    pub fn mode(&self) -> Selection
        ensures { result ≡ self.now.mode }
    {
        self.mode
    }

    /// The position of the member with a number.
    pub fn position(&self, number: u32) -> Option<usize>
        ensures { result ≡ option_map (λ p. p.position) (placed_numbered number self.now.members) }
    {
        match self.known.get(&number) {
            None => None,
            Some(partner) => Some(partner.position),
        }
    }

    /// The member with a number, and its sites.
    pub fn premise(&self, number: u32) -> Option<Premise<'_>>
        ensures member { option_map (λ p. p.member.now) result ≡ option_map (λ p. p.member) (placed_numbered number self.now.members) }
        ensures sites { IfSome result (λ p. AreSitesFor self.now.mode p.member.now p.sites.now) }
    {
        match self.known.get(&number) {
            None => None,
            Some(partner) => Some(partner.premise()),
        }
    }

    /// That member with its sites, if its position is below the bound.
    pub fn partner(&self, number: u32, bound: usize) -> Option<Premise<'_>>
        ensures member { option_map (λ p. p.member.now) result ≡ partner_before bound self.now number }
        ensures sites { IfSome result (λ p. AreSitesFor self.now.mode p.member.now p.sites.now) }
    {
        match self.known.get(&number) {
            None => None,
            Some(partner) => partner.premise_before(bound),
        }
    }

    /// The numbers of the places whose terms may unify with a term.
    pub(crate) fn places_for(&self, term: &Term) -> Mem<Numbers>
        ensures { IfOk result (AreCandidates enter_sites place_term self.now (tree_of term.now)) }
    {
        let found = self.places.unifiable(term)?;
        Ok(in_order(found))
    }

    /// The numbers of the sides that may unify with a term, and from which superposition can start.
    pub(crate) fn starts_for(&self, term: &Term) -> Mem<Numbers>
        ensures { IfOk result (AreCandidates start_sites start_term self.now (tree_of term.now)) }
    {
        let found = self.starts.unifiable(term)?;
        Ok(in_order(found))
    }
}

/// Adds the sites of a member to both trees. After an out-of-memory error none of them is there.
fn put_all(
    starts: &mut DiscTree,
    places: &mut DiscTree,
    literals: &BankLiterals<'_>,
    number: u32,
    sites: &Sites,
) -> Mem<()>
    requires { HaveFewSites sites.now }
    ensures put { IfOk result (λ _. AreAllIndexed literals.now number sites.now starts.new places.new) }
    ensures starts_kept { KeepsOthers number starts.old starts.new }
    ensures places_kept { KeepsOthers number places.old places.new }
{
    match put_both(starts, places, literals, number, sites) {
        Ok(()) => Ok(()),
        Err(refused) => {
            take_all(starts, places, literals, number, sites);
            Err(refused)
        }
    }
}

/// Adds them; after an out-of-memory error some may have been added.
fn put_both(
    starts: &mut DiscTree,
    places: &mut DiscTree,
    literals: &BankLiterals<'_>,
    number: u32,
    sites: &Sites,
) -> Mem<()>
    requires { HaveFewSites sites.now }
    ensures put { IfOk result (λ _. AreAllIndexed literals.now number sites.now starts.new places.new) }
    ensures starts_kept { KeepsAll starts.old starts.new }
    ensures places_kept { KeepsAll places.old places.new }
{
    put_sites(starts, literals, number, sites.from.as_slice())?;
    put_sites(places, literals, number, sites.into.as_slice())
}

/// Takes away the sites of a member from both trees.
fn take_all(
    starts: &mut DiscTree,
    places: &mut DiscTree,
    literals: &BankLiterals<'_>,
    number: u32,
    sites: &Sites,
)
    requires { HaveFewSites sites.now }
    ensures starts_kept { KeepsOthers number starts.old starts.new }
    ensures places_kept { KeepsOthers number places.old places.new }
{
    take_sites(starts, literals, number, sites.from.as_slice());
    take_sites(places, literals, number, sites.into.as_slice());
}
