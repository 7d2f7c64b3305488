// The registered clauses: by number, and the living ones by what they say.

ghost use Rattle.std.specs.Prelude.{◌≡◌, ℕ, ◌+◌, ◌<◌, ◌≤◌, ◌^◌, ◌++◌, [], ◌∷◌, None, Some, false, is_none, is_some, find, true, length, position, slice_get, slice_set, IfSome, OnOk};
ghost use Rattle.std.specs.List.{list_all};
ghost use Rattle.bank_clause.specs.ClauseHash.{clause_hash};
ghost use Rattle.clause_register.specs.Register.{is_living_copy, death_at, is_living_at, at_position, dead_in, made_active};
ghost use Rattle.clause_register.specs.declared.register.Registration.{Registration};

use crate::chains::Chains;
use bank_clause::BankClause;
use kernel_steps::CLAUSE_NUMBERS;
use plain_types::{Mem, NoMemory};
use std::alloc::Global;
use std::marker::Model;

/// A registered clause, and what became of it.
#[derive(Drop)]
pub struct Registration {
    pub clause: BankClause,
    /// The number of its line.
    pub line: u64,
    /// Its place in the order of activation.
    pub position: Option<u32>,
    /// The place of the event in which it died.
    pub death: Option<u64>,
    /// Whether its job is done.
    pub is_active: bool,
}

/// The registered clauses, in the order of their numbers. Contracts see also how many more can be registered without memory.
#[derive(Drop)]
pub struct Register {
    registrations: Vec<Registration>,
    /// The numbers by the hashes of the clauses. Those of dead clauses stay.
    chains: Chains,
}

impl Model for Register {
    ghost use Rattle.clause_register.specs.RegisterCode.{Registrations, registrations_code};

    ghost Value = { Registrations };

    ghost coded = { registrations_code };

    ghost use Rattle.clause_register.specs.RegisterLiving.{registrations_of, IsRegister};

    ghost view = { registrations_of };

    ghost invariant = { λ a. IsRegister a.chains a.registrations.items };
}

impl Register {
    /// No clauses.
    pub fn new(alloc: Global) -> Register
        ensures { result.clauses ≡ [] }
    {
        Register {
            registrations: Vec::new(alloc),
            chains: Chains::new(alloc),
        }
    }

    /// How many clauses were registered.
    pub fn len(&self) -> usize
        ensures len { result ≡ length self.now.clauses }
        ensures few { result + self.now.spare ≤ 2 ^ 32 }
    {
        self.registrations.len()
    }

    /// The number of the living clause that is equal to this one, whose hash is told, by the numbers of its terms.
    pub fn find(&self, clause: &BankClause, hash: u64) -> Option<u32>
        requires { hash ≡ clause_hash clause.now }
        ensures found { result ≡ position (is_living_copy clause.now) self.now.clauses }
        ensures within { IfSome result (λ number. number < length self.now.clauses) }
    {
        let mut next = self.chains.newest_of(hash);
        while next > 0 {
            let number = next - 1;
            if self.is_living_copy(number, clause) {
                return Some(number as u32);
            }
            next = self.chains.older_than(number);
        }
        None
    }

    /// Whether the clause of a number lives, and is equal to this one by the numbers of its terms.
    fn is_living_copy(&self, number: usize, clause: &BankClause) -> bool
        requires { number < length self.now.clauses }
        ensures { (s : Registration) → slice_get self.now.clauses number ≡ Some s → result ≡ is_living_copy clause.now s }
    {
        let registration = self.get(number);
        registration.death.is_none() && *clause == registration.clause
    }

    /// The registered clause of a number.
    pub fn get(&self, number: usize) -> &Registration
        requires { number < length self.now.clauses }
        ensures { slice_get self.now.clauses number ≡ Some result.now }
    {
        &self.registrations[number]
    }

    /// The place of the event in which the clause of a number died, if there is such a clause and it died.
    pub fn death(&self, number: u64) -> Option<u64>
        ensures { result ≡ death_at self.now.clauses number }
    {
        if number < self.len() as u64 {
            self.get(number as usize).death
        } else {
            None
        }
    }

    /// Whether there is a clause of that number, and it lives.
    pub fn is_living(&self, number: u64) -> bool
        ensures { result ≡ is_living_at self.now.clauses number }
    {
        number < self.len() as u64 && self.death(number).is_none()
    }

    /// Whether there are clauses of all these numbers, and they live.
    pub fn are_living(&self, numbers: &[u64]) -> bool
        ensures { result ≡ list_all (is_living_at self.now.clauses) numbers.now }
    {
        numbers.iter().all(|number| self.is_living(*number))
    }

    /// The first of the numbers whose clause died.
    pub fn first_dead(&self, numbers: &[u64]) -> Option<u64>
        ensures { result ≡ find (λ n. is_some (death_at self.now.clauses n)) numbers.now }
    {
        numbers
            .iter()
            .copied()
            .find(|number| self.death(*number).is_some())
    }

    /// Makes room for `more` clauses, and leaves the clauses as they are. Past 2^32 clauses there are no numbers for more.
    pub fn reserve(&mut self, more: usize) -> Mem<()>
        ensures clauses { self.new.clauses ≡ self.old.clauses }
        ensures kept { self.old.spare ≤ self.new.spare }
        ensures room { OnOk result (more ≤ self.new.spare) }
    {
        if more > CLAUSE_NUMBERS as usize - self.registrations.len() {
            return Err(NoMemory);
        }
        self.registrations.reserve(more)?;
        self.chains.reserve(more)?;
        Ok(())
    }

    /// Registers a clause of which no living one is a copy, and whose hash is told. There is room.
    pub fn push(&mut self, clause: BankClause, hash: u64, line: u64)
        requires room { 0 < self.old.spare }
        requires hash { hash ≡ clause_hash clause }
        requires new { position (is_living_copy clause) self.old.clauses ≡ None }
        ensures pushed { self.new.clauses ≡ self.old.clauses ++
            record { clause = clause; line = line; position = None; death = None; is_active = false } ∷ [] }
        ensures room { self.old.spare ≤ self.new.spare + 1 }
    {
        self.chains.push(hash);
        self.registrations.push_reserved(Registration {
            clause,
            line,
            position: None,
            death: None,
            is_active: false,
        });
    }

    /// Notes the position of a clause.
    pub fn set_position(&mut self, number: usize, position: u32)
        requires { number < length self.old.clauses }
        ensures clauses { (s : Registration) → slice_get self.old.clauses number ≡ Some s
            → self.new.clauses ≡ slice_set self.old.clauses number (at_position position s) }
        ensures room { self.new.spare ≡ self.old.spare }
    {
        self.registrations[number].position = Some(position);
    }

    /// Notes that the job on a clause is done.
    pub fn set_active(&mut self, number: usize)
        requires { number < length self.old.clauses }
        ensures clauses { (s : Registration) → slice_get self.old.clauses number ≡ Some s
            → self.new.clauses ≡ slice_set self.old.clauses number (made_active s) }
        ensures room { self.new.spare ≡ self.old.spare }
    {
        self.registrations[number].is_active = true;
    }

    /// Notes the event in which a living clause died. It isn't found any more, though it stays in its chain.
    pub fn bury(&mut self, number: usize, event: u64)
        requires living { (s : Registration) × (slice_get self.old.clauses number ≡ Some s) × (is_none s.death ≡ true) }
        ensures clauses { (s : Registration) → slice_get self.old.clauses number ≡ Some s
            → self.new.clauses ≡ slice_set self.old.clauses number (dead_in event s) }
        ensures room { self.old.spare ≤ self.new.spare }
    {
        self.registrations[number].death = Some(event);
    }
}
