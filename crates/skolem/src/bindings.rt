// The variables in force.

ghost use Rattle.std.specs.Prelude.{◌≡◌, ℕ, ◌<◌, ◌≤◌, ◌-◌, ◌++◌, ◌∷◌, List, [], true, length, take, get_or, IfOk};
ghost use Rattle.std.specs.Option.{option_map, unwrap_or};
ghost use Rattle.fol_base.specs.Tree.{variable, tree_variables};
ghost use Rattle.signature.specs.Environment.{term_in_force};
ghost use Rattle.skolem.specs.declared.bindings.Entry.{Entry};
ghost use Rattle.skolem.specs.BoundTerm.{bound_tree};
ghost use Rattle.skolem.specs.Bindings.{no_entry, place_in, HasVariables, Covers};
ghost use Rattle.skolem.specs.Progress.{environment_of, place_variables};

use crate::bound_term::BoundTerm;
use crate::name::{VariableName, VariableRef};
use indexmap::IndexMap;
use name_hash::NameHash;
use plain_types::{Mem, Text};
use std::alloc::Global;
use std::marker::Model;

/// The binding of a name without a variable in force. A form without free variables has none.
pub(crate) const NO_VARIABLE_IN_FORCE: u32 = 0;

/// A variable in force, and the term to which it is bound.
#[derive(Drop)]
pub(crate) struct Binding {
    pub name: Text,
    pub term: BoundTerm,
}

/// A binding, with one more than the places of others, or 0 where there is none or none is noted: of the binding of its name that it hides; of
/// one whose term has the same variables; and of one further out, all of whose term's variables are in this one's too.
#[derive(Drop)]
pub(crate) struct Entry {
    pub binding: Binding,
    pub hidden: usize,
    pub alike: usize,
    pub covers: usize,
}

/// The variables in force, which contracts see as the list of their bindings, the innermost last. A name is found by a table.
#[derive(Drop)]
pub(crate) struct Bindings {
    entries: Vec<Entry>,
    /// One more than the place of the innermost binding of each name that was bound, or 0 where it isn't now.
    innermost: IndexMap<VariableName, usize, NameHash>,
}

impl Model for Bindings {
    ghost use Rattle.std.specs.Prelude.{List};
    ghost use Rattle.skolem.specs.declared.bindings.Binding.{Binding};
    ghost use Rattle.skolem.specs.Bindings.{bindings_of, IsChained};

    ghost Value = { List Binding };

    ghost use Rattle.std.specs.Coded.{codes};
    ghost use Rattle.fol_base.specs.TreeCode.{tree_code};

    ghost coded = { Prim.hlevel (codes, tree_code) };

    ghost view = { λ a. bindings_of a.entries.items };

    ghost invariant = { λ a. IsChained a.entries.items a.innermost.entries };
}

impl Bindings {
    /// No variable is in force.
    pub(crate) fn new(alloc: Global) -> Bindings
        ensures { result ≡ [] }
    {
        Bindings {
            entries: Vec::new(alloc),
            innermost: IndexMap::with_hasher(alloc, NameHash::new()),
        }
    }

    /// How many bindings there are.
    pub(crate) fn len(&self) -> usize
        ensures { result ≡ length self.now }
    {
        self.entries.len()
    }

    /// The term of the innermost variable of that name; none where there is no such variable.
    pub(crate) fn find(&self, name: &Text) -> Option<&BoundTerm>
        ensures { unwrap_or (option_map (λ term. bound_tree term.now) result) (variable 0) ≡ term_in_force (environment_of self.now) name.now }
    {
        let place = place_of(&self.innermost, name);
        if place == 0 {
            return None;
        }
        let entry = entry_at(self.entries.as_slice(), place - 1);
        Some(&entry.binding.term)
    }

    /// One more than the place of a binding whose term has the variables of the innermost variable of that name, or 0 where there is no such
    /// variable. All names of one `?` have the same place, so that their arguments, which are the same, are found once.
    pub(crate) fn place(&self, name: &Text) -> usize
        ensures within { result ≤ length self.now }
        ensures variables { place_variables self.now result ≡ tree_variables (term_in_force (environment_of self.now) name.now) }
    {
        let place = place_of(&self.innermost, name);
        if place == 0 {
            return 0;
        }
        let alike = entry_at(self.entries.as_slice(), place - 1).alike;
        if alike == 0 { place } else { alike }
    }

    /// Adds the variables of the term at a place, which is given as `place` gives it.
    pub(crate) fn push_variables_at(&self, place: u32, found: &mut Vec<u32>) -> Mem<()>
        ensures { IfOk result (λ _. found.new.items ≡ found.old.items ++ place_variables self.now place) }
    {
        if place == 0 {
            return Ok(found.push(NO_VARIABLE_IN_FORCE)?);
        }
        let entries = self.entries.as_slice();
        let index = place as usize - 1;
        if index >= entries.len() {
            return Ok(());
        }
        entry_at(entries, index).binding.term.push_variables(found)
    }

    /// Whether the term at a place is a Skolem term. The place is counted from 1.
    pub(crate) fn is_skolem(&self, place: usize) -> bool
        ensures { result ≡ true → (0 < place) × (place ≤ length self.now) }
    {
        let entries = self.entries.as_slice();
        if place == 0 || place > entries.len() {
            return false;
        }
        matches!(
            entry_at(entries, place - 1).binding.term,
            BoundTerm::Skolem { .. }
        )
    }

    /// The first place up to a limit among a place, the one that it covers, the one which that covers, and so on; or 0.
    pub(crate) fn covered_within(&self, place: usize, limit: usize) -> usize
        ensures { (vs : List ℕ) → Covers self.now place vs → Covers self.now result vs }
    {
        let mut covered = place;
        while covered > limit {
            covered = covers_at(self.entries.as_slice(), covered);
        }
        covered
    }

    /// The term of the innermost variable of that name, or else of one that isn't in force.
    pub(crate) fn term_in_force(&self, name: &Text) -> Mem<BoundTerm>
        ensures { IfOk result (λ term. bound_tree term ≡ term_in_force (environment_of self.now) name.now) }
    {
        match self.find(name) {
            Some(term) => term.share(),
            None => Ok(BoundTerm::Var(NO_VARIABLE_IN_FORCE)),
        }
    }

    /// Adds a binding, the innermost.
    pub(crate) fn push(&mut self, alloc: Global, name: &Text, term: BoundTerm) -> Mem<()>
        ensures { IfOk result (λ _. self.new ≡ self.old ++ record { name = name.now; term = term } ∷ []) }
    {
        self.push_noted(alloc, name, term, 0, 0)
    }

    /// Adds a binding, the innermost. Its term has the variables of that at the place `alike`, and those of that at `covers` among its own. Places
    /// are counted from 1; 0 says nothing.
    pub(crate) fn push_noted(
        &mut self,
        alloc: Global,
        name: &Text,
        term: BoundTerm,
        alike: usize,
        covers: usize,
    ) -> Mem<()>
        requires alike { HasVariables self.old alike (tree_variables (bound_tree term)) }
        requires covers { Covers self.old covers (tree_variables (bound_tree term)) }
        ensures { IfOk result (λ _. self.new ≡ self.old ++ record { name = name.now; term = term } ∷ []) }
    {
        let key = VariableName {
            text: name.copy(alloc)?,
        };
        let binding = Binding {
            name: name.copy(alloc)?,
            term,
        };
        let hidden = place_of(&self.innermost, name);
        self.entries.reserve(1)?;
        self.innermost.reserve(1)?;
        self.entries.push_reserved(Entry {
            binding,
            hidden,
            alike,
            covers,
        });
        let place = self.entries.as_slice().len();
        self.innermost.insert(key, place).unwrap();
        Ok(())
    }

    /// Drops the bindings from that place on, the innermost first.
    pub(crate) fn truncate(&mut self, len: usize)
        ensures { self.new ≡ take len self.old }
    {
        while self.len() > len {
            self.pop();
        }
    }

    /// Drops the innermost binding. There is one.
    fn pop(&mut self)
        requires { 0 < length self.old }
        ensures { self.new ≡ take (length self.old - 1) self.old }
    {
        let Entry {
            binding,
            hidden,
            alike: _,
            covers: _,
        } = self.entries.pop().unwrap();
        let key = VariableName { text: binding.name };
        self.innermost.insert(key, hidden).unwrap();
    }
}

/// The entry at a place.
fn entry_at(entries: &[Entry], place: usize) -> &Entry
    requires { place < length entries.now }
    ensures { (d : Entry) → result.now ≡ get_or entries.now place d }
{
    &entries[place]
}

/// The place that the entry at a place covers, or 0. Places are counted from 1.
fn covers_at(entries: &[Entry], place: usize) -> usize
    requires { 0 < place }
    ensures { result ≡ (get_or entries.now (place - 1) no_entry).covers }
{
    let index = place - 1;
    if index >= entries.len() {
        return 0;
    }
    entry_at(entries, index).covers
}

/// One more than the place of a name, or 0.
fn place_of(innermost: &IndexMap<VariableName, usize, NameHash>, name: &Text) -> usize
    ensures { result ≡ place_in innermost.now.entries name.now }
{
    let key = VariableRef {
        text: name.as_slice(),
    };
    match innermost.get(key) {
        Some(place) => *place,
        None => 0,
    }
}
