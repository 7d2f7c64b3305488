// Sets of signed names, for resolution from parent to parent.

ghost use Rattle.std.specs.Prelude.{◌≡◌, ◌++◌, [], map, IfOk, IsTrue, if◌then◌else◌, Some, None};
ghost use Rattle.plain_types.specs.Names.{has_name, without, can_resolve, resolvent, signed};
ghost use Rattle.kernel_steps.specs.Names.{are_sorted, with_name, with_names, sorted_names};

use crate::names::{has_name, sort_names};
use plain_types::{Mem, NameLit, opposite};
use std::alloc::Global;
use std::collections::HashSet;
use std::marker::Model;

/// A set of signed names, by their hashes. Contracts see it as the sorted list of its names.
#[derive(Drop)]
pub(crate) struct NameSet {
    negative: HashSet<u32>,
    positive: HashSet<u32>,
}

impl Model for NameSet {
    ghost use Rattle.std.specs.Prelude.{List};
    ghost use Rattle.plain_types.specs.declared.sequence.NameLit.{NameLit};
    ghost use Rattle.kernel_steps.specs.NameSet.{names_in};

    ghost Value = { List NameLit };

    ghost view = { λ a. names_in a.negative.keys a.positive.keys };
}

impl NameSet {
    /// No names. It takes no memory.
    pub(crate) fn new(alloc: Global) -> NameSet
        ensures { result ≡ [] }
    {
        NameSet {
            negative: HashSet::new(alloc),
            positive: HashSet::new(alloc),
        }
    }

    /// Adds the names of a list.
    pub(crate) fn put_all(&mut self, names: &[NameLit]) -> Mem<()>
        ensures { IfOk result (λ _. self.new ≡ with_names names.now self.old) }
    {
        for name in names {
            self.put(*name)?;
        }
        Ok(())
    }

    /// Resolves the set with a list on a pivot: takes the pivot out, and adds the list without its opposite. False where the pivot
    /// isn't in the set, or its opposite isn't in the list; the set then stays.
    pub(crate) fn resolve(&mut self, pivot: NameLit, others: &[NameLit]) -> Mem<bool>
        ensures { IfOk result (λ resolved. (if resolved then Some self.new else None)
            ≡ (if can_resolve pivot self.old others.now then Some (sorted_names (resolvent pivot self.old others.now)) else None)) }
    {
        if !self.has(pivot) || !has_name(others, opposite(pivot)) {
            return Ok(false);
        }
        self.remove(pivot);
        self.put_others(others, opposite(pivot))?;
        Ok(true)
    }

    /// The names, sorted.
    pub(crate) fn sorted(&self, alloc: Global) -> Mem<Vec<NameLit>>
        ensures { IfOk result (λ names. names.items ≡ self.now) }
    {
        let mut names = Vec::new(alloc);
        push_signed(&mut names, &self.negative, false)?;
        push_signed(&mut names, &self.positive, true)?;
        sort_names(&mut names);
        Ok(names)
    }

    fn has(&self, name: NameLit) -> bool
        ensures value { result ≡ has_name name self.now }
        ensures sorted { IsTrue (are_sorted self.now) }
    {
        if name.positive {
            self.positive.contains(&name.name)
        } else {
            self.negative.contains(&name.name)
        }
    }

    fn put(&mut self, name: NameLit) -> Mem<()>
        ensures { IfOk result (λ _. self.new ≡ with_name name self.old) }
    {
        if name.positive {
            self.positive.insert(name.name)?;
        } else {
            self.negative.insert(name.name)?;
        }
        Ok(())
    }

    /// Adds the names of a list but one.
    fn put_others(&mut self, names: &[NameLit], left_out: NameLit) -> Mem<()>
        ensures { IfOk result (λ _. self.new ≡ with_names (without left_out names.now) self.old) }
    {
        for name in names {
            if left_out != *name {
                self.put(*name)?;
            }
        }
        Ok(())
    }

    fn remove(&mut self, name: NameLit)
        ensures { self.new ≡ without name self.old }
    {
        if name.positive {
            self.positive.remove(&name.name);
        } else {
            self.negative.remove(&name.name);
        }
    }
}

/// Adds the names with these numbers and a sign at the end.
fn push_signed(names: &mut Vec<NameLit>, numbers: &HashSet<u32>, positive: bool) -> Mem<()>
    ensures { IfOk result (λ _. names.new.items ≡ names.old.items ++ map (signed positive) numbers.now.keys) }
{
    for number in numbers {
        names.push(NameLit {
            positive,
            name: *number,
        })?;
    }
    Ok(())
}
