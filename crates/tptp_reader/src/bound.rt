// The variables that are bound where the reading stands.

ghost use Rattle.std.specs.Prelude.{◌≡◌, ◌<◌, ◌-◌, ◌++◌, [], ◌∷◌, length, take, drop, count_by, IfOk, OnErr};
ghost use Rattle.std.specs.Map.{count_at};
ghost use Rattle.std.specs.HashMap.{get};
ghost use Rattle.tptp_reader.specs.Bound.{same_name};
ghost use Rattle.tptp_reader.specs.Telling.{is_among as among};

use crate::source::Name;
use name_hash::NameHash;
use plain_types::Mem;
use std::alloc::Global;
use std::collections::HashMap;
use std::marker::Model;

/// How many of the bound variables are looked through; those after them are found by a table.
const SCANNED: usize = 16;

/// The variables that are bound, which contracts see as the list of their names, the innermost last. Whether a name is one of
/// them is found in the time of reading it, however many there are.
#[derive(Drop)]
pub struct Bound<'a> {
    names: Vec<Name<'a>>,
    /// For each name, how often it stands after the first `SCANNED` names.
    behind: HashMap<Name<'a>, usize, NameHash>,
}

impl<'a> Model for Bound<'a> {
    ghost use Rattle.std.specs.Prelude.{List};
    ghost use Rattle.tptp_reader.specs.declared.source.Name.{Name};
    ghost use Rattle.tptp_reader.specs.Bound.{IsCounted};

    ghost Value = { List Name };

    ghost view = { λ a. a.names.items };

    ghost invariant = { λ a. IsCounted a.names.items a.behind };
}

impl<'a> Bound<'a> {
    /// No variable is bound. It takes no memory.
    pub fn new(alloc: Global) -> Bound<'a>
        ensures { result ≡ [] }
    {
        Bound {
            names: Vec::new(alloc),
            behind: HashMap::with_hasher(alloc, NameHash::new()),
        }
    }

    /// How many there are.
    pub fn len(&self) -> usize
        ensures { result ≡ length self.now }
    {
        self.names.len()
    }

    /// Whether a name is bound.
    pub fn contains(&self, bytes: &'a [u8]) -> bool
        ensures { result ≡ among self.now bytes.now }
    {
        is_among_first(self.names.as_slice(), bytes) || self.is_behind(bytes)
    }

    /// Whether a name stands after those that are looked through.
    fn is_behind(&self, bytes: &'a [u8]) -> bool
        ensures { result ≡ among (drop SCANNED self.now) bytes.now }
    {
        self.names.len() > SCANNED && count_of(&self.behind, Name { bytes }) > 0
    }

    /// Binds a variable, the innermost. When out of memory none is bound.
    pub fn push(&mut self, name: Name<'a>) -> Mem<()>
        ensures pushed { IfOk result (λ _. self.new ≡ self.old ++ name.entry ∷ []) }
        ensures unchanged { OnErr result (self.new ≡ self.old) }
    {
        if self.names.len() < SCANNED {
            self.names.push(name)?;
            return Ok(());
        }
        self.names.reserve(1)?;
        let count = count_of(&self.behind, name);
        self.behind.insert(name, count + 1)?;
        self.names.push_reserved(name);
        Ok(())
    }

    /// Keeps the first ones of that number, and drops those after them, the innermost first.
    pub fn truncate(&mut self, len: usize)
        ensures { self.new ≡ take len self.old }
    {
        while self.len() > len {
            self.pop();
        }
    }

    /// Drops the innermost. There is one.
    fn pop(&mut self)
        requires { 0 < length self.old }
        ensures { self.new ≡ take (length self.old - 1) self.old }
    {
        let name = self.names.pop().unwrap();
        if self.names.len() >= SCANNED {
            let count = count_of(&self.behind, name);
            let changed: Result<_, _> = self.behind.insert(name, count - 1);
            changed.unwrap();
        }
    }
}

/// Whether one of the first `SCANNED` names has these bytes.
fn is_among_first(names: &[Name<'_>], bytes: &[u8]) -> bool
    ensures { result ≡ among (take SCANNED names.now) bytes.now }
{
    names.iter().take(SCANNED).any(|name| bytes == name.bytes)
}

/// How often a table counts a name.
fn count_of<'a>(counts: &HashMap<Name<'a>, usize, NameHash>, name: Name<'a>) -> usize
    ensures { result ≡ count_at (get same_name counts.now) name.entry }
{
    match counts.get(&name) {
        Some(count) => *count,
        None => 0,
    }
}
