// The words that the entries of a problem declare, found by their names.

ghost use Rattle.std.specs.Prelude.{◌≡◌, ◌≤◌, ◌<◌, ℕ, suc, take, drop, map, length, Some, IfOk, option_map, if◌then◌else◌};
ghost use Rattle.std.specs.HashMap.{get};
ghost use Rattle.std.specs.HashSet.{contains};
ghost use Rattle.std.specs.Prelude.{◌||◌};
ghost use Rattle.tptp_token.specs.Spelling.{is_one_of};
ghost use Rattle.tptp_reader.specs.Bound.{bytes_of, same_name};
ghost use Rattle.tptp_reader.specs.declared.source.Name.{Name as Key};
ghost use Rattle.typed_problem.specs.Declarations.{declared_as, declared_sorts, only_symbol, function_type, predicate_type, undeclared_function, undeclared_predicate};
ghost use Rattle.sort_checks.specs.Lent.{declaration_lent, earlier_lent, body_lent, bodies_of, declared_among, declaration_of_body};
ghost use Rattle.typed_problem.specs.ProblemShape.{type_of};
ghost use denote.Ref.{Bor};
ghost use Rattle.typed_tree.specs.declared.sort.Declaration.{Declaration as Declares};
ghost use Rattle.sort_checks.specs.Tables.{HasFirst, HasSorts, declares, makes_sort, type_told};

use crate::lent::{LentBody, LentDeclaration, LentEntry};
use name_hash::NameHash;
use plain_types::Mem;
use std::alloc::Global;
use std::collections::{HashMap, HashSet};
use std::marker::Model;
use tptp_reader::Name;
use typed_tree::Declaration;

/// The words that entries declare, which contracts see as the list of what the entries say.
#[derive(Drop)]
pub(crate) struct Table<'t, 'a> {
    entries: &'t [LentEntry<'a>],
    /// For each word, the entry that declares it first.
    first: HashMap<Name<'a>, usize, NameHash>,
    /// The words that some declaration makes a sort.
    sorts: HashSet<Name<'a>, NameHash>,
}

impl<'t, 'a> Model for Table<'t, 'a> {
    ghost use Rattle.std.specs.Prelude.{List};
    ghost use Rattle.std.specs.Coded.{codes};
    ghost use Rattle.typed_tree.specs.Codes.{typed_code};
    ghost use Rattle.typed_tree.specs.TypedEntries.{BodyTree};

    ghost Value = { List BodyTree };

    ghost coded = { Prim.hlevel (codes, typed_code) };

    ghost use Rattle.sort_checks.specs.Lent.{bodies_of};
    ghost use Rattle.sort_checks.specs.Tables.{HasWords};

    ghost view = { λ a. bodies_of a.entries.now };

    ghost invariant = { λ a. HasWords (bodies_of a.entries.now) a.first a.sorts };
}

impl<'t, 'a> Table<'t, 'a> {
    /// The words of these entries.
    pub(crate) fn new(alloc: Global, entries: &'t [LentEntry<'a>]) -> Mem<Table<'t, 'a>>
        ensures { IfOk result (λ table. table ≡ bodies_of entries.now) }
    {
        let first = first_entries(alloc, entries)?;
        let sorts = sort_words(alloc, entries)?;
        Ok(Table {
            entries,
            first,
            sorts,
        })
    }

    /// Whether a word is a sort.
    pub(crate) fn is_sort(&self, word: &[u8]) -> bool
        ensures { result ≡ is_one_of (declared_sorts (declared_among self.now)) word.now }
    {
        self.sorts.contains(&Name { bytes: word })
    }

    /// The declaration of a function with that many arguments, if there is one.
    pub(crate) fn function(&self, name: &[u8], arity: usize) -> Option<&'a Declaration>
        ensures { type_told (undeclared_function arity) result ≡ function_type (declared_among self.now) name.now arity }
    {
        let declaration = self.symbol(name)?;
        if declaration.result.is_some() && declaration.args.len() == arity {
            Some(declaration)
        } else {
            None
        }
    }

    /// The declaration of a predicate with that many arguments, if there is one.
    pub(crate) fn predicate(&self, name: &[u8], arity: usize) -> Option<&'a Declaration>
        ensures { type_told (undeclared_predicate arity) result ≡ predicate_type (declared_among self.now) name.now arity }
    {
        let declaration = self.symbol(name)?;
        if declaration.result.is_none() && declaration.args.len() == arity {
            Some(declaration)
        } else {
            None
        }
    }

    /// The first declaration of a word, if it stands before an index.
    pub(crate) fn earlier(&self, word: &[u8], index: usize) -> Option<LentDeclaration<'a>>
        ensures { earlier_lent result ≡ declared_as (declared_among (take index self.now)) word.now }
    {
        let first = *self.first.get(&Name { bytes: word })?;
        if first < index {
            declaration_in(self.entries[first].body)
        } else {
            None
        }
    }

    /// The declaration of a word as a symbol, if its first declaration makes it one.
    fn symbol(&self, word: &[u8]) -> Option<&'a Declaration>
        ensures { option_map (λ (d : Bor Declares). type_of d.now) result ≡ only_symbol (declared_as (declared_among self.now) word.now) }
    {
        self.earlier(word, self.entries.len())?.symbol
    }
}

/// The declaration that a body is, if it is one.
fn declaration_in<'a>(body: LentBody<'a>) -> Option<LentDeclaration<'a>>
    ensures { option_map declaration_lent result ≡ declaration_of_body (body_lent body.entry) }
{
    match body {
        LentBody::Declared(declaration) => Some(declaration),
        LentBody::Formula(_, _) => None,
    }
}

/// For each word the first entry that declares it: the later entries are entered first, and earlier ones take their place.
fn first_entries<'a>(
    alloc: Global,
    entries: &[LentEntry<'a>],
) -> Mem<HashMap<Name<'a>, usize, NameHash>>
    ensures { IfOk result (HasFirst 0 (bodies_of entries.now)) }
{
    let mut first = HashMap::with_hasher(alloc, NameHash::new());
    for index in (0..entries.len()).rev() {
        insert_word(&mut first, entries[index].body, index)?;
    }
    Ok(first)
}

/// The word that an entry declares has that index from now on.
fn insert_word<'a>(
    first: &mut HashMap<Name<'a>, usize, NameHash>,
    body: LentBody<'a>,
    index: usize,
) -> Mem<()>
    ensures { IfOk result (λ _. (n : Key) → get same_name first.new n
        ≡ (if declares (bytes_of n) (body_lent body.entry) then Some index else get same_name first.old n)) }
{
    if let LentBody::Declared(declaration) = body {
        first.insert(
            Name {
                bytes: declaration.word,
            },
            index,
        )?;
    }
    Ok(())
}

/// The words that some entry makes a sort.
fn sort_words<'a>(alloc: Global, entries: &[LentEntry<'a>]) -> Mem<HashSet<Name<'a>, NameHash>>
    ensures { IfOk result (HasSorts (bodies_of entries.now)) }
{
    let mut sorts = HashSet::with_hasher(alloc, NameHash::new());
    for index in (0..entries.len()).rev() {
        insert_sort(&mut sorts, entries[index].body)?;
    }
    Ok(sorts)
}

/// The word of an entry that makes it a sort is one of them from now on.
fn insert_sort<'a>(sorts: &mut HashSet<Name<'a>, NameHash>, body: LentBody<'a>) -> Mem<()>
    ensures { IfOk result (λ _. (n : Key) → contains same_name sorts.new n
        ≡ (makes_sort (bytes_of n) (body_lent body.entry) || contains same_name sorts.old n)) }
{
    let LentBody::Declared(declaration) = body else {
        return Ok(());
    };
    if declaration.symbol.is_none() {
        sorts.insert(Name {
            bytes: declaration.word,
        })?;
    }
    Ok(())
}
