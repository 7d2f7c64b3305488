// Problems, read from the files of a library.

ghost use Rattle.std.specs.Prelude.{◌≡◌, ◌<◌, ◌≤◌, suc, length, map, IfOk, IfErr};
ghost use Rattle.std.specs.Option.{option_copied};
ghost use Rattle.tptp_reader.specs.Faults.{IsFaultWhere};
ghost use Rattle.tptp_tree.specs.ProblemSize.{HasProblemSize};
ghost use Rattle.tptp_problem.specs.Entries.{IsNoLoad};
ghost use Rattle.tptp_problem.specs.Faults.{IsFileFault};
ghost use Rattle.tptp_problem.specs.Files.{MayGive};
ghost use Rattle.tptp_problem.specs.Formulas.{placed};
ghost use Rattle.tptp_problem.specs.Problem.{IsProblem, IsProblemFault, IsWhole, IsWholeFault, ReadsNamed, FaultsNamed, ReadsText, FaultsText, Adds, IsIncludeStep, IsFormulaStep, IsIncludeFault, IsFormulaFault, IsLoadFault, is_second, with_file};
ghost use Rattle.tptp_problem.specs.Shape.{IsLoadTold, IsLoadToldIn, IsLexed, file_of, selections, progress_of};

use crate::entry::Entry;
use crate::fault::{FileFault, read_fault, told};
use crate::include::include_at;
use crate::limits::{MOST_INCLUDES, MOST_PROBLEM_BYTES};
use crate::name::{base_of, loaded_name};
use crate::name_set::set_of;
use crate::reading::Reading;
use crate::selection::Selection;
use crate::source::Source;
use outside::{Library, LoadFault};
use std::alloc::Global;
use tptp_reader::{ReadCause, ReadFault};
use tptp_token::{MOST_TEXT_BYTES, tokens};
use tptp_tree::{Annotated, AnnotatedList, FileName, Problem};

/// Reads the problem of a file: its formulas after includes and selections, in reading order.
pub fn read_problem<L: Library>(
    alloc: Global,
    library: &mut L,
    file: &str,
    root: Option<&str>,
) -> Result<Problem, ReadFault>
    ensures read { IfOk result (λ problem.
        IsProblem (L.told library.old) file.now (option_copied root.entry) (map placed problem.formulas)) }
    ensures size { IfOk result (λ problem. HasProblemSize problem.formulas) }
    ensures fault { IfErr result (IsFaultWhere
        (IsProblemFault (L.told library.old) (L.found library.new) file.now (option_copied root.entry))) }
    ensures load { IfErr result (IsFaultWhere
        (IsLoadTold (L.faults library.old) (L.faults library.new) (L.failed library.new))) }
    ensures told { L.told library.new ≡ L.told library.old }
    ensures later { L.faults library.old ≤ L.faults library.new }
{
    match read_entries::<Annotated, L>(alloc, library, file, root) {
        Ok(formulas) => Ok(Problem {
            formulas: AnnotatedList::from_vec(formulas),
        }),
        Err(fault) => Err(read_fault(fault)),
    }
}

/// Reads the entries of a file in some language of annotated formulas, after includes and selections, in reading order.
pub fn read_entries<E: Entry, L: Library>(
    alloc: Global,
    library: &mut L,
    file: &str,
    root: Option<&str>,
) -> Result<Vec<E>, FileFault<E::Cause>>
    ensures read { IfOk result (λ entries.
        IsWhole E.language (L.told library.old) file.now (option_copied root.entry) (map E.placed entries.items)) }
    ensures fault { IfErr result (IsFileFault
        (IsWholeFault E.language (L.told library.old) (L.found library.new) file.now (option_copied root.entry))) }
    ensures load { IfErr result (IsFileFault
        (IsLoadToldIn E.language (L.faults library.old) (L.faults library.new) (L.failed library.new))) }
    ensures told { L.told library.new ≡ L.told library.old }
    ensures later { L.faults library.old ≤ L.faults library.new }
{
    let base = base_of(alloc, file, root)?;
    let mut reading = Reading {
        base: base.as_str(),
        loaded: 0,
        met: false,
    };
    reading.file::<E, L>(alloc, library, file, &[], MOST_INCLUDES)
}

impl Reading<'_> {
    /// Reads the file of a name, with the selections around it, where includes may be nested so deep in it.
    #[cycle(reading)]
    fn file<E: Entry, L: Library>(
        &mut self,
        alloc: Global,
        library: &mut L,
        name: &str,
        around: &[Selection<'_, '_>],
        depth: u32,
    ) -> Result<Vec<E>, FileFault<E::Cause>>
        ensures read { IfOk result (λ formulas. ReadsNamed E.language (L.told library.old) self.old.base.now (suc depth)
            name.now (selections around.now) (progress_of self.old) (map E.placed formulas.items) (progress_of self.new)) }
        ensures fault { IfErr result (IsFileFault (FaultsNamed E.language (L.told library.old) self.old.base.now (L.found library.new)
            (suc depth) name.now (selections around.now) (progress_of self.old))) }
        ensures load { IfErr result (IsFileFault
            (IsLoadToldIn E.language (L.faults library.old) (L.faults library.new) (L.failed library.new))) }
        ensures told { L.told library.new ≡ L.told library.old }
        ensures later { L.faults library.old ≤ L.faults library.new }
        ensures base { self.new.base ≡ self.old.base }
    {
        let bytes = match self.load(alloc, library, name) {
            Ok(bytes) => bytes,
            Err(fault) => return Err(told::<E>(fault)),
        };
        let lexed = tokens(alloc, bytes.as_slice())?;
        let shared = FileName::from_slice(alloc, name.as_bytes())?;
        let source = Source {
            name: &shared,
            bytes: bytes.as_slice(),
            lexed: &lexed,
            around: &*around,
        };
        self.text::<E, L>(alloc, library, source, depth)
    }

    /// Reads the entries of a text.
    #[cycle(reading)]
    fn text<E: Entry, L: Library>(
        &mut self,
        alloc: Global,
        library: &mut L,
        source: Source<'_>,
        depth: u32,
    ) -> Result<Vec<E>, FileFault<E::Cause>>
        requires lexed { IsLexed source }
        ensures read { IfOk result (λ formulas. ReadsText E.language self.old.base.now (ReadsNamed E.language (L.told library.old) self.old.base.now depth)
            (file_of source.entry) (progress_of self.old) (map E.placed formulas.items) (progress_of self.new)) }
        ensures fault { IfErr result (IsFileFault (FaultsText E.language depth self.old.base.now
            (ReadsNamed E.language (L.told library.old) self.old.base.now depth)
            (FaultsNamed E.language (L.told library.old) self.old.base.now (L.found library.new) depth)
            (file_of source.entry) (progress_of self.old))) }
        ensures load { IfErr result (IsFileFault
            (IsLoadToldIn E.language (L.faults library.old) (L.faults library.new) (L.failed library.new))) }
        ensures told { L.told library.new ≡ L.told library.old }
        ensures later { L.faults library.old ≤ L.faults library.new }
        ensures base { self.new.base ≡ self.old.base }
    {
        let mut formulas = Vec::new(alloc);
        let mut next = 0;
        while next < source.lexed.tokens.len() {
            if source.is_include(next) {
                next = self.include::<E, L>(alloc, library, source, next, depth, &mut formulas)?;
            } else {
                next = self.formula::<E>(alloc, source, next, &mut formulas)?;
            }
        }
        match source.lexed.fault {
            Some(_) => Err(told::<E>(source.end_fault(alloc))),
            None => Ok(formulas),
        }
    }

    /// Reads an include and its file, adds the formulas that it takes to the list, and tells the token after it.
    #[cycle(reading)]
    fn include<E: Entry, L: Library>(
        &mut self,
        alloc: Global,
        library: &mut L,
        source: Source<'_>,
        first: usize,
        depth: u32,
        formulas: &mut Vec<E>,
    ) -> Result<usize, FileFault<E::Cause>>
        requires lexed { IsLexed source }
        ensures read { IfOk result (Adds E.language (IsIncludeStep E.language self.old.base.now
            (ReadsNamed E.language (L.told library.old) self.old.base.now depth) (file_of source.entry) first (progress_of self.old))
            (map E.placed formulas.old.items) (map E.placed formulas.new.items) (progress_of self.new)) }
        ensures onward { IfOk result (λ next. first < next) }
        ensures fault { IfErr result (IsFileFault (IsIncludeFault E.language depth self.old.base.now
            (ReadsNamed E.language (L.told library.old) self.old.base.now depth)
            (FaultsNamed E.language (L.told library.old) self.old.base.now (L.found library.new) depth)
            (file_of source.entry) first (progress_of self.old))) }
        ensures load { IfErr result (IsFileFault
            (IsLoadToldIn E.language (L.faults library.old) (L.faults library.new) (L.failed library.new))) }
        ensures told { L.told library.new ≡ L.told library.old }
        ensures later { L.faults library.old ≤ L.faults library.new }
        ensures base { self.new.base ≡ self.old.base }
    {
        if depth == 0 {
            return Err(told::<E>(source.fault(alloc, ReadCause::IncludeDepth, first)));
        }
        let include = match include_at(alloc, source, first) {
            Ok(include) => include,
            Err(fault) => return Err(told::<E>(fault)),
        };
        let names = include.names.as_slice();
        let known = set_of(alloc, names)?;
        let selection = Selection {
            names,
            known: &known,
        };
        let around = selection.within(alloc, source.around)?;
        let name = loaded_name(alloc, self.base, include.file.as_slice())?;
        let read = self.file::<E, L>(alloc, library, name.as_str(), around.as_slice(), depth - 1)?;
        let missing = selection.missing(alloc, read.as_slice())?;
        match missing {
            Some(index) => {
                let fault = source.fault(alloc, ReadCause::SelectionMissing, first + 5 + 2 * index);
                Err(told::<E>(fault))
            }
            None => {
                selection.take(read, formulas)?;
                Ok(include.next)
            }
        }
    }

    /// Reads an annotated formula, adds it to the list, and tells the token after it.
    fn formula<E: Entry>(
        &mut self,
        alloc: Global,
        source: Source<'_>,
        first: usize,
        formulas: &mut Vec<E>,
    ) -> Result<usize, FileFault<E::Cause>>
        requires lexed { IsLexed source }
        requires first { first < length source.lexed.now.tokens }
        ensures read { IfOk result (Adds E.language (IsFormulaStep E.language (file_of source.entry) first (progress_of self.old))
            (map E.placed formulas.old.items) (map E.placed formulas.new.items) (progress_of self.new)) }
        ensures onward { IfOk result (λ next. first < next) }
        ensures fault { IfErr result (IsFileFault (IsFormulaFault E.language (file_of source.entry)
            (is_second E.language (file_of source.entry) first (progress_of self.old)) first (progress_of self.old))) }
        ensures no_load { IfErr result (IsNoLoad E.language) }
        ensures base { self.new.base ≡ self.old.base }
    {
        if self.met && source.begins_conjecture(alloc, E::conjecture_word(), first)? {
            let fault = source.fault(alloc, ReadCause::SecondConjecture, first + 4);
            return Err(told::<E>(fault));
        }
        let (formula, next) = E::read(alloc, source.name, source.bytes, source.lexed, first)?;
        if source.counts_as_conjecture(&formula) {
            self.met = true;
        }
        formulas.push(formula)?;
        Ok(next)
    }

    /// Loads a file, as long as it may be after those that were loaded before.
    fn load<L: Library>(
        &mut self,
        alloc: Global,
        library: &mut L,
        name: &str,
    ) -> Result<Vec<u8>, ReadFault>
        ensures given { IfOk result (λ bytes. MayGive (L.told library.old) name.now self.old.loaded bytes.items) }
        ensures small { IfOk result (λ bytes. length bytes.items ≤ MOST_TEXT_BYTES) }
        ensures progress { IfOk result (λ bytes. progress_of self.new ≡ with_file bytes.items (progress_of self.old)) }
        ensures fault { IfErr result (IsFaultWhere
            (IsLoadFault (L.told library.old) (L.found library.new) name.now (progress_of self.old))) }
        ensures load { IfErr result (IsFaultWhere
            (IsLoadTold (L.faults library.old) (L.faults library.new) (L.failed library.new))) }
        ensures told { L.told library.new ≡ L.told library.old }
        ensures later { L.faults library.old ≤ L.faults library.new }
        ensures base { self.new.base ≡ self.old.base }
    {
        let room = MOST_TEXT_BYTES.min(MOST_PROBLEM_BYTES - self.loaded);
        match library.load(alloc, name, room) {
            Ok(bytes) => {
                self.loaded += bytes.len();
                Ok(bytes)
            }
            Err(LoadFault::TooLong) => Err(ReadFault::at(
                alloc,
                ReadCause::TooLong,
                name.as_bytes(),
                0,
            )),
            Err(LoadFault::Failed) => Err(ReadFault::at(
                alloc,
                ReadCause::Load,
                name.as_bytes(),
                0,
            )),
            Err(LoadFault::NoMemory) => Err(ReadFault::NoMemory),
        }
    }
}
