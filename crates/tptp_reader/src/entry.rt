// Annotated formulas, read from tokens.

ghost use Rattle.std.specs.Prelude.{◌≡◌, ◌+◌, ◌<◌, ◌≤◌, ◌^◌, [], ◌∷◌, IfOk, IfErr, IfSome, true, false, length, slice_get, Some, None};
ghost use Rattle.std.specs.List.{list_all};
ghost use Rattle.tptp_token.specs.Spelling.{is_digit, is_one_of};
ghost use Rattle.tptp_tree.specs.Shape.{formula_of};
ghost use Rattle.tptp_tree.specs.Causes.{roles_left_out, untaken_role_cause};
ghost use Rattle.tptp_reader.specs.Machine.{an_annotated, a_name, a_role, end_of_body, before_body, typed_words};
ghost use Rattle.tptp_reader.specs.Telling.{Ends, refusal_of};
ghost use Rattle.tptp_token.specs.Lexing.{lexed_of};
ghost use Rattle.tptp_reader.specs.Annotating.{IsReading, IsFaultOf};
ghost use Rattle.tptp_reader.specs.TellingEntries.{IsFaultOfHalt, IsWithin, cause_told, body_symbols, ReadsLanguage, ReadsName, ReadsRole, ReadsBody, ReadsEnding, ReadsEntry};

use crate::bound::Bound;
use crate::cause::{Form, Halt, ReadCause, ReadFault, Refusal, fault_at_end};
use crate::source::Reader;
use plain_types::Text;
use std::alloc::Global;
use tptp_token::{Lexed, MOST_TEXT_BYTES};
use tptp_tree::{Annotated, FileName, Formula, Role};

/// An annotated formula, with the tokens of its notes and the token after it, by their indices.
#[derive(Drop)]
pub struct Read {
    pub annotated: Annotated,
    /// The first token of the notes.
    pub notes_start: usize,
    /// The token after the notes, which is the first where there are none.
    pub notes_end: usize,
    /// The token after the formula's full stop.
    pub next: usize,
}

/// The end of an entry: the range of its notes, and the token after its full stop.
#[derive(Clone, Copy)]
pub struct Ending {
    pub start: usize,
    pub end: usize,
    pub next: usize,
}

/// Reads the annotated formula that begins at a token, with at most `levels` levels of nesting. A level is begun by `~`, by
/// a quantifier and by a bracket, and ends with its unit or its closing bracket; the brackets of the entry itself count
/// none. The place is that of the formula's first byte, and the name of the file is empty.
///
/// A fault stands at the first byte of a token: `Syntax` at the first token after which no text is an annotated formula,
/// `Inappropriate` at such a token that is a form left out by name, `FreeVariable` at a variable of a `fof` formula that no
/// quantifier binds, `Role` at a role that isn't taken or a conjecture in `cnf`, `Nesting` at the token that begins a level
/// over the limit. Where the tokens end before the formula does, the fault is that of the tokens, or else `Syntax` at the
/// end of the text. The first fault in reading order wins. The time is linear in the bytes, but for variables' names that
/// are made to collide in the table of those that are bound.
pub fn annotated(
    alloc: Global,
    bytes: &[u8],
    lexed: &Lexed,
    first: usize,
    nesting: u32,
) -> Result<Read, ReadFault>
    requires lexed { lexed.now ≡ lexed_of bytes.now }
    requires small { length bytes.now ≤ MOST_TEXT_BYTES }
    requires first { first < length lexed.now.tokens }
    ensures read { IfOk result (IsReading nesting bytes.now lexed.now.tokens first) }
    ensures fault { IfErr result (IsFaultOf nesting bytes.now lexed.now first) }
{
    let reader = Reader {
        bytes,
        tokens: lexed.tokens.as_slice(),
        limit: nesting,
        closed: false,
    };
    match reader.entry(alloc, first) {
        Ok(read) => Ok(read),
        Err(halt) => Err(fault_of(alloc, bytes, lexed, halt)),
    }
}

/// The fault of a text that isn't read, by the token or the end of tokens where reading stopped.
fn fault_of(alloc: Global, bytes: &[u8], lexed: &Lexed, halt: Halt) -> ReadFault
    requires small { length bytes.now ≤ MOST_TEXT_BYTES }
    requires within { IsWithin (length lexed.now.tokens) halt }
    ensures { IsFaultOfHalt bytes.now lexed.now halt result }
{
    let none = Text::new(alloc);
    match halt {
        Halt::NoMemory => ReadFault::NoMemory,
        Halt::At(refusal, index) => {
            let token = lexed.tokens.as_slice()[index];
            ReadFault::At(cause_of(refusal), none, token.start)
        }
        Halt::Ended => {
            let (cause, place) = fault_at_end(lexed.fault, bytes.len() as u32);
            ReadFault::At(cause, none, place)
        }
    }
}

pub fn cause_of(refusal: Refusal) -> ReadCause
    ensures { result ≡ cause_told refusal }
{
    match refusal {
        Refusal::Syntax => ReadCause::Syntax,
        Refusal::FreeVariable => ReadCause::FreeVariable,
        Refusal::Role => ReadCause::Role,
        Refusal::Nesting => ReadCause::Nesting,
        Refusal::Inappropriate(form) => ReadCause::Inappropriate(form),
    }
}

impl<'a> Reader<'a> {
    /// Reads an entry.
    fn entry(&self, alloc: Global, first: usize) -> Result<Read, Halt>
        ensures read { IfOk result (ReadsEntry self.now first) }
        ensures close { IfOk result (λ read. read.notes_end + 2 ≡ read.next) }
        ensures within { IfOk result (λ read. read.next ≤ length self.now.tokens.now) }
        ensures place { IfOk result (λ read. IfSome (slice_get self.now.tokens.now first) (λ t. read.annotated.place ≡ t.start)) }
        ensures file { IfOk result (λ read. read.annotated.file ≡ []) }
        ensures halted { IfErr result (λ halt. Ends self.now (an_annotated self.now.limit ∷ []) first halt) }
    {
        let clause = self.language(first)?;
        let open = self.after(first + 1, b"(")?;
        let name = self.name(alloc, open)?;
        let comma = self.after(open + 1, b",")?;
        let role = self.role(comma, clause)?;
        let body = self.after(comma + 1, b",")?;
        let (formula, after) = self.body(alloc, clause, body)?;
        let ending = self.ending(alloc, after)?;
        Ok(Read {
            annotated: Annotated {
                name,
                role,
                clause,
                formula,
                file: FileName::empty(),
                place: self.place_of(first),
            },
            notes_start: ending.start,
            notes_end: ending.end,
            next: ending.next,
        })
    }

    /// Where a token begins in the text; 0 after the last token.
    pub fn place_of(&self, at: usize) -> u32
        ensures { IfSome (slice_get self.now.tokens.now at) (λ t. result ≡ t.start) }
    {
        match self.tokens.get(at) {
            Some(token) => token.start,
            None => 0,
        }
    }

    /// Whether an entry's first word is `cnf`, and not `fof`.
    pub fn language(&self, at: usize) -> Result<bool, Halt>
        ensures read { IfOk result (ReadsLanguage self.now at) }
        ensures fits { IfOk result (λ _. at + 1 < 2 ^ 64) }
        ensures halted { IfErr result (λ halt. Ends self.now (an_annotated self.now.limit ∷ []) at halt) }
    {
        let token = self.look(at)?;
        if !token.is_lower() {
            return Err(Halt::At(Refusal::Syntax, at));
        }
        if token.has_bytes(b"fof") {
            return Ok(false);
        }
        if token.has_bytes(b"cnf") {
            return Ok(true);
        }
        if is_typed(token.bytes) {
            return Err(Halt::At(Refusal::Inappropriate(Form::Typed), at));
        }
        Err(Halt::At(Refusal::Syntax, at))
    }

    /// Reads a formula's name: a word or a number of digits.
    pub fn name(&self, alloc: Global, at: usize) -> Result<Text, Halt>
        ensures read { IfOk result (ReadsName self.now at) }
        ensures fits { IfOk result (λ _. at + 1 < 2 ^ 64) }
        ensures halted { IfErr result (λ halt. Ends self.now (a_name ∷ []) at halt) }
    {
        let token = self.look(at)?;
        if !token.is_name() {
            return Err(Halt::At(Refusal::Syntax, at));
        }
        Ok(token.name(alloc)?)
    }

    /// Reads a role.
    fn role(&self, at: usize, clause: bool) -> Result<Role, Halt>
        ensures read { IfOk result (ReadsRole self.now at clause) }
        ensures fits { IfOk result (λ _. at + 1 < 2 ^ 64) }
        ensures halted { IfErr result (λ halt. Ends self.now (a_role clause ∷ []) at halt) }
    {
        let token = self.look(at)?;
        if !token.is_lower() {
            return Err(Halt::At(Refusal::Syntax, at));
        }
        match Role::of_word(token.bytes, clause) {
            Some(role) => Ok(role),
            None => Err(Halt::At(untaken_role(token.bytes), at)),
        }
    }

    /// Reads the formula of an entry.
    fn body(&self, alloc: Global, clause: bool, at: usize) -> Result<(Formula, usize), Halt>
        ensures read { IfOk result (λ read. ReadsBody self.now at read.1 clause (formula_of read.0)) }
        ensures halted { IfErr result (λ halt. Ends self.now (body_symbols self.now.limit clause) at halt) }
    {
        let reader = Reader {
            bytes: self.bytes,
            tokens: self.tokens,
            limit: self.limit,
            closed: !clause,
        };
        let mut bound = Bound::new(alloc);
        if clause {
            let (plain, last) = reader.clause(alloc, &bound, at, 0)?;
            return Ok((plain, last));
        }
        let mut read = Formula::True;
        let next = reader.formula(alloc, &mut bound, &mut read, at, 0)?;
        Ok((read, next))
    }

    /// Reads notes after a comma, or none, and the bracket and the full stop that close the entry.
    pub fn ending(&self, alloc: Global, at: usize) -> Result<Ending, Halt>
        ensures read { IfOk result (λ ending. ReadsEnding self.now at ending.start ending.end ending.next) }
        ensures close { IfOk result (λ ending. ending.end + 2 ≡ ending.next) }
        ensures within { IfOk result (λ ending. ending.next ≤ length self.now.tokens.now) }
        ensures halted { IfErr result (λ halt. Ends self.now (end_of_body self.now.limit ∷ []) at halt) }
    {
        let token = self.look(at)?;
        if token.is_mark(b",") {
            let close = self.notes(alloc, at + 1)?;
            let next = self.after(close + 1, b".")?;
            return Ok(Ending {
                start: at + 1,
                end: close,
                next,
            });
        }
        if !token.is_mark(b")") {
            return Err(Halt::At(Refusal::Syntax, at));
        }
        let last = self.after(at + 1, b".")?;
        Ok(Ending {
            start: at,
            end: at,
            next: last,
        })
    }
}

/// Whether a word begins a formula with types.
fn is_typed(word: &[u8]) -> bool
    ensures { result ≡ is_one_of typed_words word.now }
{
    word == b"thf".as_slice()
        || word == b"tff".as_slice()
        || word == b"tcf".as_slice()
        || word == b"tpi".as_slice()
}

/// Why a role that isn't taken is refused.
pub fn untaken_role(word: &[u8]) -> Refusal
    ensures { Some (refusal_of result) ≡ untaken_role_cause None word.now }
{
    if is_role_form(word) {
        Refusal::Inappropriate(Form::RoleForm)
    } else {
        Refusal::Role
    }
}

/// Whether a role is left out by name.
fn is_role_form(word: &[u8]) -> bool
    ensures { result ≡ is_one_of roles_left_out word.now }
{
    word == b"question".as_slice()
        || word == b"type".as_slice()
        || word == b"fi_domain".as_slice()
        || word == b"fi_functors".as_slice()
        || word == b"fi_predicates".as_slice()
}
