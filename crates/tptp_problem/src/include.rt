// Includes, read from their tokens.

ghost use Rattle.std.specs.Prelude.{◌≡◌, ◌<◌, ◌+◌, ◌^◌, IfOk, IfErr, drop};
ghost use Rattle.tptp_reader.specs.Faults.{IsFaultWhere};
ghost use Rattle.tptp_problem.specs.Awaiting.{after as after_token, is_nothing as nothing_is, ending_from};
ghost use Rattle.tptp_problem.specs.Problem.{IsIncludeSyntaxFault};
ghost use Rattle.tptp_token.specs.TextTokens.{lexeme_of};
ghost use Rattle.tptp_problem.specs.Shape.{IsLexed, lexemes_told, file_of};
ghost use Rattle.tptp_problem.specs.IncludeReads.{IsIncludeRead, ReadsNames, IsNameAt, FitsEnding};
ghost use Rattle.tptp_problem.specs.declared.include.Awaited.TheVariants.{Keyword as keyword};

use crate::source::Source;
use plain_types::{Mem, Text, Texts};
use std::alloc::Global;
use tptp_reader::{ReadCause, ReadFault};
use tptp_token::{Kind, TextToken};

/// An include: the word for its file, the names of the formulas that it takes, or none where it takes all, and the token
/// after it.
#[derive(Drop)]
pub struct Include {
    pub file: Text,
    pub names: Texts,
    pub next: usize,
}

/// The part that has to come next of `include ( FILE ) .` or of `include ( FILE , [ NAME , .. ] ) .`.
#[derive(Clone, Copy)]
enum Awaited {
    Keyword,
    Open,
    File,
    AfterFile,
    OpenList,
    Name,
    AfterName,
    Close,
    Stop,
    Nothing,
}

impl Awaited {
    /// The part that has to come after a token, where the token may stand here.
    fn after(self, token: TextToken<'_>) -> Option<Awaited>
        ensures { result ≡ after_token self (lexeme_of token.entry) }
    {
        match self {
            Awaited::Keyword if token.is_exactly(Kind::Lower, b"include") => Some(Awaited::Open),
            Awaited::Open if token.is_mark(b"(") => Some(Awaited::File),
            Awaited::File if token.is_word() => Some(Awaited::AfterFile),
            Awaited::AfterFile if token.is_mark(b")") => Some(Awaited::Stop),
            Awaited::AfterFile if token.is_mark(b",") => Some(Awaited::OpenList),
            Awaited::OpenList if token.is_mark(b"[") => Some(Awaited::Name),
            Awaited::Name if token.is_name() => Some(Awaited::AfterName),
            Awaited::AfterName if token.is_mark(b",") => Some(Awaited::Name),
            Awaited::AfterName if token.is_mark(b"]") => Some(Awaited::Close),
            Awaited::Close if token.is_mark(b")") => Some(Awaited::Stop),
            Awaited::Stop if token.is_mark(b".") => Some(Awaited::Nothing),
            _ => None,
        }
    }

    fn is_nothing(self) -> bool
        ensures { result ≡ nothing_is self }
    {
        matches!(self, Awaited::Nothing)
    }
}

/// Where the tokens of an include end.
enum Ending {
    /// It is whole before the token of that index.
    Whole(usize),
    /// No include goes on with the token of that index.
    Stopped(usize),
    /// The tokens end too early.
    Cut,
}

/// The include that begins at a token. It is `Syntax` at the first token with which no include goes on; where the tokens end
/// too early, the fault is that of the tokens, or else `Syntax` at the end of the text.
pub fn include_at(alloc: Global, source: Source<'_>, first: usize) -> Result<Include, ReadFault>
    requires lexed { IsLexed source }
    ensures read { IfOk result (IsIncludeRead source.entry first) }
    ensures fits { IfOk result (λ include. include.next < 2 ^ 64) }
    ensures fault { IfErr result (IsFaultWhere (IsIncludeSyntaxFault (file_of source.entry) first)) }
{
    match ending_of(source, first) {
        Ending::Stopped(index) => Err(source.fault(alloc, ReadCause::Syntax, index)),
        Ending::Cut => Err(source.end_fault(alloc)),
        Ending::Whole(next) => Ok(Include {
            file: name_at(alloc, source, first + 2)?,
            names: names_between(alloc, source, first + 5, next - 3)?,
            next,
        }),
    }
}

/// Where the include that begins at a token ends.
fn ending_of(source: Source<'_>, first: usize) -> Ending
    ensures end { result ≡ ending_from first keyword (drop first (lexemes_told source.entry)) }
    ensures fits { FitsEnding result }
{
    let mut awaited = Awaited::Keyword;
    let mut at = first;
    while let Some(token) = source.token(at) {
        let Some(next) = awaited.after(token) else {
            return Ending::Stopped(at);
        };
        if next.is_nothing() {
            return Ending::Whole(at + 1);
        }
        awaited = next;
        at += 1;
    }
    Ending::Cut
}

/// The names of a selection, the first of which stands at a token, up to the bracket that closes the list.
fn names_between(alloc: Global, source: Source<'_>, first: usize, end: usize) -> Mem<Texts>
    requires { end + 1 < 2 ^ 64 }
    ensures { IfOk result (ReadsNames source.entry first end) }
{
    let mut names = Texts::new(alloc);
    let mut at = first;
    while at < end {
        names.push(name_at(alloc, source, at)?)?;
        at += 2;
    }
    Ok(names)
}

/// The name that a token is.
fn name_at(alloc: Global, source: Source<'_>, at: usize) -> Mem<Text>
    ensures { IfOk result (IsNameAt source.entry at) }
{
    match source.token(at) {
        Some(token) => token.name(alloc),
        None => Ok(Text::new(alloc)),
    }
}
