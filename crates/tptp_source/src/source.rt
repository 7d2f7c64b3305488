// Sources of a derivation's lines.

ghost use Rattle.std.specs.Prelude.{◌≡◌, IfOk, IfSome, IfNone};
ghost use Rattle.std.specs.Option.{option_map};
ghost use Rattle.tptp_token.specs.Lexemes.{lexemes_of};
ghost use Rattle.tptp_source.specs.Shape.{tree_of};
ghost use Rattle.tptp_source.specs.SourceShape.{source_of};
ghost use Rattle.tptp_source.specs.Sources.{SourceTree, SpellsSource};
ghost use Rattle.tptp_source.specs.TermSources.{file_in, inference_in, introduced_in, definition_in, source_in, is_definition, applied_in};

use crate::part::{
    into_applied, into_items, into_name, into_names, into_one, into_three, into_two,
};
use crate::term::{GeneralTerm, GeneralTerms};
use crate::whole::read_general_term;
use plain_types::{Mem, Text, Texts};
use std::alloc::Global;
use tptp_token::Token;

/// Where the formula of a derivation's line comes from.
#[derive(Drop)]
pub enum Source {
    /// A formula of a file, by its name there.
    File {
        file: GeneralTerm,
        name: Text,
    },
    /// An inference by its rule, its items and the names of its parents.
    Inference {
        rule: GeneralTerm,
        items: GeneralTerms,
        parents: Texts,
    },
    /// The definition of a name, which stands for a part of a clause: where the name is true, a literal of the part is.
    Component(Text),
    /// The other half of the definition of a name that stands for one literal: where the literal is true, the name is.
    Opposite(Text),
}

/// The source that these tokens of a text spell, with nothing after it; none where they spell none. The time is linear in
/// the tokens and their bytes. The calls go as deep as the brackets are nested, so the caller has to see to it that this
/// isn't too deep.
pub fn read_source(alloc: Global, bytes: &[u8], tokens: &[Token]) -> Mem<Option<Source>>
    ensures spelled { IfOk result (λ read. IfSome read (λ source. SpellsSource (lexemes_of bytes.now tokens.now) (source_of source))) }
    ensures none { IfOk result (λ read. IfNone read ((s : SourceTree) → SpellsSource (lexemes_of bytes.now tokens.now) s → ⊥)) }
{
    match read_general_term(alloc, bytes, tokens)? {
        Some(term) => into_source(alloc, term),
        None => Ok(None),
    }
}

/// The source that a term is.
fn into_source(alloc: Global, term: GeneralTerm) -> Mem<Option<Source>>
    ensures { IfOk result (λ read. option_map source_of read ≡ source_in (tree_of term)) }
{
    let applied = into_applied(term);
    let Some((word, arguments)) = applied else {
        return Ok(None);
    };
    let word = word.as_slice();
    if word == b"file".as_slice() {
        Ok(file_source(arguments))
    } else if word == b"inference".as_slice() {
        inference_source(alloc, arguments)
    } else if word == b"introduced".as_slice() {
        Ok(introduced_source(arguments))
    } else {
        Ok(None)
    }
}

/// The source `file(FILE,NAME)`, by its arguments.
fn file_source(arguments: GeneralTerms) -> Option<Source>
    ensures { option_map source_of result ≡ file_in arguments }
{
    let (file, term) = into_two(arguments)?;
    let name = into_name(term)?;
    Some(Source::File { file, name })
}

/// The source `inference(RULE,[ITEMS],[PARENTS])`, by its arguments.
fn inference_source(alloc: Global, arguments: GeneralTerms) -> Mem<Option<Source>>
    ensures { IfOk result (λ read. option_map source_of read ≡ inference_in arguments) }
{
    let three = into_three(arguments);
    let Some((rule, second, third)) = three else {
        return Ok(None);
    };
    let listed_items = into_items(second);
    let Some(items) = listed_items else {
        return Ok(None);
    };
    let listed_parents = into_items(third);
    let Some(terms) = listed_parents else {
        return Ok(None);
    };
    let names = into_names(alloc, terms)?;
    Ok(names.map(|parents| Source::Inference {
        rule,
        items,
        parents,
    }))
}

/// The sources `introduced(definition,[component(NAME)])` and `introduced(definition,[opposite(NAME)])`, by their arguments.
fn introduced_source(arguments: GeneralTerms) -> Option<Source>
    ensures { option_map source_of result ≡ introduced_in arguments }
{
    let (kind, list) = into_two(arguments)?;
    if !is_word_definition(kind) {
        return None;
    }
    let items = into_items(list)?;
    let definition = into_one(items)?;
    definition_source(definition)
}

/// Whether a term is the word `definition`.
fn is_word_definition(term: GeneralTerm) -> bool
    ensures { result ≡ is_definition (applied_in (tree_of term)) }
{
    let applied = into_applied(term);
    match applied {
        Some((word, arguments)) => word.as_slice() == b"definition".as_slice()
            && arguments.is_empty(),
        None => false,
    }
}

/// The source of a definition `component(NAME)` or `opposite(NAME)`.
fn definition_source(term: GeneralTerm) -> Option<Source>
    ensures { option_map source_of result ≡ definition_in (tree_of term) }
{
    let (way, arguments) = into_applied(term)?;
    let argument = into_one(arguments)?;
    let name = into_name(argument)?;
    if way.as_slice() == b"component".as_slice() {
        Some(Source::Component(name))
    } else if way.as_slice() == b"opposite".as_slice() {
        Some(Source::Opposite(name))
    } else {
        None
    }
}
