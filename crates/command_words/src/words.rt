// The words of the command line, and the command that they are.

ghost use Rattle.std.specs.Prelude.{◌≡◌, [], ◌∷◌, ◌++◌, map, IfOk, OnErr, string_bytes};
ghost use Rattle.std.specs.Option.{option_map, option_and_then};
ghost use Rattle.command_words.specs.Words.{command_of, is_option as option_like, with_option, file_words, options_in, prove_with, check_with, bench_with, model_with, ground_with, decide_with, command_with};
ghost use Rattle.command_words.specs.WordParts.{few_with, few_of, few_meant, files_by, given_meant, command_meant};

use crate::command::{
    Command, CommandName, DEFAULT_SIZE, DEFAULT_WORKERS, MOST_BENCH, OptionName, ProveOptions,
};
use crate::options::{Given, number_in, selection_by};
use plain_types::Mem;
use std::alloc::Global;
use std::marker::Model;

/// The words after the program's name, which contracts see as the list of their bytes.
#[derive(Drop)]
pub struct Words {
    words: Vec<String>,
}

impl Model for Words {
    ghost use Rattle.std.specs.Prelude.{List, ℕ, map, string_bytes};

    ghost Value = { List (List ℕ) };

    ghost view = { λ w. map string_bytes w.words.items };
}

/// File words: the first two, and whether there are more. An empty one counts as more, since no command has it.
#[derive(Clone, Copy)]
enum FileWords<'a> {
    None,
    One(&'a str),
    Two(&'a str, &'a str),
    More,
}

impl<'a> FileWords<'a> {
    /// These words and one more.
    fn with(self, word: &'a str) -> FileWords<'a>
        ensures { few_meant result ≡ few_with (few_meant self.entry) word.now }
    {
        if word.is_empty() {
            return FileWords::More;
        }
        match self {
            FileWords::None => FileWords::One(word),
            FileWords::One(first) => FileWords::Two(first, word),
            FileWords::Two(_, _) | FileWords::More => FileWords::More,
        }
    }
}

/// What stands after a command.
#[derive(Clone, Copy)]
struct Arguments<'a> {
    files: FileWords<'a>,
    /// None where a word that begins with `-` is no option of the command.
    options: Option<Given<'a>>,
}

/// Whether a word is an option: it begins with `-`.
fn is_option(word: &str) -> bool
    ensures { result ≡ option_like word.now }
{
    match word.as_bytes().first() {
        None => false,
        Some(byte) => *byte == b'-',
    }
}

/// What options give, and one word more.
fn given_with<'a>(
    given: Option<Given<'a>>,
    options: &[OptionName],
    word: &'a str,
) -> Option<Given<'a>>
    ensures { option_map given_meant result ≡ option_and_then (λ g. with_option options.now g word.now) (option_map given_meant given.entry) }
{
    given?.with(options, word)
}

/// The words after a command that has such options, by kinds.
fn arguments_of<'a>(options: &[OptionName], words: &'a [String]) -> Arguments<'a>
    ensures files { few_meant result.files ≡ few_of (file_words (map string_bytes words.entry.now)) }
    ensures options { option_map given_meant result.options ≡ options_in options.now (map string_bytes words.entry.now) }
{
    let mut files = FileWords::None;
    let mut given = Some(Given::none());
    for word in words {
        let word = word.as_str();
        if is_option(word) {
            given = given_with(given, options, word);
        } else {
            files = files.with(word);
        }
    }
    Arguments {
        files,
        options: given,
    }
}

/// `prove FILE`, with its options. None exactly where the words are usage.
fn prove_command(arguments: Arguments<'_>) -> Option<Command<'_>>
    ensures { option_map command_meant result ≡ prove_with (files_by (few_meant arguments.entry.files)) (option_map given_meant arguments.entry.options) }
{
    let FileWords::One(file) = arguments.files else {
        return None;
    };
    let given = arguments.options?;
    let axioms = selection_by(given.tolerance, given.depth)?;
    Some(Command::Prove {
        file,
        root: given.root,
        options: ProveOptions {
            pool: given.options(),
            axioms,
        },
        workers: given.workers.unwrap_or(DEFAULT_WORKERS),
    })
}

/// `check FILE DERIVATION`, with the option for includes. None exactly where the words are usage.
fn check_command(arguments: Arguments<'_>) -> Option<Command<'_>>
    ensures { option_map command_meant result ≡ check_with (files_by (few_meant arguments.entry.files)) (option_map given_meant arguments.entry.options) }
{
    let FileWords::Two(file, derivation) = arguments.files else {
        return None;
    };
    let given = arguments.options?;
    Some(Command::Check {
        file,
        derivation,
        root: given.root,
    })
}

/// `bench N`, which has no options. None exactly where the words are usage.
fn bench_command(arguments: Arguments<'_>) -> Option<Command<'_>>
    ensures { option_map command_meant result ≡ bench_with (files_by (few_meant arguments.entry.files)) (option_map given_meant arguments.entry.options) }
{
    let FileWords::One(word) = arguments.files else {
        return None;
    };
    let _given = arguments.options?;
    let number = number_in(MOST_BENCH, word)?;
    Some(Command::Bench { number })
}

/// `model FILE`, with its options. None exactly where the words are usage.
fn model_command(arguments: Arguments<'_>) -> Option<Command<'_>>
    ensures { option_map command_meant result ≡ model_with (files_by (few_meant arguments.entry.files)) (option_map given_meant arguments.entry.options) }
{
    let FileWords::One(file) = arguments.files else {
        return None;
    };
    let given = arguments.options?;
    Some(Command::Model {
        file,
        root: given.root,
        most: given.size.unwrap_or(DEFAULT_SIZE),
    })
}

/// `ground FILE DERIVATION`, with the option for includes. None exactly where the words are usage.
fn ground_command(arguments: Arguments<'_>) -> Option<Command<'_>>
    ensures { option_map command_meant result ≡ ground_with (files_by (few_meant arguments.entry.files)) (option_map given_meant arguments.entry.options) }
{
    let FileWords::Two(file, derivation) = arguments.files else {
        return None;
    };
    let given = arguments.options?;
    Some(Command::Ground {
        file,
        derivation,
        root: given.root,
    })
}

/// `decide FILE`, with the option for includes. None exactly where the words are usage.
fn decide_command(arguments: Arguments<'_>) -> Option<Command<'_>>
    ensures { option_map command_meant result ≡ decide_with (files_by (few_meant arguments.entry.files)) (option_map given_meant arguments.entry.options) }
{
    let FileWords::One(file) = arguments.files else {
        return None;
    };
    let given = arguments.options?;
    Some(Command::Decide {
        file,
        root: given.root,
    })
}

/// A command with what stands after it. None exactly where the words are usage.
fn command_with(name: CommandName, arguments: Arguments<'_>) -> Option<Command<'_>>
    ensures { option_map command_meant result
        ≡ command_with name (files_by (few_meant arguments.entry.files)) (option_map given_meant arguments.entry.options) }
{
    match name {
        CommandName::Prove => prove_command(arguments),
        CommandName::Check => check_command(arguments),
        CommandName::Bench => bench_command(arguments),
        CommandName::Model => model_command(arguments),
        CommandName::Ground => ground_command(arguments),
        CommandName::Decide => decide_command(arguments),
    }
}

/// The command that words are.
fn command_in(words: &[String]) -> Option<Command<'_>>
    ensures { option_map command_meant result ≡ command_of (map string_bytes words.entry.now) }
{
    let (word, rest) = words.split_first()?;
    let name = CommandName::named(word.as_str())?;
    command_with(name, arguments_of(name.options(), rest))
}

impl Words {
    /// No words. It takes no memory.
    pub fn new(alloc: Global) -> Words
        ensures { result ≡ [] }
    {
        Words {
            words: Vec::new(alloc),
        }
    }

    /// Adds a word at the end. After an out-of-memory error the words are as before.
    pub fn push(&mut self, word: String) -> Mem<()>
        ensures ok { IfOk result (λ _. self.new ≡ self.old ++ string_bytes word ∷ []) }
        ensures err { OnErr result (self.new ≡ self.old) }
    {
        self.words.push(word)?;
        Ok(())
    }

    /// The command that the words are. None exactly where they are usage. It takes no memory.
    pub fn command(&self) -> Option<Command<'_>>
        ensures { option_map command_meant result ≡ command_of self.entry.now }
    {
        command_in(self.words.as_slice())
    }
}
