// The commands and their options: the tables that the rule on words goes by, and a command with its values.

ghost use Rattle.std.specs.Prelude.{◌≡◌};
ghost use Rattle.command_words.specs.Words.{commands, command_named, options_of, option_word as name_of};

use pool_history::Options;

/// The commands.
#[derive(Clone, Copy)]
pub enum CommandName {
    Prove,
    Check,
    Bench,
    Model,
    Ground,
    Decide,
}

/// The options of commands.
#[derive(Clone, Copy)]
pub enum OptionName {
    /// How many workers there are.
    Workers,
    /// At how many counted inferences a pool gives up.
    Inferences,
    /// The folder from which includes are loaded.
    Tptp,
    /// Which literal of a clause is chosen.
    Select,
    /// Whether clauses are split.
    Split,
    /// How many hundredths as frequent as the rarest symbol of an axiom a symbol may be that reaches it.
    Tolerance,
    /// How many steps from the goals axioms are selected.
    Depth,
    /// The largest size in which a model is sought.
    Size,
}

/// Which axioms a proof begins with: those that are reached from the goals by the symbols that they share, at most so many steps away. The
/// tolerance is in hundredths.
#[derive(Clone, Copy)]
pub struct AxiomSelection {
    pub tolerance: u32,
    pub depth: u32,
}

/// How a problem is proved: how the pool works, and which axioms the proof begins with, which are all where nothing is given.
#[derive(Clone, Copy)]
pub struct ProveOptions {
    pub pool: Options,
    pub axioms: Option<AxiomSelection>,
}

/// A command with its values.
#[derive(Clone, Copy)]
pub enum Command<'a> {
    /// Prove the problem of a file by so many workers, as the options say. Includes are loaded from the root, where it is given.
    Prove {
        file: &'a str,
        root: Option<&'a str>,
        options: ProveOptions,
        workers: u32,
    },
    /// Check a derivation of the problem of a file. Includes are loaded from the root, where it is given.
    Check {
        file: &'a str,
        derivation: &'a str,
        root: Option<&'a str>,
    },
    /// Prove the problem of a number, which no file spells.
    Bench {
        number: u32,
    },
    /// Find a finite model of the problem of a file, of at most so many values. Includes are loaded from the root, where it is given.
    Model {
        file: &'a str,
        root: Option<&'a str>,
        most: u32,
    },
    /// Print the ground list of a derivation of the problem of a file. Includes are loaded from the root, where it is given.
    Ground {
        file: &'a str,
        derivation: &'a str,
        root: Option<&'a str>,
    },
    /// Decide whether some interpretation makes the clausal form of the problem of a file true. Includes are loaded from the root, where it is given.
    Decide {
        file: &'a str,
        root: Option<&'a str>,
    },
}

/// How many workers there are where no number is given.
pub const DEFAULT_WORKERS: u32 = 1;

/// The least tolerance of an axiom selection.
pub const LEAST_TOLERANCE: u32 = 100;

/// The greatest tolerance of an axiom selection.
pub const MOST_TOLERANCE: u32 = 1000;

/// The greatest depth of an axiom selection.
pub const MOST_DEPTH: u32 = 50;

/// The greatest number of a problem that no file spells.
pub const MOST_BENCH: u32 = 2000;

/// The largest size that may be asked for.
pub const MOST_SIZE: u32 = 8;

/// The largest size that is tried where none is asked for.
pub const DEFAULT_SIZE: u32 = 4;

const PROVE_OPTIONS: [OptionName; 7] = [
    OptionName::Workers,
    OptionName::Inferences,
    OptionName::Tptp,
    OptionName::Select,
    OptionName::Split,
    OptionName::Tolerance,
    OptionName::Depth,
];

const CHECK_OPTIONS: [OptionName; 1] = [OptionName::Tptp];

const BENCH_OPTIONS: [OptionName; 0] = [];

const MODEL_OPTIONS: [OptionName; 2] = [OptionName::Size, OptionName::Tptp];

const GROUND_OPTIONS: [OptionName; 1] = [OptionName::Tptp];

const DECIDE_OPTIONS: [OptionName; 1] = [OptionName::Tptp];

impl CommandName {
    /// The command of a word.
    pub(crate) fn named(word: &str) -> Option<CommandName>
        ensures { result ≡ command_named commands word.now }
    {
        match word {
            "prove" => Some(CommandName::Prove),
            "check" => Some(CommandName::Check),
            "bench" => Some(CommandName::Bench),
            "model" => Some(CommandName::Model),
            "ground" => Some(CommandName::Ground),
            "decide" => Some(CommandName::Decide),
            _ => None,
        }
    }

    /// The options that it has.
    pub(crate) fn options(self) -> &'static [OptionName]
        ensures { result.now ≡ options_of self }
    {
        match self {
            CommandName::Prove => &PROVE_OPTIONS,
            CommandName::Check => &CHECK_OPTIONS,
            CommandName::Bench => &BENCH_OPTIONS,
            CommandName::Model => &MODEL_OPTIONS,
            CommandName::Ground => &GROUND_OPTIONS,
            CommandName::Decide => &DECIDE_OPTIONS,
        }
    }
}

impl OptionName {
    /// Its name, with which a word begins.
    pub(crate) fn word(self) -> &'static str
        ensures { result.now ≡ name_of self }
    {
        match self {
            OptionName::Workers => "--workers",
            OptionName::Inferences => "--inferences",
            OptionName::Tptp => "--tptp",
            OptionName::Select => "--select",
            OptionName::Split => "--split",
            OptionName::Tolerance => "--tolerance",
            OptionName::Depth => "--depth",
            OptionName::Size => "--size",
        }
    }
}
