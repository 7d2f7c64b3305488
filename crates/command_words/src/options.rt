// The options of a command: the values that they may have, and what they give together.

ghost use Rattle.std.specs.Prelude.{◌≡◌};
ghost use Rattle.std.specs.Option.{option_map};
ghost use Rattle.command_words.specs.Words.{options_of, option_named as named_among, setting_in, number_in, tolerance_in, selection_in, switch_in, with_root, with_workers, with_inferences, with_selection, with_split, with_tolerance, with_depth, with_size, with_value, with_option, no_options, options_by, selection_by};
ghost use Rattle.command_words.specs.WordParts.{setting_meant, given_meant};
ghost use Rattle.pool_history.specs.Inputs.{IsLimit};

use crate::command::{
    AxiomSelection, LEAST_TOLERANCE, MOST_DEPTH, MOST_SIZE, MOST_TOLERANCE, OptionName,
};
use literal_selection::Selection;
use plain_types::{DEFAULT_INFERENCES, MOST_INFERENCES};
use pool_history::{MOST_WORKERS, Options};
use tptp_source::decimal;

/// What options give: how many workers there are, how many inferences are counted, which literal of a clause is chosen, whether clauses are
/// split, the folder from which includes are loaded, the tolerance and the depth of an axiom selection, and the largest size that is tried.
#[derive(Clone, Copy)]
pub(crate) struct Given<'a> {
    pub workers: Option<u32>,
    inferences: Option<u32>,
    select: Option<Selection>,
    split: Option<bool>,
    pub root: Option<&'a str>,
    pub tolerance: Option<u32>,
    pub depth: Option<u32>,
    pub size: Option<u32>,
}

impl<'a> Given<'a> {
    /// No options.
    pub fn none() -> Given<'a>
        ensures { given_meant result ≡ no_options }
    {
        Given {
            workers: None,
            inferences: None,
            select: None,
            split: None,
            root: None,
            tolerance: None,
            depth: None,
            size: None,
        }
    }

    /// These options and one word more, of a command that has such options. None where it isn't one of them, or stands twice.
    pub fn with(self, options: &[OptionName], word: &'a str) -> Option<Given<'a>>
        ensures { option_map given_meant result ≡ with_option options.now (given_meant self.entry) word.now }
    {
        let (name, value) = setting_in(word)?;
        let option = option_named(options, name)?;
        self.with_value(option, value)
    }

    /// These options and the value of one more.
    fn with_value(self, option: OptionName, value: &'a str) -> Option<Given<'a>>
        ensures { option_map given_meant result ≡ with_value (given_meant self.entry) option value.now }
    {
        match option {
            OptionName::Workers => self.with_workers(number_in(MOST_WORKERS, value)?),
            OptionName::Inferences => self.with_limit(number_in(MOST_INFERENCES, value)?),
            OptionName::Tptp => self.with_root(value),
            OptionName::Select => self.with_selection(selection_in(value)?),
            OptionName::Split => self.with_split(switch_in(value)?),
            OptionName::Tolerance => self.with_tolerance(tolerance_in(value)?),
            OptionName::Depth => self.with_depth(number_in(MOST_DEPTH, value)?),
            OptionName::Size => self.with_size(number_in(MOST_SIZE, value)?),
        }
    }

    /// With the folder of includes, where none was given before.
    fn with_root(self, root: &'a str) -> Option<Given<'a>>
        ensures { option_map given_meant result ≡ with_root (given_meant self.entry) root.now }
    {
        match self.root {
            Some(_) => None,
            None => Some(Given {
                root: Some(root),
                ..self
            }),
        }
    }

    /// With the number of workers, where none was given before.
    fn with_workers(self, workers: u32) -> Option<Given<'a>>
        ensures { option_map given_meant result ≡ with_workers (given_meant self.entry) workers }
    {
        match self.workers {
            Some(_) => None,
            None => Some(Given {
                workers: Some(workers),
                ..self
            }),
        }
    }

    /// With the number of inferences, where none was given before.
    fn with_limit(self, limit: u32) -> Option<Given<'a>>
        ensures { option_map given_meant result ≡ with_inferences (given_meant self.entry) limit }
    {
        match self.inferences {
            Some(_) => None,
            None => Some(Given {
                inferences: Some(limit),
                ..self
            }),
        }
    }

    /// With the mode of selection, where none was given before.
    fn with_selection(self, select: Selection) -> Option<Given<'a>>
        ensures { option_map given_meant result ≡ with_selection (given_meant self.entry) select }
    {
        match self.select {
            Some(_) => None,
            None => Some(Given {
                select: Some(select),
                ..self
            }),
        }
    }

    /// With the choice whether clauses are split, where none was given before.
    fn with_split(self, split: bool) -> Option<Given<'a>>
        ensures { option_map given_meant result ≡ with_split (given_meant self.entry) split }
    {
        match self.split {
            Some(_) => None,
            None => Some(Given {
                split: Some(split),
                ..self
            }),
        }
    }

    /// With the tolerance of an axiom selection, where none was given before.
    fn with_tolerance(self, tolerance: u32) -> Option<Given<'a>>
        ensures { option_map given_meant result ≡ with_tolerance (given_meant self.entry) tolerance }
    {
        match self.tolerance {
            Some(_) => None,
            None => Some(Given {
                tolerance: Some(tolerance),
                ..self
            }),
        }
    }

    /// With the depth of an axiom selection, where none was given before.
    fn with_depth(self, depth: u32) -> Option<Given<'a>>
        ensures { option_map given_meant result ≡ with_depth (given_meant self.entry) depth }
    {
        match self.depth {
            Some(_) => None,
            None => Some(Given {
                depth: Some(depth),
                ..self
            }),
        }
    }

    /// With the largest size, where none was given before.
    fn with_size(self, size: u32) -> Option<Given<'a>>
        ensures { option_map given_meant result ≡ with_size (given_meant self.entry) size }
    {
        match self.size {
            Some(_) => None,
            None => Some(Given {
                size: Some(size),
                ..self
            }),
        }
    }

    /// How a pool works by these options.
    pub fn options(self) -> Options
        ensures { result ≡ options_by (given_meant self.entry) }
    {
        Options {
            select: self.select.unwrap_or(Selection::Negative),
            split: self.split.unwrap_or(true),
            inferences: self.inferences.unwrap_or(DEFAULT_INFERENCES),
        }
    }
}

/// How a pool works where no option is given.
pub fn default_options() -> Options
    ensures given { result ≡ options_by no_options }
    ensures limit { IsLimit result }
{
    Given::none().options()
}

/// The name and the value of an option: what stands before the first `=` and after it, where that isn't empty.
fn setting_in(word: &str) -> Option<(&str, &str)>
    ensures { option_map setting_meant result ≡ setting_in word.now }
{
    let (name, value) = word.split_once('=')?;
    if value.is_empty() {
        None
    } else {
        Some((name, value))
    }
}

/// The option of a name, of those that a command has.
fn option_named(options: &[OptionName], name: &str) -> Option<OptionName>
    ensures { result ≡ named_among options.now name.now }
{
    for option in options {
        if name == option.word() {
            return Some(*option);
        }
    }
    None
}

/// The number from 1 to `most` that a value is: decimal digits without a leading zero.
pub(crate) fn number_in(most: u32, value: &str) -> Option<u32>
    ensures { result ≡ number_in most value.now }
{
    let number = decimal(value.as_bytes())?;
    if 1 <= number && number <= u64::from(most) {
        Some(number as u32)
    } else {
        None
    }
}

/// The tolerance that a value is.
fn tolerance_in(value: &str) -> Option<u32>
    ensures { result ≡ tolerance_in value.now }
{
    let number = number_in(MOST_TOLERANCE, value)?;
    if LEAST_TOLERANCE <= number {
        Some(number)
    } else {
        None
    }
}

/// The mode that a value names: `none` or `negative`.
fn selection_in(value: &str) -> Option<Selection>
    ensures { result ≡ selection_in value.now }
{
    match value {
        "none" => Some(Selection::Nothing),
        "negative" => Some(Selection::Negative),
        _ => None,
    }
}

/// Whether a value is `on` or `off`.
fn switch_in(value: &str) -> Option<bool>
    ensures { result ≡ switch_in value.now }
{
    match value {
        "on" => Some(true),
        "off" => Some(false),
        _ => None,
    }
}

/// The axiom selection of a tolerance and a depth. None where one stands alone.
pub(crate) fn selection_by(
    tolerance: Option<u32>,
    depth: Option<u32>,
) -> Option<Option<AxiomSelection>>
    ensures { result ≡ selection_by tolerance depth }
{
    match (tolerance, depth) {
        (None, None) => Some(None),
        (Some(tolerance), Some(depth)) => Some(Some(AxiomSelection { tolerance, depth })),
        _ => None,
    }
}
