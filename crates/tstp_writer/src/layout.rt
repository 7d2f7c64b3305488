// The lines of a text, and their names.

ghost use Rattle.std.specs.Prelude.{◌≡◌, ◌<◌, ◌+◌, ◌++◌, length, IfOk};
ghost use Rattle.std.specs.List.{AllByRecursion};
ghost use Rattle.tstp_writer.specs.LineTrees.{layout_of, place_in, line_name, cited_name, negated_name, derived_name};
ghost use Rattle.tstp_writer.specs.Places.{IsCounted};
ghost use Rattle.tstp_writer.specs.Scripts.{script_in};

use crate::cited::{cited_places, conjecture_places};
use crate::page::Page;
use crate::places::Places;
use crate::script::Script;
use kernel_steps::Line;
use plain_types::{Mem, NoMemory, Numbers};
use std::alloc::Global;
use std::marker::Model;

/// The formulas that are cited, those of them that are negated, and the lines of the derivation, each by its numbers.
#[derive(Drop)]
pub(crate) struct Layout {
    cited: Places,
    negated: Places,
    numbers: Places,
}

impl Model for Layout {
    ghost use Rattle.tstp_writer.specs.LineTrees.{Layout};
    ghost use Rattle.tstp_writer.specs.Places.{IsCounted};

    ghost Value = { Layout };

    ghost view = { λ l. record { cited = l.cited; negated = l.negated; numbers = l.numbers } };

    ghost invariant = { λ l. IsCounted (record { cited = l.cited; negated = l.negated; numbers = l.numbers }) };
}

impl Layout {
    /// The lines of these. Over 2^64 lines are answered by out of memory.
    pub(crate) fn of(cited: Places, negated: Places, numbers: Places) -> Mem<Layout>
        ensures layout { IfOk result (λ layout. layout ≡ record { cited = cited; negated = negated; numbers = numbers }) }
        ensures counted { IfOk result (λ layout. IsCounted layout) }
    {
        let formulas = cited.len().checked_add(negated.len());
        match formulas.and_then(|count| count.checked_add(numbers.len())) {
            Some(_) => Ok(Layout {
                cited,
                negated,
                numbers,
            }),
            None => Err(NoMemory),
        }
    }

    /// The number of the line of a formula.
    pub(crate) fn cited_line(&self, place: u64) -> u64
        ensures { result ≡ place_in place self.now.cited }
    {
        self.cited.place(place)
    }

    /// The number of the line of a formula's negation.
    pub(crate) fn negated_line(&self, place: u64) -> u64
        ensures { result ≡ length self.now.cited + place_in place self.now.negated }
    {
        self.cited.len() + self.negated.place(place)
    }

    /// The number of the line that is written for a line of the derivation.
    pub(crate) fn derived_line(&self, number: u64) -> u64
        ensures { result ≡ length self.now.cited + length self.now.negated + place_in number self.now.numbers }
    {
        self.cited.len() + self.negated.len() + self.numbers.place(number)
    }

    /// The formulas that are cited, by their places.
    pub(crate) fn cited(&self) -> &[u64]
        ensures { result.now ≡ self.now.cited }
    {
        self.cited.as_slice()
    }

    /// Those of them that are negated.
    pub(crate) fn negated(&self) -> &[u64]
        ensures { result.now ≡ self.now.negated }
    {
        self.negated.as_slice()
    }

    /// The lines of the derivation, by their numbers.
    pub(crate) fn numbers(&self) -> &[u64]
        ensures { result.now ≡ self.now.numbers }
    {
        self.numbers.as_slice()
    }
}

/// The lines that are written for lines of a derivation, those with these numbers.
pub(crate) fn lay_out(
    alloc: Global,
    script: Script<'_>,
    lines: &[Line],
    numbers: Numbers,
) -> Mem<Layout>
    requires { AllByRecursion (λ n. n < length lines.now) numbers }
    ensures layout { IfOk result (λ layout. layout ≡ layout_of (script_in script.entry) lines.now numbers) }
    ensures counted { IfOk result (λ layout. IsCounted layout) }
{
    let formulas = script.formulas.len();
    let cited = cited_places(alloc, script, lines, numbers.as_slice())?;
    let negated = conjecture_places(alloc, script, cited.as_slice())?;
    let cited = Places::of(alloc, cited, formulas)?;
    let negated = Places::of(alloc, negated, formulas)?;
    let numbers = Places::of(alloc, numbers, lines.len())?;
    Layout::of(cited, negated, numbers)
}

/// Adds the name of a line.
pub(crate) fn push_line_name(page: &mut Page, number: u64) -> Mem<()>
    ensures { IfOk result (λ _. page.new ≡ page.old ++ line_name number) }
{
    page.bytes(b"c")?;
    page.number(number)
}

/// Adds the name of a formula's line.
pub(crate) fn push_cited_name(page: &mut Page, layout: &Layout, place: u64) -> Mem<()>
    ensures { IfOk result (λ _. page.new ≡ page.old ++ cited_name layout.now place) }
{
    push_line_name(page, layout.cited_line(place))
}

/// Adds the name of the line of a formula's negation.
pub(crate) fn push_negated_name(page: &mut Page, layout: &Layout, place: u64) -> Mem<()>
    ensures { IfOk result (λ _. page.new ≡ page.old ++ negated_name layout.now place) }
{
    push_line_name(page, layout.negated_line(place))
}

/// Adds the name of the line that is written for a line of the derivation.
pub(crate) fn push_derived_name(page: &mut Page, layout: &Layout, number: u64) -> Mem<()>
    ensures { IfOk result (λ _. page.new ≡ page.old ++ derived_name layout.now number) }
{
    push_line_name(page, layout.derived_line(number))
}
