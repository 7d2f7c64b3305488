// The lines that were taken, found by their names.

ghost use Rattle.std.specs.Prelude.{◌≡◌, ◌++◌, ◌∷◌, ◌+◌, [], IfOk, OnOk, IsFalse, bytes_eq, length, map, option_map, option_and_then, slice_get};
ghost use Rattle.std.specs.List.{list_any};
ghost use Rattle.fol_base.specs.Literal.{clause_of};
ghost use Rattle.kernel_steps.specs.Parents.{all_there};
ghost use Rattle.kernel_steps.specs.Derivation.{component_clause};
ghost use Rattle.clausal_form.specs.DerivationItems.{only_one};
ghost use Rattle.clausal_form.specs.DerivationLine.{NamedLine, nothing_taken, kernel_lines};
ghost use Rattle.clausal_form.specs.DerivationParts.{line_place};
ghost use Rattle.tstp_checker.specs.Taken.{taken_of, IsKept, IsNext, introduced_by, components_with};

use fol_base::Clause;
use kernel_steps::{Derivation, Line, Step};
use plain_types::{Mem, Numbers, Text};
use std::alloc::Global;
use tstp_lines::NameTable;

/// The lines that were taken, and the names that they introduced.
#[derive(Drop)]
pub(crate) struct TakenLines {
    /// The lines' own names.
    pub names: NameTable,
    pub lines: Derivation,
    /// The names that component lines introduced.
    pub introduced: NameTable,
    /// For each of them the place of its component line.
    pub components: Numbers,
}

impl TakenLines {
    /// No lines.
    pub(crate) fn new(alloc: Global) -> TakenLines
        ensures kept { IsKept result }
        ensures taken { taken_of result ≡ nothing_taken }
        ensures defined { length result.components ≡ length result.introduced }
    {
        TakenLines {
            names: NameTable::new(alloc),
            lines: Derivation::new(alloc),
            introduced: NameTable::new(alloc),
            components: Numbers::new(alloc),
        }
    }

    /// Whether a line has that name.
    pub(crate) fn has(&self, name: &[u8]) -> bool
        requires { IsKept self.now }
        ensures value { result ≡ list_any (λ (l : NamedLine). bytes_eq name.now l.name) (taken_of self.now).lines }
        ensures name { result ≡ list_any (bytes_eq name.now) self.now.names }
    {
        self.names.number(name).is_some()
    }

    /// The places of the lines with these names; none where there is no line with one of them.
    pub(crate) fn places(&self, alloc: Global, names: &[Text]) -> Mem<Option<Numbers>>
        requires { IsKept self.now }
        ensures { IfOk result (λ places. places ≡ all_there (map (line_place (taken_of self.now)) names.now)) }
    {
        let mut places = Numbers::new(alloc);
        for name in names {
            match self.place(name.as_slice()) {
                Some(place) => places.push(place)?,
                None => return Ok(None),
            }
        }
        Ok(Some(places))
    }

    /// The place of the line with that name.
    fn place(&self, name: &[u8]) -> Option<u64>
        requires { IsKept self.now }
        ensures { result ≡ line_place (taken_of self.now) name.now }
    {
        let number = self.names.number(name)?;
        Some(u64::from(number))
    }

    /// The step of the only parent, by the parents' places.
    pub(crate) fn only_step(&self, parents: &[u64]) -> Option<&Step>
        ensures { option_map (λ step. step.now) result ≡ option_and_then
            (λ n. option_map (λ (l : NamedLine). (l.line).step) (slice_get (taken_of self.now).lines n)) (only_one parents.now) }
    {
        let place = only_number(parents)?;
        let line = self.line(place)?;
        Some(&line.step)
    }

    /// The clause of the component line that introduced a name, by the name's number.
    pub(crate) fn component(&self, name: u32) -> Option<&Clause>
        requires { IsKept self.now }
        ensures { option_map (λ clause. clause_of clause.now) result ≡ component_clause name (kernel_lines (taken_of self.now)) }
    {
        let place = self.component_place(name)?;
        let line = self.line(place)?;
        Some(&line.clause)
    }

    /// The place of the component line of a name, by the table.
    fn component_place(&self, name: u32) -> Option<u64>
        ensures { result ≡ slice_get self.now.components name }
    {
        self.components.as_slice().get(name as usize).copied()
    }

    /// The line at a place.
    fn line(&self, place: u64) -> Option<&Line>
        ensures { option_map (λ line. line.now) result ≡ slice_get self.now.lines place }
    {
        self.lines.as_slice().get(place as usize)
    }

    /// Takes a line with a new name. A component line is of the name that was introduced last. After an out-of-memory error nothing is said of
    /// the lines.
    pub(crate) fn add(&mut self, alloc: Global, name: &[u8], line: Line) -> Mem<()>
        requires kept { IsKept self.old }
        requires new { IsFalse (list_any (bytes_eq name.now) self.old.names) }
        requires next { IsNext (length self.old.components) line.step }
        ensures kept { OnOk result (IsKept self.new) }
        ensures lines { OnOk result ((taken_of self.new).lines ≡ (taken_of self.old).lines ++ record { name = name.now; line = line } ∷ []) }
        ensures introduced { self.new.introduced ≡ self.old.introduced }
        ensures components { OnOk result (length self.new.components ≡ length self.old.components + introduced_by line.step) }
    {
        self.note_component(&line.step)?;
        self.names.add(alloc, name)?;
        self.lines.push(line)?;
        Ok(())
    }

    /// Notes the place of the line to come, if it is a component line.
    fn note_component(&mut self, step: &Step) -> Mem<()>
        ensures components { IfOk result (λ _. self.new.components
            ≡ components_with (length self.old.lines) self.old.components step.now) }
        ensures names { self.new.names ≡ self.old.names }
        ensures lines { self.new.lines ≡ self.old.lines }
        ensures introduced { self.new.introduced ≡ self.old.introduced }
    {
        if let Step::Component(_) = step {
            self.components.push(self.lines.len() as u64)?;
        }
        Ok(())
    }
}

/// The only one of numbers.
fn only_number(numbers: &[u64]) -> Option<u64>
    ensures { result ≡ only_one numbers.now }
{
    match numbers {
        [number] => Some(*number),
        _ => None,
    }
}
