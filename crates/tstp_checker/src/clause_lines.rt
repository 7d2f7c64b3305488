// Lines of clauses that come from the form or introduce a name.

ghost use Rattle.std.specs.Prelude.{◌≡◌, ◌+◌, ℕ, List, ◌∷◌, [], ◌&&◌, ◌||◌, ◌==◌, not, map, false, length, option_map, IfOk, OnErr, if◌then◌else◌};
ghost use Rattle.plain_types.specs.Names.{negative_of};
ghost use Rattle.fol_base.specs.Clause.{clause_eq, names_eq};
ghost use Rattle.fol_base.specs.Ground.{is_ground_literal};
ghost use Rattle.fol_base.specs.Literal.{literal_of, clause_of};
ghost use Rattle.tptp_tree.specs.Shape.{formula_of};
ghost use Rattle.tptp_source.specs.General.{GeneralTree};
ghost use Rattle.tptp_source.specs.Sources.{component_source};
ghost use Rattle.tptp_source.specs.Shape.{tree_of as general_of};
ghost use Rattle.tptp_source.specs.SourceShape.{source_of};
ghost use Rattle.tptp_source.specs.declared.source.Source.{Source};
ghost use Rattle.signature.specs.Symbol.{predicate_symbol, has_symbol};
ghost use Rattle.kernel_steps.specs.Derivation.{is_component};
ghost use Rattle.kernel_steps.specs.declared.step.Step.TheVariants.{Component};
ghost use Rattle.clausal_form.specs.DerivationClause.{is_written_clause};
ghost use Rattle.clausal_form.specs.DerivationSteps.{component_kind, kind_of};
ghost use Rattle.clausal_form.specs.DerivationLine.{LineTree, Taken, names_with};
ghost use Rattle.kernel_steps.specs.FromTrees.{line_of};
ghost use Rattle.clausal_form.specs.DerivationParts.{line_kind};
ghost use Rattle.clausal_form.specs.DerivationCauses.{new_symbol, fits, is_line_of, is_conjecture_at, given_by_clausify, given_by_opposite, given_by, is_formula_kind, refused, taken, compared, line_verdict};
ghost use Rattle.tstp_lines.specs.Steps.{kind_meant};
ghost use Rattle.tstp_checker.specs.Taken.{IsKept};
ghost use Rattle.tstp_checker.specs.Classes.{AreClasses};
ghost use Rattle.tstp_checker.specs.ClauseLines.{is_component_kind, comes_from, is_form_clause, atom_named, opposite_clause};
ghost use Rattle.tstp_checker.specs.Verdicts.{IsVerdict, IfAnswered, IsClauseLine, IsComponentLine};
ghost use Rattle.tstp_checker.specs.Lines.{line_meant, setting_in, taken_in, IsReady};

use crate::cause::Cause;
use crate::lines::Lines;
use crate::refusal::Refusal;
use fol_base::{Clause, Literal, same_clause};
use kernel_steps::{Line, Step, is_complement};
use plain_types::NameLit;
use signature::{SymbolKind, SymbolRef};
use std::alloc::Global;
use tptp_source::{GeneralTerm, Source};
use tptp_tree::Annotated;
use tstp_lines::{Kind, LineParts, bound_items, clause_number, is_written_clause, items_of};

impl<'a> Lines<'a> {
    /// The verdict on a line of a clause that introduces no name.
    pub(crate) fn clause_verdict(
        &mut self,
        alloc: Global,
        kind: Kind<'_>,
        entry: &Annotated,
        source: &Source,
    ) -> Result<Line, Refusal>
        requires ready { IsReady self.old }
        requires kind { kind_meant kind ≡ kind_of (source_of source.now) }
        requires no_formula { is_formula_kind (kind_meant kind) ≡ false }
        requires no_name { is_component_kind (kind_meant kind) ≡ false }
        ensures verdict { IsVerdict (line_verdict (setting_in self.old) (taken_in self.old) (line_meant entry.now source.now)) result }
        ensures step { IfOk result (λ line. is_component line.step ≡ false) }
        ensures numbers { IfAnswered result (self.new.numbers ≡ self.old.numbers) }
        ensures taken { self.new.taken ≡ self.old.taken }
        ensures inputs { self.new.inputs ≡ self.old.inputs }
        ensures classes { self.new.classes ≡ self.old.classes }
        ensures form { self.new.form ≡ self.old.form }
    {
        if !self.is_written(entry) {
            return Err(Refusal::Cause(Cause::Text));
        }
        let parents = self.parents(alloc, entry, source)?;
        let parts = self.numbers.parts(
            alloc,
            &self.taken.introduced,
            &entry.formula,
            bound_items(kind, source),
        )?;
        self.clause_line(alloc, kind, items_of(source), parents.as_slice(), parts)
    }

    /// Whether a line is written as a clause is.
    fn is_written(&self, entry: &Annotated) -> bool
        ensures { result ≡ (entry.now.clause && is_written_clause self.now.taken.introduced (formula_of entry.now.formula)) }
    {
        entry.clause && is_written_clause(&self.taken.introduced, &entry.formula)
    }

    /// A line of a clause that introduces no name, by its kind.
    fn clause_line(
        &self,
        alloc: Global,
        kind: Kind<'_>,
        items: &[GeneralTerm],
        parents: &[u64],
        parts: LineParts,
    ) -> Result<Line, Refusal>
        requires kept { IsKept self.now.taken }
        requires classes { AreClasses self.now.inputs.formulas.now self.now.classes }
        requires no_formula { is_formula_kind (kind_meant kind) ≡ false }
        requires no_name { is_component_kind (kind_meant kind) ≡ false }
        ensures verdict { (t : LineTree) → line_kind t ≡ kind_meant kind.entry
            → IsClauseLine (setting_in self.now) (taken_in self.now) t (map general_of items.now) parents.now parts
            → IsVerdict (compared (setting_in self.now) (taken_in self.now) t
            (given_by (setting_in self.now) (taken_in self.now) t (kind_meant kind.entry))) result }
        ensures step { IfOk result (λ line. is_component line.step ≡ false) }
    {
        match kind {
            Kind::Clausify => self.clausify_line(alloc, items, parents, parts),
            Kind::Opposite(name) => self.opposite_line(name, parts),
            _ => self.rule_line(alloc, kind, items, parents, parts),
        }
    }

    /// A clause of the form.
    fn clausify_line(
        &self,
        alloc: Global,
        items: &[GeneralTerm],
        parents: &[u64],
        parts: LineParts,
    ) -> Result<Line, Refusal>
        requires classes { AreClasses self.now.inputs.formulas.now self.now.classes }
        ensures verdict { (t : LineTree)
            → IsClauseLine (setting_in self.now) (taken_in self.now) t (map general_of items.now) parents.now parts
            → IsVerdict (compared (setting_in self.now) (taken_in self.now) t
            (given_by_clausify (setting_in self.now) (taken_in self.now) t)) result }
        ensures step { IfOk result (λ line. is_component line.step ≡ false) }
    {
        let read = clause_number(alloc, items)?;
        let Some(number) = read else {
            return Err(Refusal::Cause(Cause::Clausify));
        };
        if !self.is_clausified(number, parents, &parts.clause) {
            return Err(Refusal::Cause(Cause::Clausify));
        }
        line_by(Step::Clausify(number), parts.clause, parts.has_new_symbol)
    }

    /// Whether the clause of the form with a number is this one and comes from the formula of the only parent.
    fn is_clausified(&self, number: u64, parents: &[u64], clause: &Clause) -> bool
        requires { AreClasses self.now.inputs.formulas.now self.now.classes }
        ensures { result ≡ (comes_from (setting_in self.now) (taken_in self.now) parents.now number
            && is_form_clause (setting_in self.now) (clause_of clause.now) number) }
    {
        self.comes_from(number, parents) && self.is_clause_of_form(number, clause)
    }

    /// Whether the only parent is the line of the formula that a clause of the form comes from.
    fn comes_from(&self, number: u64, parents: &[u64]) -> bool
        requires { AreClasses self.now.inputs.formulas.now self.now.classes }
        ensures { result ≡ comes_from (setting_in self.now) (taken_in self.now) parents.now number }
    {
        let Some(origin) = self.form.origins.as_slice().get(number as usize) else {
            return false;
        };
        match self.taken.only_step(parents) {
            Some(step) => self.is_line_of(*origin, step),
            None => false,
        }
    }

    /// Whether a step is that of a line of the formula at a place: an input line, or for the conjecture a negate line.
    fn is_line_of(&self, origin: u64, step: &Step) -> bool
        requires { AreClasses self.now.inputs.formulas.now self.now.classes }
        ensures { result ≡ is_line_of (setting_in self.now) origin step.now }
    {
        match step {
            Step::Input(place) => self.fits(*place, origin) && !self.is_conjecture_at(*place),
            Step::Negate(place) => self.fits(*place, origin) && self.is_conjecture_at(*place),
            _ => false,
        }
    }

    /// Whether the formulas at two places are equal.
    fn fits(&self, place: u32, origin: u64) -> bool
        requires { AreClasses self.now.inputs.formulas.now self.now.classes }
        ensures { result ≡ fits (setting_in self.now) place origin }
    {
        self.classes.same(place, origin)
    }

    /// Whether the formula at a place is the conjecture.
    fn is_conjecture_at(&self, place: u32) -> bool
        ensures { result ≡ is_conjecture_at (setting_in self.now) place }
    {
        match self.inputs.formulas.get(place as usize) {
            Some(entry) => entry.role.is_conjecture(),
            None => false,
        }
    }

    /// Whether the clause of the form with a number is this one.
    fn is_clause_of_form(&self, number: u64, clause: &Clause) -> bool
        ensures { result ≡ is_form_clause (setting_in self.now) (clause_of clause.now) number }
    {
        match self.form.clauses.as_slice().get(number as usize) {
            Some(found) => same_clause(found, clause),
            None => false,
        }
    }

    /// The other half of the definition of a name that stands for one ground positive literal.
    fn opposite_line(&self, name: &[u8], parts: LineParts) -> Result<Line, Refusal>
        requires kept { IsKept self.now.taken }
        ensures verdict { (t : LineTree) (items : List GeneralTree) (parents : List ℕ)
            → IsClauseLine (setting_in self.now) (taken_in self.now) t items parents parts
            → IsVerdict (compared (setting_in self.now) (taken_in self.now) t (given_by_opposite (taken_in self.now) name.now)) result }
        ensures step { IfOk result (λ line. is_component line.step ≡ false) }
    {
        let Some(number) = self.taken.introduced.number(name) else {
            return Err(Refusal::Cause(Cause::Rule));
        };
        let Some(literal) = self.atom_named(number) else {
            return Err(Refusal::Cause(Cause::Rule));
        };
        if !is_opposite(number, literal, &parts.clause) {
            return Err(Refusal::Cause(Cause::Conclusion));
        }
        line_by(Step::Opposite(number), parts.clause, parts.has_new_symbol)
    }

    /// The ground positive literal that a name was introduced for, where it was for one alone.
    fn atom_named(&self, number: u32) -> Option<&Literal>
        requires { IsKept self.now.taken }
        ensures { option_map (λ literal. literal_of literal.now) result ≡ atom_named (taken_in self.now) number }
    {
        let clause = self.taken.component(number)?;
        let [literal] = clause.literals.as_slice() else {
            return None;
        };
        if !is_ground_atom(literal) {
            return None;
        }
        Some(literal)
    }

    /// The verdict on a line that introduces a name. The name is added to the table for the time of the reading, and stays there if the
    /// line is taken.
    pub(crate) fn component_verdict(
        &mut self,
        alloc: Global,
        entry: &Annotated,
        name: &[u8],
    ) -> Result<Line, Refusal>
        requires ready { IsReady self.old }
        ensures verdict { (source : Source) → source_of source ≡ component_source name.now
            → IsVerdict (line_verdict (setting_in self.old) (taken_in self.old) (line_meant entry.now source)) result }
        ensures numbers { IfAnswered result (self.new.numbers ≡ self.old.numbers) }
        ensures introduced { IfOk result (λ _. self.new.taken.introduced ≡ names_with self.old.taken.introduced (component_kind name.now)) }
        ensures unchanged { OnErr result (IfAnswered result (self.new.taken.introduced ≡ self.old.taken.introduced)) }
        ensures next { IfOk result (λ line. line.step ≡ Component (length self.old.taken.introduced)) }
        ensures count { IfOk result (λ line. length self.new.taken.introduced ≡ length self.old.taken.introduced + 1) }
        ensures names { self.new.taken.names ≡ self.old.taken.names }
        ensures lines { self.new.taken.lines ≡ self.old.taken.lines }
        ensures components { self.new.taken.components ≡ self.old.taken.components }
        ensures inputs { self.new.inputs ≡ self.old.inputs }
        ensures classes { self.new.classes ≡ self.old.classes }
        ensures form { self.new.form ≡ self.old.form }
    {
        let is_new = self.taken.introduced.number(name).is_none();
        let number = self.taken.introduced.meet(alloc, name)?;
        let is_old = self.is_old(is_new, name);
        match self.component_line(alloc, entry, number, is_old) {
            Ok(line) => Ok(line),
            Err(refusal) => {
                if is_new {
                    self.taken.introduced.remove_last();
                }
                Err(refusal)
            }
        }
    }

    /// Whether a name can't be introduced: it isn't new, or the form has a predicate of that name without arguments.
    fn is_old(&self, is_new: bool, name: &[u8]) -> bool
        ensures { result ≡ (not is_new || has_symbol (predicate_symbol name.now 0) self.now.form.now.signature) }
    {
        !is_new || self.has_predicate(name)
    }

    /// Whether the form has a predicate of that name without arguments.
    fn has_predicate(&self, name: &[u8]) -> bool
        ensures { result ≡ has_symbol (predicate_symbol name.now 0) self.now.form.now.signature }
    {
        let symbol = SymbolRef {
            kind: SymbolKind::Predicate,
            name,
            arity: 0,
        };
        self.form.signature.find(symbol).is_some()
    }

    /// The line that introduces the name with a number, which is in the table.
    fn component_line(
        &mut self,
        alloc: Global,
        entry: &Annotated,
        number: u32,
        is_old: bool,
    ) -> Result<Line, Refusal>
        requires named { IsKept self.old.taken }
        requires symbols { self.old.numbers.symbols ≡ self.old.form.now.signature }
        requires variables { self.old.numbers.variables ≡ [] }
        ensures verdict { (e : Taken) (source : Source)
            → IsComponentLine (setting_in self.old) e (taken_in self.old) (line_meant entry.now source) number is_old
            → IsVerdict (line_verdict (setting_in self.old) e (line_meant entry.now source)) result }
        ensures step { IfOk result (λ line. (line.step ≡ Component number) × (is_old ≡ false)) }
        ensures numbers { IfAnswered result (self.new.numbers ≡ self.old.numbers) }
        ensures taken { self.new.taken ≡ self.old.taken }
        ensures inputs { self.new.inputs ≡ self.old.inputs }
        ensures classes { self.new.classes ≡ self.old.classes }
        ensures form { self.new.form ≡ self.old.form }
    {
        if !self.is_written(entry) {
            return Err(Refusal::Cause(Cause::Text));
        }
        if self.taken.has(entry.name.as_slice()) {
            return Err(Refusal::Cause(Cause::Order));
        }
        let parts = self
            .numbers
            .parts(alloc, &self.taken.introduced, &entry.formula, &[])?;
        if !is_component(number, &parts.clause) {
            return Err(Refusal::Cause(Cause::Rule));
        }
        line_by(
            Step::Component(number),
            parts.clause,
            parts.has_new_symbol || is_old,
        )
    }
}

/// The line of a clause, unless it has a symbol or a name that it may not have.
pub(crate) fn line_by(step: Step, clause: Clause, has_new_symbol: bool) -> Result<Line, Refusal>
    ensures verdict { IsVerdict (if has_new_symbol then refused new_symbol else taken (line_of step (clause_of clause))) result }
    ensures line { IfOk result (λ line. (line.step ≡ step) × (has_new_symbol ≡ false)) }
{
    if has_new_symbol {
        return Err(Refusal::Cause(Cause::NewSymbol));
    }
    Ok(Line { step, clause })
}

/// Whether a literal is positive and without variables.
fn is_ground_atom(literal: &Literal) -> bool
    ensures { result ≡ ((literal_of literal.now).positive && is_ground_literal (literal_of literal.now)) }
{
    literal.positive && literal.variable_bound() == 0
}

/// Whether a clause has at least one literal, and the one name with that number, negated.
fn is_component(number: u32, clause: &Clause) -> bool
    ensures { result ≡ (not (length (clause_of clause.now).literals == 0) && names_eq (clause_of clause.now).names (negative_of number ∷ [])) }
{
    !clause.literals.is_empty() && is_one_name(clause.names.as_slice(), false, number)
}

/// Whether names are one name alone, with that sign and number.
fn is_one_name(names: &[NameLit], positive: bool, number: u32) -> bool
    ensures { result ≡ names_eq names.now (record { positive = positive; name = number } ∷ []) }
{
    match names {
        [name] => name.positive == positive && name.name == number,
        _ => false,
    }
}

/// Whether a clause is the complement of a positive literal with the name with that number, positive.
fn is_opposite(number: u32, literal: &Literal, clause: &Clause) -> bool
    ensures { result ≡ clause_eq (opposite_clause number (literal_of literal.now)) (clause_of clause.now) }
{
    is_complement(literal, clause.literals.as_slice())
        && is_one_name(clause.names.as_slice(), true, number)
}
