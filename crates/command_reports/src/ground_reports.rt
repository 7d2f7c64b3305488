// The reports of `ground` on the text of a derivation. When each is due is said by the call that makes it.

ghost use Rattle.std.specs.Prelude.{◌≡◌, ◌++◌, map, IfOk};
ghost use Rattle.fol_base.specs.Literal.{literal_of};
ghost use Rattle.herbrand_list.specs.Refuted.{ground_clauses};
ghost use Rattle.tptp_tree.specs.Printing.{formula_text};
ghost use Rattle.tstp_writer.specs.ClauseTrees.{literal_formula, one_of};
ghost use Rattle.command_reports.specs.GroundReports.{instance_text, instances_text, count_line, listed_report, names_report, large_report};

use crate::report::Report;
use crate::status::{LISTED, UNLISTED};
use fol_base::{Clause, Clauses, Literals};
use plain_types::Mem;
use signature::Symbol;
use std::alloc::Global;
use tstp_writer::{Page, push_clause};

/// What the names after a clause's literals would begin with. Instances have no names.
const NAME_PREFIX: &[u8] = b"spl";

impl Report {
    /// The ground list of a derivation.
    pub fn listed(alloc: Global, symbols: &[Symbol], list: &Clauses) -> Mem<Report>
        ensures { IfOk result (λ report. (report.status ≡ 13) × (report.text ≡ listed_report symbols.now (ground_clauses list.now))) }
    {
        let mut page = Page::new(alloc);
        push_count(&mut page, list.len() as u64)?;
        push_instances(&mut page, symbols, list.as_slice())?;
        Ok(Report::of(LISTED, page))
    }

    /// The line of a derivation that speaks of names.
    pub fn names_met(alloc: Global, line: u64) -> Mem<Report>
        ensures { IfOk result (λ report. (report.status ≡ 14) × (report.text ≡ names_report line)) }
    {
        let mut page = Page::new(alloc);
        push_names(&mut page, line)?;
        Ok(Report::of(UNLISTED, page))
    }

    /// The ground list is too large.
    pub fn large(alloc: Global) -> Mem<Report>
        ensures { IfOk result (λ report. (report.status ≡ 14) × (report.text ≡ large_report)) }
    {
        let mut page = Page::new(alloc);
        page.bytes(b"% refused: Large\n")?;
        Ok(Report::of(UNLISTED, page))
    }
}

/// Adds how many instances there are.
fn push_count(page: &mut Page, count: u64) -> Mem<()>
    ensures { IfOk result (λ _. page.new ≡ page.old ++ count_line count) }
{
    page.bytes(b"% ground instances ")?;
    page.number(count)?;
    page.bytes(b"\n")
}

/// Adds the first line that speaks of names.
fn push_names(page: &mut Page, line: u64) -> Mem<()>
    ensures { IfOk result (λ _. page.new ≡ page.old ++ names_report line) }
{
    page.bytes(b"% refused at line ")?;
    page.number(line)?;
    page.bytes(b": Names\n")
}

/// Adds a line for each instance.
fn push_instances(page: &mut Page, symbols: &[Symbol], list: &[Clause]) -> Mem<()>
    ensures { IfOk result (λ _. page.new ≡ page.old ++ instances_text symbols.now (ground_clauses list.now)) }
{
    for (place, instance) in list.iter().enumerate() {
        push_instance(page, symbols, place as u64, instance)?;
    }
    Ok(())
}

/// Adds the line of an instance, by its place in the list.
fn push_instance(page: &mut Page, symbols: &[Symbol], place: u64, instance: &Clause) -> Mem<()>
    ensures { IfOk result (λ _. page.new ≡ page.old ++ instance_text symbols.now (place, map literal_of instance.now.literals)) }
{
    page.bytes(b"cnf(g")?;
    page.number(place)?;
    page.bytes(b",axiom,")?;
    push_literals(page, symbols, &instance.literals)?;
    page.bytes(b").\n")
}

/// Adds literals as a clause.
fn push_literals(page: &mut Page, symbols: &[Symbol], literals: &Literals) -> Mem<()>
    ensures { IfOk result (λ _. page.new ≡ page.old ++ formula_text (one_of (map (literal_formula symbols.now) (map literal_of literals.now)))) }
{
    push_clause(page, symbols, NAME_PREFIX, literals, &[])
}
