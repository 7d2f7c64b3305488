// One rewriting step of a clause that is being reduced.

ghost use Rattle.std.specs.Prelude.{◌≡◌, ◌≤◌, IfOk, OnErr, MatchBool, IsTrue};
ghost use Rattle.fol_base.specs.Clause.{clause_size};
ghost use Rattle.fol_base.specs.Canonical.{IsCanonical};
ghost use Rattle.fol_base.specs.Literal.{clause_of};
ghost use Rattle.fol_base.specs.Subsumption.{assertions};
ghost use Rattle.fol_base.specs.declared.limits.TheConstants.{MOST_SYMBOLS};
ghost use Rattle.kernel_steps.specs.Names.{are_sorted};
ghost use Rattle.rewriting.specs.NormalTerms.{RemembersNormal};
ghost use Rattle.rewriting.specs.Searching.{usable_by};
ghost use Rattle.rewriting.specs.Units.{AreClausesOf};
ghost use Rattle.demodulate.specs.Normal.{IsLeft, IsNext, IsRewritten, kept};

use crate::line::rewriting_line;
use fol_base::Clause;
use kernel_steps::{Line, Reduced};
use plain_types::Mem;
use reduced_clause::{extend, last_number};
use rewriting::{NormalTerms, Rewriters};
use std::alloc::Global;

/// A line that goes on from a clause, and the unit that it uses.
#[derive(Drop)]
pub(crate) struct NextLine {
    pub(crate) unit: u32,
    pub(crate) line: Line,
}

/// One rewriting step: the result so far is rewritten by a unit, its line is added, and the unit is noted. False exactly where no unit of
/// the set, but for the one that is left out, rewrites it; then, and after an out-of-memory error, nothing of it is changed.
pub fn rewrite_once(
    alloc: Global,
    by: &Rewriters<'_>,
    reduced: &mut Reduced,
    normal: &mut NormalTerms,
) -> Mem<bool>
    requires units { AreClausesOf by.now.bank.now by.now.units.now }
    requires asserted { by.now.asserted.now ≡ assertions reduced.old.clause.names }
    requires canonical { IsCanonical (clause_of reduced.old.clause) }
    requires names { IsTrue (are_sorted reduced.old.clause.names) }
    requires size { clause_size (clause_of reduced.old.clause) ≤ MOST_SYMBOLS }
    requires remembers { RemembersNormal (usable_by by.now) normal.old }
    ensures ok { IfOk result (λ stepped. MatchBool stepped
        (IsRewritten (kept by.now.units.now by.now.left_out) reduced.old reduced.new)
        (IsLeft (kept by.now.units.now by.now.left_out) reduced.old reduced.new)) }
    ensures err { OnErr result (reduced.new ≡ reduced.old) }
    ensures remembers { RemembersNormal (usable_by by.now) normal.new }
{
    let parent = last_number(reduced)?;
    match next_line(alloc, by, &reduced.clause, parent, normal)? {
        None => Ok(false),
        Some(next) => {
            extend(alloc, reduced, None, next.line, Some(next.unit))?;
            Ok(true)
        }
    }
}

/// The line of a rewrite of a clause, which has the number `parent`. None exactly where the clause has no redex.
fn next_line(
    alloc: Global,
    by: &Rewriters<'_>,
    clause: &Clause,
    parent: u64,
    normal: &mut NormalTerms,
) -> Mem<Option<NextLine>>
    requires units { AreClausesOf by.now.bank.now by.now.units.now }
    requires size { clause_size (clause_of clause.now) ≤ MOST_SYMBOLS }
    requires remembers { RemembersNormal (usable_by by.now) normal.old }
    ensures next { IfOk result (IsNext (usable_by by.now) (clause_of clause.now) parent) }
    ensures remembers { RemembersNormal (usable_by by.now) normal.new }
{
    match by.find(alloc, &clause.literals, normal)? {
        None => Ok(None),
        Some(found) => match by.units.clause(found.rewrite.number) {
            None => unreachable!(),
            Some(unit) => {
                let _canonical = unit.literals();
                let line = rewriting_line(alloc, by.bank, unit, clause, parent, &found)?;
                Ok(Some(NextLine {
                    unit: found.rewrite.number as u32,
                    line,
                }))
            }
        },
    }
}
