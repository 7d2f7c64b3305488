// One reducing step.

ghost use Rattle.std.specs.Prelude.{◌≡◌, ◌≤◌, IfOk, OnErr, MatchBool, IsTrue};
ghost use Rattle.fol_base.specs.Canonical.{IsCanonical};
ghost use Rattle.fol_base.specs.Clause.{clause_size};
ghost use Rattle.fol_base.specs.Literal.{clause_of};
ghost use Rattle.fol_base.specs.Subsumption.{assertions};
ghost use Rattle.fol_base.specs.declared.limits.TheConstants.{MOST_SYMBOLS};
ghost use Rattle.kernel_steps.specs.Names.{are_sorted};
ghost use Rattle.rewriting.specs.NormalTerms.{RemembersNormal};
ghost use Rattle.rewriting.specs.Searching.{usable_by};
ghost use Rattle.rewriting.specs.Units.{AreClausesOf};
ghost use Rattle.demodulate.specs.UsableSteps.{IsDone, IsStep};

use crate::rewrite_once;
use kernel_steps::Reduced;
use plain_types::Mem;
use rewriting::{NormalTerms, Rewriters};
use std::alloc::Global;
use unit_cutting::{UnitIndex, drop_trivial, merge_equal};

/// One reducing step: the first that applies of dropping a literal `t != t`, merging equal literals, rewriting, and cutting. False exactly
/// where none applies, and then nothing has changed, as after an out-of-memory error.
pub(crate) fn step(
    alloc: Global,
    by: &Rewriters<'_>,
    units: &UnitIndex,
    reduced: &mut Reduced,
    normal: &mut NormalTerms,
) -> Mem<bool>
    requires equations { AreClausesOf by.now.bank.now by.now.units.now }
    requires units { AreClausesOf by.now.bank.now units.now }
    requires asserted { by.now.asserted.now ≡ assertions reduced.old.clause.names }
    requires canonical { IsCanonical (clause_of reduced.old.clause) }
    requires names { IsTrue (are_sorted reduced.old.clause.names) }
    requires size { clause_size (clause_of reduced.old.clause) ≤ MOST_SYMBOLS }
    requires remembers { RemembersNormal (usable_by by.now) normal.old }
    ensures ok { IfOk result (λ stepped. MatchBool stepped
        (IsStep by.now.units.now units.now by.now.left_out reduced.old reduced.new)
        (IsDone by.now.units.now units.now by.now.left_out reduced.old reduced.new)) }
    ensures err { OnErr result (reduced.new ≡ reduced.old) }
    ensures remembers { RemembersNormal (usable_by by.now) normal.new }
{
    if drop_trivial(alloc, reduced)? {
        return Ok(true);
    }
    if merge_equal(alloc, reduced)? {
        return Ok(true);
    }
    if rewrite_once(alloc, by, reduced, normal)? {
        return Ok(true);
    }
    units.cut_once(alloc, by.bank, by.left_out, reduced)
}
