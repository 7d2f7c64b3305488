// Normal forms: a clause rewritten until no unit rewrites it.

ghost use Rattle.std.specs.Prelude.{◌≡◌, ◌≤◌, IfOk, IsTrue};
ghost use Rattle.fol_base.specs.Clause.{clause_size};
ghost use Rattle.fol_base.specs.Canonical.{IsCanonical};
ghost use Rattle.fol_base.specs.Literal.{clause_of};
ghost use Rattle.fol_base.specs.declared.limits.TheConstants.{MOST_SYMBOLS};
ghost use Rattle.kernel_steps.specs.Names.{are_sorted};
ghost use Rattle.rewriting.specs.Units.{AreClausesOf};
ghost use Rattle.demodulate.specs.Normal.{IsNormalForm, kept};

use crate::step::rewrite_once;
use fol_base::{Clause, asserted_numbers};
use kernel_steps::Reduced;
use plain_types::Mem;
use reduced_clause::laws::moves_extend_reductions;
use reduced_clause::unreduced_copy;
use rewriting::{NormalTerms, Rewriters, Units};
use std::alloc::Global;
use term_bank::Bank;

/// The normal form of a clause, with the lines that lead to it and the units that they use. No unit of the set rewrites it, but for the
/// one that is left out, as that of the clause itself.
pub fn normal_form(
    alloc: Global,
    bank: &Bank,
    clause: &Clause,
    units: &Units,
    left_out: Option<u32>,
) -> Mem<Reduced>
    requires units { AreClausesOf bank.now units.now }
    requires canonical { IsCanonical (clause_of clause.now) }
    requires names { IsTrue (are_sorted clause.now.names) }
    requires size { clause_size (clause_of clause.now) ≤ MOST_SYMBOLS }
    ensures { IfOk result (IsNormalForm (kept units.now left_out) (clause_of clause.now)) }
{
    let asserted = asserted_numbers(alloc, clause.names.as_slice())?;
    let by = Rewriters {
        units,
        bank,
        asserted: asserted.as_slice(),
        left_out,
    };
    moves_extend_reductions();
    let mut normal = NormalTerms::new(alloc);
    let mut made = unreduced_copy(alloc, clause)?;
    'steps: loop {
        let stepped = rewrite_once(alloc, &by, &mut made, &mut normal)?;
        if !stepped {
            return Ok(made);
        }
    }
}
