// A clause reduced until no reducing step applies.

ghost use Rattle.std.specs.Prelude.{◌≡◌, ◌≤◌, IfOk, IsTrue};
ghost use Rattle.fol_base.specs.Canonical.{IsCanonical};
ghost use Rattle.fol_base.specs.Clause.{clause_size};
ghost use Rattle.fol_base.specs.Literal.{clause_of};
ghost use Rattle.fol_base.specs.declared.limits.TheConstants.{MOST_SYMBOLS};
ghost use Rattle.kernel_steps.specs.Names.{are_sorted};
ghost use Rattle.rewriting.specs.Units.{AreClausesOf};
ghost use Rattle.demodulate.specs.Memory.{Remembers};
ghost use Rattle.demodulate.specs.Reducing.{IsFurther, IsReduction};

use crate::laws::rewriting_ends;
use crate::memory::Memory;
use crate::simplifiers::Simplifiers;
use crate::stepping::step;
use fol_base::asserted_numbers;
use kernel_steps::Reduced;
use plain_types::Mem;
use reduced_clause::laws::moves_extend_reductions;
use rewriting::Rewriters;
use std::alloc::Global;
use unit_cutting::is_tautology;

/// How reducing ended.
#[derive(Clone, Copy)]
pub enum Reduction {
    /// A step led to a tautology.
    Tautology,
    /// No step applies, and none led to a tautology.
    Irreducible,
}

/// Reduces a clause until no reducing step applies, or one leads to a tautology: literals `t != t` go, equal literals are merged, and units
/// rewrite and cut, but for the one that is left out. After an out-of-memory error the clause is reduced by fewer steps.
pub fn reduce(
    alloc: Global,
    by: &Simplifiers<'_>,
    reduced: &mut Reduced,
    memory: &mut Memory,
) -> Mem<Reduction>
    requires equations { AreClausesOf by.now.bank.now by.now.equations.now }
    requires units { AreClausesOf by.now.bank.now by.now.units.now }
    requires canonical { IsCanonical (clause_of reduced.old.clause) }
    requires names { IsTrue (are_sorted reduced.old.clause.names) }
    requires size { clause_size (clause_of reduced.old.clause) ≤ MOST_SYMBOLS }
    requires memory { Remembers by.now.equations.now by.now.left_out memory.old }
    ensures further { IsFurther by.now.equations.now by.now.units.now by.now.left_out reduced.old reduced.new }
    ensures ok { IfOk result (IsReduction by.now.equations.now by.now.units.now by.now.left_out reduced.old reduced.new) }
    ensures memory { Remembers by.now.equations.now by.now.left_out memory.new }
{
    let asserted = asserted_numbers(alloc, reduced.clause.names.as_slice())?;
    let rewriters = Rewriters {
        units: by.equations,
        bank: by.bank,
        asserted: asserted.as_slice(),
        left_out: by.left_out,
    };
    memory.begin(rewriters.asserted)?;
    moves_extend_reductions();
    rewriting_ends();
    'steps: loop {
        let stepped = step(alloc, &rewriters, by.units, reduced, &mut memory.normal)?;
        if !stepped {
            return Ok(Reduction::Irreducible);
        }
        if is_tautology(&reduced.clause) {
            return Ok(Reduction::Tautology);
        }
    }
}
