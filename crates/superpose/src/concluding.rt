// The steps of superpositions, and their conclusions.

ghost use Rattle.std.specs.Prelude.{◌≡◌, ◌<◌, ◌++◌, true, length, IfOk};
ghost use Rattle.std.specs.Option.{is_some};
ghost use Rattle.fol_base.specs.Instance.{substitution};
ghost use Rattle.fol_base.specs.Clause.{clause_variables};
ghost use Rattle.fol_base.specs.Canonical.{bound_of};
ghost use Rattle.fol_base.specs.Ground.{literals_instance};
ghost use Rattle.kernel_steps.specs.Names.{sorted_names};
ghost use Rattle.kernel_steps.specs.declared.step.Step.TheVariants.{Para};
ghost use Rattle.bank_clause.specs.Clause.{clause_at, IsMemberOf};
ghost use Rattle.superpose.specs.Superposing.{EntersAt};
ghost use Rattle.superpose.specs.Concluding.{IsSuperpositionStep, superposed_at};

use crate::numbering::number_superposed;
use crate::sites::LiteralPlace;
use bank_clause::{BankClause, Member};
use eq_rules::{LiteralSide, Made, Renumbering, renamed_terms};
use fol_base::{Clause, Terms};
use kernel_steps::{Bound, Step, para, sorted_names};
use plain_types::{Mem, NameLit, Names};
use std::alloc::Global;
use term_bank::Bank;

/// The step of the superposition from a side into a place under terms that make the two equal, and its conclusion. The variables get
/// their numbers first, in a walk that builds nothing, so the conclusion is built once.
pub fn conclude_superposition(
    alloc: Global,
    bank: &Bank,
    first: &Member,
    from: LiteralSide,
    first_terms: &Terms,
    second: &Member,
    into: &LiteralPlace,
    second_terms: &Terms,
) -> Mem<Made>
    requires first_member { IsMemberOf bank.now first.now }
    requires second_member { IsMemberOf bank.now second.now }
    requires from_inside { from.literal < length (clause_at first.now.clause).literals }
    requires enters { EntersAt (clause_at second.now.clause).literals into.now }
    requires first_covers { length first_terms.now ≡ bound_of (clause_variables (clause_at first.now.clause)) }
    requires second_covers { length second_terms.now ≡ bound_of (clause_variables (clause_at second.now.clause)) }
    requires applies { is_some (superposed_at from into.now
        (literals_instance (substitution first_terms.now) (clause_at first.now.clause).literals)
        (literals_instance (substitution second_terms.now) (clause_at second.now.clause).literals)) ≡ true }
    ensures { IfOk result (IsSuperpositionStep first.now.number (clause_at first.now.clause) from
        second.now.number (clause_at second.now.clause) into.now first_terms.now second_terms.now) }
{
    let first_literals = first.clause.lend(bank);
    let second_literals = second.clause.lend(bank);
    let mut numbers = Renumbering::new(alloc);
    number_superposed(
        &mut numbers,
        &first_literals,
        first_terms,
        from,
        &second_literals,
        second_terms,
        into,
    )?;
    let first_bind = renamed_terms(alloc, &mut numbers, first_terms)?;
    let second_bind = renamed_terms(alloc, &mut numbers, second_terms)?;
    let first_bound = Bound {
        literals: &first_literals,
        bind: &first_bind,
    };
    let second_bound = Bound {
        literals: &second_literals,
        bind: &second_bind,
    };
    let literal = from.literal as u64;
    let target = into.at.literal as u64;
    match para(
        alloc,
        &first_bound,
        literal,
        from.side,
        &second_bound,
        target,
        into.at.side,
        &into.place,
    )? {
        None => unreachable!(),
        Some(literals) => {
            let names = names_of(alloc, &first.clause, &second.clause)?;
            let step = para_step(alloc, first, from, second, into, first_bind, second_bind)?;
            Ok(Made::Conclusion(step, Clause { literals, names }))
        }
    }
}

/// The step of the superposition that puts in these terms.
fn para_step(
    alloc: Global,
    first: &Member,
    from: LiteralSide,
    second: &Member,
    into: &LiteralPlace,
    first_bind: Terms,
    second_bind: Terms,
) -> Mem<Step>
    ensures { IfOk result (λ step. step ≡ Para first.now.number second.now.number
        from.literal from.side into.now.at.literal into.now.at.side into.now.place first_bind second_bind) }
{
    Ok(Step::Para {
        first: u64::from(first.number),
        second: u64::from(second.number),
        from: from.literal as u64,
        from_side: from.side,
        into: into.at.literal as u64,
        into_side: into.at.side,
        place: into.place.copy(alloc)?,
        first_bind,
        second_bind,
    })
}

/// The names of a conclusion from two premises.
fn names_of(alloc: Global, first: &BankClause, second: &BankClause) -> Mem<Names>
    ensures { IfOk result (λ names. names
        ≡ sorted_names ((clause_at first.now).names ++ (clause_at second.now).names)) }
{
    let mut asserted = Vec::new(alloc);
    push_asserted(&mut asserted, first)?;
    push_asserted(&mut asserted, second)?;
    Ok(Names::from_vec(sorted_names(alloc, asserted.as_slice())?))
}

/// Adds the names that a clause asserts.
fn push_asserted(asserted: &mut Vec<NameLit>, clause: &BankClause) -> Mem<()>
    ensures { IfOk result (λ _. asserted.new.items ≡ asserted.old.items ++ (clause_at clause.now).names) }
{
    for name in clause.names() {
        asserted.push(NameLit {
            positive: false,
            name: *name,
        })?;
    }
    Ok(())
}
