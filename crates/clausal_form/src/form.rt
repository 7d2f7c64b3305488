// The form of a problem, formula by formula.

ghost use Rattle.std.specs.Prelude.{◌≡◌, ℕ, ◌+◌, ◌++◌, false, nat_lt, List, [], map, length, codes, IfOk, IfErr, Some, None};
ghost use Rattle.tptp_tree.specs.Shape.{formula_of};
ghost use Rattle.fol_base.specs.Literal.{clause_of};
ghost use Rattle.signature.specs.Occurrences.{formula_symbols, problem_symbols};
ghost use Rattle.signature.specs.Prefix.{fresh_prefix_of};
ghost use Rattle.signature.specs.Form.{AreUnused, nothing_made};
ghost use Rattle.signature.specs.Clausal.{SymbolNumbers, Made, Worked, annotated_clauses, canonical_literals};
ghost use Rattle.skolem.specs.Skolemized.{AreKnown};
ghost use Rattle.clausal_form.specs.Agenda.{placed};
ghost use Rattle.signature.specs.Environment.{closed, under_for_all};
ghost use Rattle.formula_nnf.specs.Expanded.{expanded_count};
ghost use Rattle.clausal_form.specs.Cause.{IsCauseOr};
ghost use Rattle.clausal_form.specs.declared.fault.TheConstants.{MOST_EXPANDED};
ghost use Rattle.clausal_form.specs.Fault.{formula_fault, counted_in, form_fault, IsFormFault};
ghost use Rattle.clausal_form.specs.Formula.{form_by_itself};
ghost use Rattle.clausal_form.specs.Progress.{HasMade, IsAddition, IsStep, IsRefusal, IsEmpty, IsFormed, counted_numbers, numbers_with};

use crate::closing::closing_names;
use crate::counting::count_skolem_symbols;
use crate::fault::{FormCause, FormFault, counted_with, expands_too_far, refused};
use crate::formula::{Named, formula_matrix, write_formula};
use crate::naming::{Names, Naming, NamingEnd, Part, named_matrix};
use crate::writing::Output;
use plain_types::{Mem, NoMemory, Text, Texts};
use signature::Signature;
use skolem::{Skolemized, add_skolem_symbols};
use std::alloc::Global;
use std::mem;
use tptp_tree::{Annotated, Problem};

/// A form that is being made: the problem's symbols with the Skolem symbols, the number of the next Skolem symbol, the names, the clauses,
/// and how many symbols and clauses these are.
#[derive(Drop)]
pub(crate) struct FormSoFar {
    pub signature: Signature,
    pub next: u32,
    pub naming: Names,
    pub output: Output,
    pub counted: u64,
}

/// Adds a formula's clauses, those that define its names after them, and its Skolem symbols.
pub(crate) fn add_formula(
    alloc: Global,
    annotated: &Annotated,
    place: u64,
    prefix: &Text,
    form: &mut FormSoFar,
) -> Result<(), FormFault>
    requires known { AreKnown form.old.signature (formula_symbols (formula_of annotated.now.formula)) }
    requires unused { AreUnused form.old.signature prefix.now form.old.next }
    ensures step { IfOk result (λ _. (n : SymbolNumbers) (m : Made) → HasMade n prefix.now m form.old
        → AreKnown n.symbols (formula_symbols (formula_of annotated.now.formula))
        → IsStep n annotated.now place prefix.now m form.old form.new) }
    ensures refused { IfErr result (λ fault. (n : SymbolNumbers) (m : Made) → HasMade n prefix.now m form.old
        → AreKnown n.symbols (formula_symbols (formula_of annotated.now.formula))
        → IsRefusal n annotated.now m form.old.counted fault) }
{
    if expands_too_far(&annotated.formula) {
        return Err(refused(alloc, FormCause::Expansion, annotated));
    }
    let names = closing_names(alloc, annotated)?;
    match add_clauses(alloc, annotated, &names, place, form) {
        Err(fault) => Err(fault),
        Ok(arities) => {
            let next = form.next;
            let symbols = arities.as_slice();
            form.next = add_skolem_symbols(alloc, &mut form.signature, prefix, next, symbols)?;
            Ok(())
        }
    }
}

/// Adds the clauses of a formula that doesn't expand too far, and gives its Skolem symbols by their numbers of arguments. No term is made
/// before the formula is known to pass no limit: its matrix has only what tells the sizes.
fn add_clauses<'a>(
    alloc: Global,
    annotated: &'a Annotated,
    names: &'a Texts,
    place: u64,
    form: &mut FormSoFar,
) -> Result<Vec<u32>, FormFault>
    requires expands { nat_lt MOST_EXPANDED (expanded_count (formula_of annotated.now.formula)) ≡ false }
    requires closing { under_for_all names.now (formula_of annotated.now.formula) ≡ closed annotated.now }
    requires known { AreKnown form.old.signature (formula_symbols (formula_of annotated.now.formula)) }
    ensures arities { IfOk result (λ arities. arities.items ≡ (form_by_itself form.old.signature annotated.now).made.skolem_arities) }
    ensures signature { form.new.signature ≡ form.old.signature }
    ensures next { form.new.next ≡ form.old.next }
    ensures first { form.new.naming.first ≡ form.old.naming.first }
    ensures added { IfOk result (λ _. (n : SymbolNumbers) (prefix : List ℕ) (m : Made) → HasMade n prefix m form.old
        → AreKnown n.symbols (formula_symbols (formula_of annotated.now.formula))
        → IsAddition n annotated.now place m form.old form.new) }
    ensures refused { IfErr result (λ fault. (n : SymbolNumbers) (prefix : List ℕ) (m : Made) → HasMade n prefix m form.old
        → AreKnown n.symbols (formula_symbols (formula_of annotated.now.formula))
        → IsRefusal n annotated.now m form.old.counted fault) }
{
    let made = formula_matrix(alloc, annotated, names, &form.signature)?;
    let Skolemized { matrix, arities } = match made {
        Ok(made) => made,
        Err(cause) => return Err(refused(alloc, cause, annotated)),
    };
    let skolem = sum_of(form.next, arities.as_slice().len())?;
    let so_far = mem::replace(&mut form.naming.arities, Vec::new(alloc));
    let mut naming = Naming::new(alloc, form.naming.first, so_far);
    let Part { matrix, measure } = match named_matrix(alloc, matrix, &mut naming) {
        Ok(part) => part,
        Err(NamingEnd::NoMemory) => return Err(FormFault::NoMemory),
        Err(NamingEnd::TooHeavy) => return Err(refused(alloc, FormCause::TooHeavy, annotated)),
    };
    let measure = measure.sum(naming.measure)?;
    match counted_with(measure, form.counted, skolem) {
        Err(cause) => Err(refused(alloc, cause, annotated)),
        Ok(counted) => {
            form.counted = counted;
            form.naming.arities = naming.arities;
            let named = Named {
                matrix,
                definitions: naming.definitions,
            };
            write_formula(alloc, place, &named, &mut form.output)?;
            Ok(arities)
        }
    }
}

/// The number after `count` more.
fn sum_of(number: u32, more: usize) -> Mem<u32>
    ensures { IfOk result (λ sum. sum ≡ number + more) }
{
    let more = u32::try_from(more).map_err(|_| NoMemory)?;
    number.checked_add(more).ok_or(NoMemory)
}

/// Adds the formulas of a problem, in order. The form has the symbols of the problem, and nothing was made.
pub(crate) fn add_formulas(
    alloc: Global,
    formulas: &[Annotated],
    prefix: &Text,
    form: &mut FormSoFar,
) -> Result<(), FormFault>
    requires begun { HasMade (counted_numbers formulas.now) prefix.now nothing_made form.old }
    requires empty { IsEmpty form.old }
    requires prefix { prefix.now ≡ fresh_prefix_of (problem_symbols formulas.now) (codes "sk") }
    ensures formed { IfOk result (λ _. IsFormed formulas.now prefix.now form.new) }
    ensures within { IfOk result (λ _. form_fault formulas.now ≡ None) }
    ensures refused { IfErr result (λ fault. IsFormFault formulas.now fault) }
{
    for place in 0..formulas.len() {
        if let Err(fault) = add_formula(alloc, &formulas[place], place as u64, prefix, form) {
            return Err(fault);
        }
    }
    Ok(())
}

/// The form of a problem before its first formula. Naming symbols come after all Skolem symbols, `skolem` in number.
fn begun_form(alloc: Global, signature: Signature, skolem: u64) -> Mem<FormSoFar>
    ensures made { IfOk result (λ form. (prefix : List ℕ) → HasMade (numbers_with signature skolem) prefix nothing_made form) }
    ensures empty { IfOk result (λ form. IsEmpty form) }
{
    let first = signature.len().checked_add(skolem).ok_or(NoMemory)?;
    let naming = Names {
        first: u32::try_from(first).map_err(|_| NoMemory)?,
        arities: Vec::new(alloc),
    };
    Ok(FormSoFar {
        signature,
        next: 0,
        naming,
        output: Output {
            clauses: Vec::new(alloc),
            origins: Vec::new(alloc),
        },
        counted: 0,
    })
}

/// The form of a problem without its naming symbols and its spare constant. The symbols are the problem's, and no name of theirs begins
/// with the prefix, which is that of the Skolem symbols.
pub(crate) fn form_of_formulas(
    alloc: Global,
    problem: &Problem,
    signature: Signature,
    prefix: &Text,
) -> Result<FormSoFar, FormFault>
    requires signature { signature ≡ problem_symbols problem.now.formulas }
    requires prefix { prefix.now ≡ fresh_prefix_of (problem_symbols problem.now.formulas) (codes "sk") }
    ensures formed { IfOk result (λ form. IsFormed problem.now.formulas prefix.now form) }
    ensures within { IfOk result (λ _. form_fault problem.now.formulas ≡ None) }
    ensures refused { IfErr result (λ fault. IsFormFault problem.now.formulas fault) }
{
    let formulas = problem.formulas.as_slice();
    let skolem = count_skolem_symbols(alloc, formulas)?;
    let mut form = begun_form(alloc, signature, skolem)?;
    if let Err(fault) = add_formulas(alloc, formulas, prefix, &mut form) {
        return Err(fault);
    }
    Ok(form)
}
