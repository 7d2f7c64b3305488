// The search for a model by size.

ghost use Rattle.std.specs.Prelude.{◌≡◌, ◌<◌, ◌≤◌, map, IfOk, IfSome, IfNone};
ghost use Rattle.fol_base.specs.Interpretation.{Interpretation as Structure};
ghost use Rattle.fol_base.specs.Literal.{clause_of};
ghost use Rattle.clausal_form.specs.Form.{form_of};
ghost use Rattle.finite_models.specs.Model.{IsModel, IsOverSignature};
ghost use Rattle.finite_models.specs.Flattening.{flat_clause};
ghost use Rattle.finite_models.specs.Found.{interpretation_of, place_of_cell, cell_places, IsFound};

use crate::answer::{Found, Interpretation};
use crate::constants::add_constants;
use crate::entry_names::EntryNames;
use crate::flat::FlatClause;
use crate::flattening::all_flattened;
use crate::functions::add_symbols;
use crate::instances::add_all_instances;
use crate::measuring::measure;
use crate::table::table_of;
use clausal_form::Clausal;
use plain_types::Mem;
use sat_core::{Answer, PropClauses, solve};
use std::alloc::Global;

/// A size with a larger measure isn't searched.
pub const MOST_MEASURE: u64 = 4_000_000;

/// A model of the least size, from 1 to `most`, at which there is one. `NoModel` comes exactly where none of these sizes has one
/// and none has a measure over `MOST_MEASURE`, `TooLarge` exactly with the least size of such a measure, where no smaller one has a model.
pub fn find_model(alloc: Global, form: &Clausal, most: u32) -> Mem<Found>
    requires form { IsOverSignature (form_of form.now) }
    requires some_size { 1 ≤ most }
    requires few_sizes { most ≤ 8 }
    ensures { IfOk result (IsFound (form_of form.now) most) }
{
    let flat = all_flattened(alloc, form.clauses.as_slice())?;
    for size in 1..most + 1 {
        if measure(form, size) > MOST_MEASURE {
            return Ok(Found::TooLarge(size));
        }
        if let Some(model) = model_of_size(alloc, form, flat.as_slice(), size)? {
            return Ok(Found::Model(model));
        }
    }
    Ok(Found::NoModel)
}

/// A model of one size, if there is one.
fn model_of_size(
    alloc: Global,
    form: &Clausal,
    flat: &[FlatClause],
    size: u32,
) -> Mem<Option<Interpretation>>
    requires form { IsOverSignature (form_of form.now) }
    requires flat { flat.now ≡ map flat_clause (form_of form.now).clauses }
    requires size { 1 ≤ size }
    ensures size { IfOk result (λ found. IfSome found (λ table. table.size ≡ size)) }
    ensures model { IfOk result (λ found. IfSome found (λ table. IsModel (form_of form.now) (interpretation_of table))) }
    ensures cells { IfOk result (λ found. IfSome found (λ table.
        map place_of_cell table.cells ≡ cell_places (form_of form.now).symbols size)) }
    ensures none { IfOk result (λ found. IfNone found ((i : Structure) → IsModel (form_of form.now) i → i.size ≡ size → ⊥)) }
{
    let names = EntryNames::new(alloc, &form.signature, size)?;
    let mut clauses = PropClauses::new(alloc);
    add_symbols(alloc, &form.signature, &names, &mut clauses)?;
    add_constants(&form.signature, &names, &mut clauses)?;
    add_all_instances(alloc, flat, &names, &mut clauses)?;
    match solve(alloc, &clauses, names.count)? {
        Answer::Refuted(_) => Ok(None),
        Answer::Model(truths) => {
            let table = table_of(alloc, &form.signature, &names, truths.as_slice())?;
            Ok(Some(table))
        }
    }
}
