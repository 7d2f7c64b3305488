// The first fault of a problem's sorts and types.

ghost use Rattle.std.specs.Prelude.{◌≡◌, ◌<◌, [], length, IfOk, IfSome};
ghost use Rattle.sort_checks.specs.Lent.{AreLent, fault_told, body_lent, bodies_of, declared_among};
ghost use Rattle.typed_problem.specs.Declarations.{Entries};
ghost use Rattle.typed_problem.specs.SortFaults.{sort_fault as fault_of, body_causes, first_fault};
ghost use Rattle.std.specs.Prelude.{ℕ, take, option_map};
ghost use Rattle.sort_checks.specs.Tables.{place_told};

use crate::declarations::push_declaration;
use crate::formulas::push_formula;
use crate::lent::{LentBody, LentEntry};
use crate::scope::Scope;
use crate::table::Table;
use plain_types::Mem;
use std::alloc::Global;
use typed_tree::TypedCause;

/// A fault of sorts or types: its cause, the index of its entry, and its place in that entry's file.
#[derive(Clone, Copy, Debug, PartialEq, Eq)]
pub struct SortFault {
    pub cause: TypedCause,
    pub entry: usize,
    pub place: u32,
}

/// The first fault of sorts and types in reading order.
pub fn sort_fault(alloc: Global, entries: &[LentEntry<'_>]) -> Mem<Option<SortFault>>
    ensures fault { IfOk result (λ found. (es : Entries) → AreLent es entries.now → fault_told es found ≡ fault_of es) }
    ensures within { IfOk result (λ found. IfSome found (λ f. f.entry < length entries.now)) }
{
    let table = Table::new(alloc, entries)?;
    for (index, entry) in entries.iter().enumerate() {
        let causes = causes_of(alloc, &table, index, entry.body)?;
        if let Some((cause, place)) = first_cause(causes.as_slice(), entry.places) {
            return Ok(Some(SortFault {
                cause,
                entry: index,
                place,
            }));
        }
    }
    Ok(None)
}

/// The causes of the places of the entry that stands at an index.
fn causes_of<'a>(
    alloc: Global,
    table: &Table<'_, 'a>,
    index: usize,
    body: LentBody<'a>,
) -> Mem<Vec<Option<TypedCause>>>
    ensures { IfOk result (λ causes. causes.items
        ≡ body_causes (declared_among table.now) (declared_among (take index table.now)) (body_lent body.entry)) }
{
    let mut causes = Vec::new(alloc);
    match body {
        LentBody::Declared(declaration) => {
            push_declaration(table, index, declaration, &mut causes)?;
        }
        LentBody::Formula(_, formula) => {
            push_formula(table, &mut Scope::new(alloc), formula, &mut causes)?;
        }
    }
    Ok(causes)
}

/// The first cause, with its place.
fn first_cause(causes: &[Option<TypedCause>], places: &[u32]) -> Option<(TypedCause, u32)>
    ensures { option_map place_told result ≡ first_fault [] causes.now places.now }
{
    for (cause, place) in causes.iter().zip(places) {
        if let Some(cause) = cause {
            return Some((*cause, *place));
        }
    }
    None
}
