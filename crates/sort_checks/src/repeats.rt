// Declarations that repeat earlier ones.

ghost use Rattle.std.specs.Prelude.{◌≡◌, [], IfOk, take};
ghost use Rattle.sort_checks.specs.Lent.{body_lent, bodies_of, declared_among};
ghost use Rattle.sort_checks.specs.Tables.{repeats, repeats_from};

use crate::lent::{LentBody, LentEntry};
use crate::table::Table;
use plain_types::Mem;
use std::alloc::Global;

/// For each entry, whether it declares a word that an earlier one declares.
pub fn repeated_declarations(alloc: Global, entries: &[LentEntry<'_>]) -> Mem<Vec<bool>>
    ensures { IfOk result (λ repeated. repeated.items ≡ repeats_from [] (bodies_of entries.now)) }
{
    let table = Table::new(alloc, entries)?;
    let mut repeated = Vec::new(alloc);
    for (index, entry) in entries.iter().enumerate() {
        repeated.push(is_repeated(&table, index, entry.body))?;
    }
    Ok(repeated)
}

/// Whether it declares a word that an entry before that index declares.
fn is_repeated(table: &Table<'_, '_>, index: usize, body: LentBody<'_>) -> bool
    ensures { result ≡ repeats (declared_among (take index table.now)) (body_lent body.entry) }
{
    match body {
        LentBody::Declared(declaration) => table.earlier(declaration.word, index).is_some(),
        LentBody::Formula(_, _) => false,
    }
}
