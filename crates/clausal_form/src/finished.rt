// A clausal form with all its symbols.

ghost use Rattle.std.specs.Prelude.{◌≡◌, IfOk};
ghost use Rattle.signature.specs.Form.{AreUnused};
ghost use Rattle.clausal_form.specs.Symbols.{with_names, with_spare};

use crate::form::FormSoFar;
use crate::symbols::{Prefixes, add_naming_symbols, add_spare_constant};
use fol_base::Clause;
use plain_types::{Mem, Numbers, Sequence};
use signature::Signature;
use std::alloc::Global;

/// A clausal form: its symbols by their numbers, among them a constant; its clauses, each canonical; and for each clause its origin,
/// which is the place of its formula in the problem.
#[derive(Drop)]
pub struct Clausal {
    pub signature: Signature,
    pub clauses: Sequence<Clause>,
    pub origins: Numbers,
}

/// The form with its naming symbols and its spare constant.
pub(crate) fn finished(alloc: Global, form: FormSoFar, prefixes: &Prefixes) -> Mem<Clausal>
    requires naming { AreUnused form.signature prefixes.now.naming 0 }
    requires spare { AreUnused (with_names prefixes.now.naming form.naming.arities.items form.signature) prefixes.now.spare 0 }
    ensures signature { IfOk result (λ clausal. clausal.signature
        ≡ with_spare prefixes.now.spare (with_names prefixes.now.naming form.naming.arities.items form.signature)) }
    ensures clauses { IfOk result (λ clausal. clausal.clauses ≡ form.output.clauses.items) }
    ensures origins { IfOk result (λ clausal. clausal.origins ≡ form.output.origins.items) }
{
    let FormSoFar {
        mut signature,
        naming,
        output,
        ..
    } = form;
    let arities = naming.arities.as_slice();
    add_naming_symbols(alloc, &mut signature, &prefixes.naming, arities)?;
    add_spare_constant(alloc, &mut signature, &prefixes.spare)?;
    Ok(Clausal {
        signature,
        clauses: Sequence::from_vec(output.clauses),
        origins: Numbers::from_vec(output.origins),
    })
}
