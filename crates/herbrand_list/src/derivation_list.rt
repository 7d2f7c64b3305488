// The ground list of an accepted derivation.

ghost use Rattle.std.specs.Prelude.{◌≡◌};
ghost use Rattle.signature.specs.Form.{is_constant};
ghost use Rattle.kernel_steps.specs.Derivation.{IsRefutation};
ghost use Rattle.clausal_form.specs.Form.{form_of};
ghost use Rattle.clausal_form.specs.FormFunctions.{functions_of};
ghost use Rattle.herbrand_list.specs.GroundList.{first_constant};
ghost use Rattle.herbrand_list.specs.Worked.{constant_tree};
ghost use Rattle.herbrand_list.specs.Answer.{IsGroundAnswer};

use crate::fault::GroundFault;
use crate::listing::{list_of_lines, names_line};
use clausal_form::Clausal;
use fol_base::Clauses;
use kernel_steps::Derivation;
use signature::{Signature, Symbol, SymbolKind};
use std::alloc::Global;

/// The ground list of a refutation: the demanded instances of the lines that bring in clauses of the form, from the last line to the first.
/// The form's first constant stands for variables without a term. A line that speaks of names is told before a weight that is too large.
pub fn ground_list(
    alloc: Global,
    form: &Clausal,
    lines: &Derivation,
) -> Result<Clauses, GroundFault>
    requires { IsRefutation (form_of form.now).clauses lines.now }
    ensures { IsGroundAnswer (first_constant (functions_of form.now.signature)) lines.now result }
{
    let lines = lines.as_slice();
    match names_line(lines) {
        Some(number) => Err(GroundFault::Names(number)),
        None => list_of_lines(alloc, first_constant(&form.signature), lines),
    }
}

/// The number of the first function symbol without arguments; where there is none it is 0.
fn first_constant(signature: &Signature) -> u32
    ensures { constant_tree result ≡ first_constant (functions_of signature.now) }
{
    for number in 0..signature.len() {
        if is_a_constant(signature.symbol(number as u32)) {
            return number as u32;
        }
    }
    0
}

/// Whether the symbol is a constant.
fn is_a_constant(symbol: &Symbol) -> bool
    ensures { result ≡ is_constant symbol.now }
{
    match symbol.kind {
        SymbolKind::Predicate => false,
        SymbolKind::Function => symbol.arity == 0,
    }
}
