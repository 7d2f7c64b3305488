// The clausal form of a problem.

ghost use Rattle.std.specs.Prelude.{◌≡◌, IfOk, IfErr, None};
ghost use Rattle.tptp_tree.specs.ProblemSize.{HasProblemSize};
ghost use Rattle.signature.specs.Form.{clausal_form};
ghost use Rattle.clausal_form.specs.Fault.{form_fault, IsFormFault};
ghost use Rattle.clausal_form.specs.Form.{form_of};

use crate::fault::FormFault;
use crate::finished::{Clausal, finished};
use crate::form::form_of_formulas;
use crate::symbols::fresh_prefixes;
use signature::Signature;
use std::alloc::Global;
use tptp_tree::Problem;

/// The clausal form of a problem. Refused where a formula passes a limit, by the first such formula, and on it by the first cause in the
/// order Expansion, TooHeavy, TotalLimit.
pub fn clausal(alloc: Global, problem: &Problem) -> Result<Clausal, FormFault>
    requires { HasProblemSize problem.now.formulas }
    ensures form { IfOk result (λ form. form_of form ≡ clausal_form problem.now.formulas) }
    ensures within { IfOk result (λ _. form_fault problem.now.formulas ≡ None) }
    ensures refused { IfErr result (λ fault. IsFormFault problem.now.formulas fault) }
{
    let signature = Signature::of_problem(alloc, problem)?;
    let prefixes = fresh_prefixes(alloc, &signature)?;
    match form_of_formulas(alloc, problem, signature, &prefixes.skolem) {
        Ok(form) => Ok(finished(alloc, form, &prefixes)?),
        Err(fault) => Err(fault),
    }
}
