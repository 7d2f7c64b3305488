// Which parts of a normal form have clauses: `$true` has none, nor has a product with a member that has none.

ghost use Rattle.std.specs.Prelude.{◌≡◌, ◌&&◌, map};
ghost use Rattle.tptp_tree.specs.Formula.{formulas_of};
ghost use Rattle.formula_nnf.specs.Shape.{nnf_tree};
ghost use Rattle.skolem.specs.Heavy.{form_has_clauses, some_form_has_clauses, all_forms_have_clauses};

use formula_nnf::Nnf;

/// Whether a product's members stand in clauses, where the product itself does or doesn't.
pub(crate) fn are_in_clauses(in_clauses: bool, members: &[Nnf<'_>]) -> bool
    ensures { result ≡ (in_clauses && all_forms_have_clauses (formulas_of (map nnf_tree members.now))) }
{
    in_clauses && all_have_clauses(members)
}

#[cycle(has_clauses)]
fn has_clauses(form: &Nnf<'_>) -> bool
    ensures { result ≡ form_has_clauses (nnf_tree form.now) }
{
    match form {
        Nnf::True => false,
        Nnf::False | Nnf::Pred(_, _, _) | Nnf::Equal(_, _, _) => true,
        Nnf::And(forms) => some_have_clauses(forms.as_slice()),
        Nnf::Or(forms) => all_have_clauses(forms.as_slice()),
        Nnf::All(_, body) | Nnf::Ex(_, body) => has_clauses(body.get()),
    }
}

#[cycle(has_clauses)]
fn some_have_clauses(forms: &[Nnf<'_>]) -> bool
    ensures { result ≡ some_form_has_clauses (formulas_of (map nnf_tree forms.now)) }
{
    for form in forms {
        if has_clauses(form) {
            return true;
        }
    }
    false
}

#[cycle(has_clauses)]
fn all_have_clauses(forms: &[Nnf<'_>]) -> bool
    ensures { result ≡ all_forms_have_clauses (formulas_of (map nnf_tree forms.now)) }
{
    for form in forms {
        if !has_clauses(form) {
            return false;
        }
    }
    true
}
