// How large a formula becomes, counted without making it.

ghost use Rattle.std.specs.Prelude.{◌≡◌, ◌-◌, ◌^◌, min, map};
ghost use Rattle.tptp_tree.specs.Formula.{formulas_of};
ghost use Rattle.tptp_tree.specs.Shape.{formula_of};
ghost use Rattle.formula_nnf.specs.Expanded.{expanded_count, all_expanded_count};

use tptp_tree::Formula;

/// The atoms and quantified variables of a formula after each equivalence is written out, stopping at u64's last value.
#[cycle(expanded)]
pub fn expanded(formula: &Formula) -> u64
    ensures { result ≡ min (expanded_count (formula_of formula.now)) (2 ^ 64 - 1) }
{
    match formula {
        Formula::True
        | Formula::False
        | Formula::Pred(_, _)
        | Formula::Equal(_, _)
        | Formula::NotEqual(_, _) => 1,
        Formula::Not(body) => expanded(body.get()),
        Formula::And(formulas) | Formula::Or(formulas) => all_expanded(formulas.as_slice()),
        Formula::Implies(left, right)
        | Formula::Implied(left, right)
        | Formula::Nor(left, right)
        | Formula::Nand(left, right) => expanded(left.get()).saturating_add(expanded(right.get())),
        Formula::Iff(left, right) | Formula::Xor(left, right) => {
            let once = expanded(left.get()).saturating_add(expanded(right.get()));
            once.saturating_add(once)
        }
        Formula::All(variables, body) | Formula::Ex(variables, body) => {
            (variables.len() as u64).saturating_add(expanded(body.get()))
        }
    }
}

/// The sum over formulas, stopping at u64's last value.
#[cycle(expanded)]
fn all_expanded(formulas: &[Formula]) -> u64
    ensures { result ≡ min (all_expanded_count (formulas_of (map formula_of formulas.now))) (2 ^ 64 - 1) }
{
    let mut total: u64 = 0;
    for formula in formulas {
        total = total.saturating_add(expanded(formula));
    }
    total
}
