// Literals that are too heavy, alone or together, found before anything is made of them. A literal of over `MOST_SYMBOLS` symbols makes each
// clause that it stands in too heavy, so a formula is refused where one stands in a part that has clauses. Here it is asked of the normal form,
// where a variable counts as one symbol and no term is read further than the limit; `skolemize` asks it again, where the sizes of the Skolem
// terms are known. And each literal of such a part stands in a clause, so a formula is refused too where they are over `MOST_FORM_SYMBOLS`
// together, as they are written.

ghost use Rattle.std.specs.Prelude.{◌≡◌, ◌≤◌, ◌+◌, true, false, not, ◌&&◌, ◌||◌, min, map, nat_lt, if◌then◌else◌};
ghost use Rattle.tptp_tree.specs.Term.{term_size, terms_size, terms_of};
ghost use Rattle.tptp_tree.specs.Shape.{term_of};
ghost use Rattle.tptp_tree.specs.Formula.{formulas_of};
ghost use Rattle.fol_base.specs.declared.limits.TheConstants.{MOST_SYMBOLS};
ghost use Rattle.formula_nnf.specs.Shape.{nnf_tree};
ghost use Rattle.skolem.specs.Heavy.{form_has_clauses, some_form_has_clauses, all_forms_have_clauses};
ghost use Rattle.clausal_form.specs.Heavy.{heavy_form, some_heavy_form, written_total, written_totals};
ghost use Rattle.plain_types.specs.Capped.{capped};

use fol_base::{MOST_FORM_SYMBOLS, MOST_SYMBOLS};
use formula_nnf::Nnf;
use tptp_tree::TreeTerm;

/// The symbols of a predicate's literal beside its arguments: the predicate and `$true`.
const ATOM_SYMBOLS: u64 = 2;

/// More symbols than a form may have. A literal that is too heavy is read no further, so it isn't known how many it has.
const OVER_TOTAL: u64 = MOST_FORM_SYMBOLS + 1;

/// The weight of a form: whether it has clauses, whether a literal that is too heavy stands in one of them, the symbols of the literals in
/// them, and those of all its literals (`written`), where one that is too heavy counts as `OVER_TOTAL`. Both numbers stop at u64's last value.
#[derive(Clone, Copy)]
pub(crate) struct Weight {
    pub has_clauses: bool,
    pub is_heavy: bool,
    pub symbols: u64,
    pub written: u64,
}

/// The weights of several forms together: whether some have clauses, whether all have, whether one is heavy, and their symbols together.
#[derive(Clone, Copy)]
struct Weights {
    some: bool,
    all: bool,
    heavy: bool,
    symbols: u64,
    written: u64,
}

/// The weight of a normal form, of its literals as they are written: at most one symbol over the limit is counted of each.
#[cycle(form_weight)]
pub(crate) fn form_weight(form: &Nnf<'_>) -> Weight
    ensures clauses { result.has_clauses ≡ form_has_clauses (nnf_tree form.now) }
    ensures heavy { result.is_heavy ≡ heavy_form (nnf_tree form.now) }
    ensures symbols { result.symbols ≡ capped (written_total (nnf_tree form.now)) }
{
    match form {
        Nnf::True => constant(true),
        Nnf::False => constant(false),
        Nnf::Pred(_, _, arguments) => {
            literal_weight(terms_size_from(ATOM_SYMBOLS, arguments.as_slice()))
        }
        Nnf::Equal(_, left, right) => {
            literal_weight(term_size_from(term_size_from(0, left), right))
        }
        Nnf::And(forms) => listed(form_weights(forms.as_slice())),
        Nnf::Or(forms) => multiplied(form_weights(forms.as_slice())),
        Nnf::All(_, body) | Nnf::Ex(_, body) => form_weight(body.get()),
    }
}

#[cycle(form_weight)]
fn form_weights(forms: &[Nnf<'_>]) -> Weights
    ensures some { result.some ≡ some_form_has_clauses (formulas_of (map nnf_tree forms.now)) }
    ensures all { result.all ≡ all_forms_have_clauses (formulas_of (map nnf_tree forms.now)) }
    ensures heavy { result.heavy ≡ some_heavy_form (formulas_of (map nnf_tree forms.now)) }
    ensures symbols { result.symbols ≡ capped (written_totals (formulas_of (map nnf_tree forms.now))) }
{
    let mut weights = NO_MEMBERS;
    for form in forms {
        weights = with_member(weights, form_weight(form));
    }
    weights
}

const NO_MEMBERS: Weights = Weights {
    some: false,
    all: true,
    heavy: false,
    symbols: 0,
    written: 0,
};

fn with_member(weights: Weights, member: Weight) -> Weights
    ensures some { result.some ≡ (weights.some || member.has_clauses) }
    ensures all { result.all ≡ (weights.all && member.has_clauses) }
    ensures heavy { result.heavy ≡ (weights.heavy || member.is_heavy) }
    ensures symbols { result.symbols ≡ capped (weights.symbols + member.symbols) }
{
    Weights {
        some: weights.some || member.has_clauses,
        all: weights.all && member.has_clauses,
        heavy: weights.heavy || member.is_heavy,
        symbols: weights.symbols.saturating_add(member.symbols),
        written: weights.written.saturating_add(member.written),
    }
}

/// The weight of a list of members.
fn listed(members: Weights) -> Weight
    ensures clauses { result.has_clauses ≡ members.some }
    ensures heavy { result.is_heavy ≡ members.heavy }
    ensures symbols { result.symbols ≡ members.symbols }
{
    Weight {
        has_clauses: members.some,
        is_heavy: members.heavy,
        symbols: members.symbols,
        written: members.written,
    }
}

/// The weight of a product of members, which are written whether it has clauses or not.
fn multiplied(members: Weights) -> Weight
    ensures clauses { result.has_clauses ≡ members.all }
    ensures heavy { result.is_heavy ≡ (members.all && members.heavy) }
    ensures symbols { result.symbols ≡ (if members.all then members.symbols else 0) }
{
    Weight {
        has_clauses: members.all,
        is_heavy: members.all && members.heavy,
        symbols: if members.all { members.symbols } else { 0 },
        written: members.written,
    }
}

/// The weight of `$true` or `$false`.
fn constant(positive: bool) -> Weight
    ensures clauses { result.has_clauses ≡ not positive }
    ensures heavy { result.is_heavy ≡ false }
    ensures symbols { result.symbols ≡ 0 }
{
    Weight {
        has_clauses: !positive,
        is_heavy: false,
        symbols: 0,
        written: 0,
    }
}

/// The weight of a literal of that size.
fn literal_weight(size: u64) -> Weight
    ensures clauses { result.has_clauses ≡ true }
    ensures heavy { result.is_heavy ≡ nat_lt MOST_SYMBOLS size }
    ensures symbols { result.symbols ≡ size }
{
    Weight {
        has_clauses: true,
        is_heavy: size > MOST_SYMBOLS,
        symbols: size,
        written: if size > MOST_SYMBOLS {
            OVER_TOTAL
        } else {
            size
        },
    }
}

/// A size with the symbols and variables of a term. One over the limit is enough.
#[cycle(term_size_from)]
fn term_size_from(size: u64, term: &TreeTerm) -> u64
    requires { size ≤ MOST_SYMBOLS + 1 }
    ensures { result ≡ min (size + term_size (term_of term.now)) (MOST_SYMBOLS + 1) }
{
    if size > MOST_SYMBOLS {
        return size;
    }
    match term {
        TreeTerm::Var(_) => size + 1,
        TreeTerm::App(_, arguments) => terms_size_from(size + 1, arguments.as_slice()),
    }
}

/// A size with the symbols and variables of several terms.
#[cycle(term_size_from)]
fn terms_size_from(size: u64, terms: &[TreeTerm]) -> u64
    requires { size ≤ MOST_SYMBOLS + 1 }
    ensures { result ≡ min (size + terms_size (terms_of (map term_of terms.now))) (MOST_SYMBOLS + 1) }
{
    let mut total = size;
    for term in terms {
        if total > MOST_SYMBOLS {
            return total;
        }
        total = term_size_from(total, term);
    }
    total
}
