// How many clauses the work on a formula gives, counted without making them.

ghost use Rattle.std.specs.Prelude.{◌≡◌, map};
ghost use Rattle.plain_types.specs.Capped.{capped};
ghost use Rattle.tptp_tree.specs.Formula.{formulas_of, connected, equivalent};
ghost use Rattle.tptp_tree.specs.Shape.{formula_of};
ghost use Rattle.formula_nnf.specs.ClauseCount.{clause_counts, several_counts, plain_count, constant_count, sum_count, product_count, joined_count};
ghost use Rattle.signature.specs.Clausal.{is_large_count};
ghost use Rattle.formula_nnf.specs.CappedCount.{count_of, capped_count, total_count};

use tptp_tree::Formula;

/// Above this number of clauses a product of two lists gets a name.
const LARGEST_PRODUCT: u64 = 64;

/// The clauses of a formula, and those that define the names made in it. Each count stops at u64's last value.
#[derive(Clone, Copy)]
struct Count {
    clauses: u64,
    defining: u64,
}

/// How many clauses the work on a formula (`positive`) or on its negation gives, those that define the names made in it included,
/// stopping at u64's last value. A part of an equivalence is counted twice, so a formula should be counted with `expanded` first.
pub fn clause_count(formula: &Formula, positive: bool) -> u64
    ensures { result ≡ capped (total_count (clause_counts (formula_of formula.now) positive)) }
{
    let count = counts(formula, positive);
    count.clauses.saturating_add(count.defining)
}

/// The two counts of a formula or of its negation.
#[cycle(counts)]
fn counts(formula: &Formula, positive: bool) -> Count
    ensures { count_of result ≡ capped_count (clause_counts (formula_of formula.now) positive) }
{
    match formula {
        Formula::True => constant(positive),
        Formula::False => constant(!positive),
        Formula::Pred(_, _) | Formula::Equal(_, _) | Formula::NotEqual(_, _) => plain(1),
        Formula::Not(body) => counts(body.get(), !positive),
        Formula::And(formulas) => several(positive, formulas.as_slice(), positive),
        Formula::Or(formulas) => several(!positive, formulas.as_slice(), positive),
        Formula::Implies(left, right) => {
            pair(!positive, left.get(), !positive, right.get(), positive)
        }
        Formula::Implied(left, right) => {
            pair(!positive, left.get(), positive, right.get(), !positive)
        }
        Formula::Nor(left, right) => pair(positive, left.get(), !positive, right.get(), !positive),
        Formula::Nand(left, right) => {
            pair(!positive, left.get(), !positive, right.get(), !positive)
        }
        Formula::Iff(left, right) => doubled(left.get(), right.get(), positive),
        Formula::Xor(left, right) => doubled(left.get(), right.get(), !positive),
        Formula::All(_, body) | Formula::Ex(_, body) => counts(body.get(), positive),
    }
}

/// The counts of formulas one after another (`listed`), or of their product.
#[cycle(counts)]
fn several(listed: bool, formulas: &[Formula], positive: bool) -> Count
    ensures { count_of result ≡ capped_count (several_counts listed (formulas_of (map formula_of formulas.now)) positive) }
{
    let mut total = constant(listed);
    for formula in formulas {
        total = joined(listed, total, counts(formula, positive));
    }
    total
}

/// The counts of two formulas one after the other (`listed`), or of their product.
#[cycle(counts)]
fn pair(
    listed: bool,
    left: &Formula,
    left_positive: bool,
    right: &Formula,
    right_positive: bool,
) -> Count
    ensures { count_of result ≡ capped_count
        (joined_count listed (clause_counts (formula_of left.now) left_positive) (clause_counts (formula_of right.now) right_positive)) }
{
    let first = counts(left, left_positive);
    let second = counts(right, right_positive);
    joined(listed, first, second)
}

/// The counts of an equivalence, in which each part stands twice.
#[cycle(counts)]
fn doubled(left: &Formula, right: &Formula, positive: bool) -> Count
    ensures { count_of result
        ≡ capped_count (clause_counts (connected equivalent (formula_of left.now) (formula_of right.now)) positive) }
{
    let first = pair(false, left, !positive, right, true);
    let second = pair(false, left, positive, right, false);
    joined(true, first, second)
}

/// That many clauses, and no names.
fn plain(clauses: u64) -> Count
    ensures { count_of result ≡ plain_count clauses }
{
    Count {
        clauses,
        defining: 0,
    }
}

/// No clause, or the empty one.
fn constant(positive: bool) -> Count
    ensures { count_of result ≡ constant_count positive }
{
    if positive { plain(0) } else { plain(1) }
}

/// The counts of two lists one after the other (`listed`), or of their product.
fn joined(listed: bool, first: Count, second: Count) -> Count
    ensures { count_of result ≡ capped_count (joined_count listed (count_of first) (count_of second)) }
{
    if listed {
        sum(first, second)
    } else {
        product(first, second)
    }
}

/// The counts of two lists one after the other.
fn sum(first: Count, second: Count) -> Count
    ensures { count_of result ≡ capped_count (sum_count (count_of first) (count_of second)) }
{
    Count {
        clauses: first.clauses.saturating_add(second.clauses),
        defining: first.defining.saturating_add(second.defining),
    }
}

/// The counts of the product of two lists. Of a large one the longer list becomes defining clauses.
fn product(first: Count, second: Count) -> Count
    ensures { count_of result ≡ capped_count (product_count (count_of first) (count_of second)) }
{
    let defining = first.defining.saturating_add(second.defining);
    if is_large(first.clauses, second.clauses) {
        return Count {
            clauses: first.clauses.min(second.clauses),
            defining: defining.saturating_add(first.clauses.max(second.clauses)),
        };
    }
    Count {
        clauses: first.clauses.saturating_mul(second.clauses),
        defining,
    }
}

/// Whether a product of two lists of these lengths gets a name.
pub fn is_large(first: u64, second: u64) -> bool
    ensures { result ≡ is_large_count first second }
{
    first >= 2 && second >= 2 && first.saturating_mul(second) > LARGEST_PRODUCT
}
