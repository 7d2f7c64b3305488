// The hash of a term, by which tables find it.

ghost use Rattle.std.specs.Prelude.{◌≡◌, map};
ghost use Rattle.fol_base.specs.Tree.{trees_of};
ghost use Rattle.fol_base.specs.Term.{tree_of};
ghost use Rattle.term_bank.specs.Hash.{tree_hash, trees_hash, mixed};

use fol_base::Term;

/// A term's hash from an earlier one, over its symbols and variables from left to right.
#[cycle(hash)]
pub fn term_hash(hash: u64, term: &Term) -> u64
    ensures { result ≡ tree_hash hash (tree_of term.now) }
{
    match term {
        Term::Var(variable) => mix(hash, 2 * u64::from(*variable)),
        Term::App(symbol, arguments) => {
            let head = mix(hash, 2 * u64::from(*symbol) + 1);
            terms_hash(head, arguments.as_slice())
        }
    }
}

#[cycle(hash)]
fn terms_hash(hash: u64, terms: &[Term]) -> u64
    ensures { result ≡ trees_hash hash (trees_of (map tree_of terms.now)) }
{
    let mut all = hash;
    for index in 0..terms.len() {
        all = term_hash(all, &terms[index]);
    }
    all
}

/// A step of the hash: one of the MMIX generator (Knuth, 1999), of which the upper half goes into the lower one. Without that a hash
/// would be a polynomial modulo 2^64, and the Thue-Morse words of 2^11 letters are equal under all of these.
pub fn mix(hash: u64, value: u64) -> u64
    ensures { result ≡ mixed hash value }
{
    let step = hash
        .wrapping_mul(6_364_136_223_846_793_005)
        .wrapping_add(value);
    step ^ (step >> 32)
}
