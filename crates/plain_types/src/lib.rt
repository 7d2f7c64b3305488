//! Small types that crates with and without trees share: out of memory as an ordinary answer, names with signs, and plain lists.
//!
//! `Mem<T>` is the answer of a call that takes memory: a value, or `NoMemory`. `Sequence<T>` (`sequence.rt`) is a list over a `Vec` that
//! contracts see as the mathematical list of its elements, so that definitions can speak of texts, terms and clauses without their
//! representation; most plural types of the prover (`Text`, `Texts`, `Numbers`, ..) are such lists. `NameLit` (`names.rt`) is a
//! propositional literal: the name of a split-off component with a sign. `limits.rt` has the limits of which several layers speak.
#![tactic(auto)]

pub mod laws;
mod limits;
mod memory;
mod names;
mod sequence;

pub use limits::{DEFAULT_INFERENCES, MOST_INFERENCES};
pub use memory::{Mem, NoMemory};
pub use names::opposite;
pub use sequence::{NameLit, Names, Numbers, Parts, Sequence, Text, Texts};

#[cfg(test)]
mod tests {
    use super::*;

    #[test]
    fn lists_keep_what_they_are_given(rt: HostRuntime) {
        let mut numbers = Numbers::new(rt.alloc());
        for number in [3u64, 1, 2] {
            assert!(rt; numbers.push(number).is_ok());
        }
        assert_eq!(rt; numbers.len(), 3);
        assert!(rt; numbers.as_slice() == [3, 1, 2].as_slice());
        assert!(rt; !numbers.is_empty());
        assert!(rt; numbers.iter().any(|number| *number == 1));
        let copy = numbers.copy(rt.alloc()).expect(&rt, "memory");
        assert!(rt; copy.as_slice() == numbers.as_slice());
        let text = Text::from_slice(rt.alloc(), b"abc").expect(&rt, "memory");
        let bytes = text.into_vec();
        assert!(rt; bytes.as_slice() == b"abc".as_slice());
        assert_eq!(rt; Text::from_vec(bytes).len(), 3);
    }
}
