// The signs of numbers.

/// The sign before a number.
#[derive(Clone, Copy, Debug, PartialEq, Eq)]
pub enum NumberSign {
    Unsigned,
    Plus,
    Minus,
}
