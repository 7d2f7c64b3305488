// How a waiting clause is chosen.

/// Which clause is picked.
#[derive(Clone, Copy, Debug, PartialEq, Eq)]
pub enum Choice {
    /// The least size, and of one size the lower number.
    Light,
    /// The least number.
    Old,
}
