// The trait of states that have a history.

ghost use Rattle.std.specs.Prelude.{◌≡◌, ℕ, List, length};

/// A state that keeps a history, a list that only grows while turns are taken.
pub trait Historied {
    /// An entry of the history.
    type Entry;

    /// The part of the state that stays as it was when the lock was made.
    type Origin;

    /// The entries, the oldest first.
    ghost history: { Self → List Self.Entry };

    /// The part that stays.
    ghost origin: { Self → Self.Origin };

    /// Entries that belong together have one key.
    ghost key: { Self.Entry → ℕ };

    /// How many entries the history has.
    fn len(&self) -> u64
        ensures { result ≡ length (history self.now) };
}
