// How the variables of both sides are numbered when their terms are built.

ghost use Rattle.std.specs.Prelude.{◌≡◌, ◌<◌, ◌^◌, ℕ, length, slice_index};

/// The names of variables, by their numbers among those of both sides.
pub trait Naming {
    /// The name of each number.
    ghost meaning: { Self → ℕ → ℕ };

    /// How many numbers have names.
    ghost count: { Self → ℕ };

    /// The name of a number that has one.
    fn name(&self, code: u64) -> u32
        requires { code < count self.now }
        ensures { result ≡ meaning self.now code };
}

/// A list of names, each at its number.
impl Naming for &[u32] {
    ghost meaning = { λ names. slice_index names.now };

    ghost count = { λ names. length names.now };

    fn name(&self, code: u64) -> u32 {
        self[code as usize]
    }
}

/// Each number is its name.
#[derive(Clone, Copy)]
pub struct OwnNumbers;

impl Naming for OwnNumbers {
    ghost meaning = { λ numbers code. code };

    ghost count = { λ numbers. 2 ^ 32 };

    fn name(&self, code: u64) -> u32 {
        code as u32
    }
}
