// The statuses with which the program ends.

/// The problem is refuted, or the derivation accepted.
pub const PROVED: u8 = 0;

/// The pool's members are a saturated set.
pub const SATURATED: u8 = 1;

/// The pool gave up.
pub const GAVE_UP: u8 = 2;

/// The problem isn't read, or has no clausal form.
pub const INPUT_ERROR: u8 = 3;

/// A file couldn't be loaded.
pub const LOAD_FAILED: u8 = 4;

/// A write to the sink failed.
pub const SINK_FAILED: u8 = 5;

/// The words of the command line are usage.
pub const USAGE_SHOWN: u8 = 6;

/// The program is out of memory.
pub const MEMORY_OUT: u8 = 7;

/// The problem has a form that is left out.
pub const INAPPROPRIATE: u8 = 8;

/// The derivation is refused.
pub const REFUSED: u8 = 9;

/// The pool's members are a saturated set for a part of the formulas.
pub const PART_SATURATED: u8 = 10;

/// A finite model is found.
pub const MODEL_FOUND: u8 = 11;

/// The search for a finite model gave up.
pub const NO_MODEL: u8 = 12;

/// The ground list of a derivation is printed.
pub const LISTED: u8 = 13;

/// An accepted derivation has no ground list, or a list that is too large.
pub const UNLISTED: u8 = 14;

/// No interpretation makes a clausal form without variables true.
pub const FORM_REFUTED: u8 = 15;

/// Some interpretation makes a clausal form without variables true.
pub const FORM_TRUE: u8 = 16;
