// The entries of a file that are no includes, in any language of annotated formulas.

ghost use Rattle.std.specs.Prelude.{◌≡◌, ◌<◌, ◌≤◌, ℕ, length, IfOk, IfErr};
ghost use Rattle.tptp_token.specs.Lexing.{lexed_of};
ghost use Rattle.tptp_token.specs.declared.limits.TheConstants.{MOST_TEXT_BYTES};
ghost use Rattle.tptp_reader.specs.declared.cause.ReadCause.{ReadCause};
ghost use Rattle.tptp_reader.specs.declared.cause.ReadCause.TheVariants.{Load};
ghost use Rattle.tptp_problem.specs.Languages.{PlacedTree, Language};
ghost use Rattle.tptp_problem.specs.Entries.{IsEntryFaultOf, IsNoLoad};

use crate::fault::FileFault;
use std::alloc::Global;
use tptp_reader::ReadCause;
use tptp_token::Lexed;
use tptp_tree::FileName;

/// An annotated formula as an entry of a file: how it is read, and what includes and conjectures ask of it.
pub trait Entry: Drop + Sized {
    /// Why an entry isn't read.
    type Cause: Drop;

    /// An entry in the words of the definitions.
    ghost Tree: { Type 0 };

    /// The language of the entries.
    ghost language: { Language Tree Self.Cause };

    /// The entry with its file and its place.
    ghost placed: { Self → PlacedTree Tree };

    /// The first word of a conjecture.
    fn conjecture_word() -> &'static [u8]
        ensures { result.now ≡ language.word };

    /// A cause of a whole file in the language of the entries.
    fn cause(cause: ReadCause) -> Self::Cause
        ensures { result ≡ language.cause cause };

    fn name(&self) -> &[u8]
        ensures { result.now ≡ language.name (placed self.now).tree };

    fn is_conjecture(&self) -> bool
        ensures { result ≡ language.is_conjecture (placed self.now).tree };

    /// Reads the entry that begins at a token of a file, and tells the token after it. A fault stands in that file.
    fn read(
        alloc: Global,
        file: &FileName,
        bytes: &[u8],
        lexed: &Lexed,
        first: usize,
    ) -> Result<(Self, usize), FileFault<Self::Cause>>
        requires lexed { lexed.now ≡ lexed_of bytes.now }
        requires small { length bytes.now ≤ MOST_TEXT_BYTES }
        requires first { first < length lexed.now.tokens }
        ensures read { IfOk result (λ read. language.IsRead file.now bytes.now first (placed read.0) read.1) }
        ensures onward { IfOk result (λ read. first < read.1) }
        ensures fault { IfErr result (IsEntryFaultOf language file.now bytes.now first) }
        ensures no_load { IfErr result (IsNoLoad language) };

    /// Of the causes of a whole file, `Load` is told by its own alone.
    ghost load_alone: { (known : ReadCause) → language.cause known ≡ language.cause Load → known ≡ Load };
}
