// The formulas of `fof` and `cnf` as the entries of a file.

ghost use Rattle.tptp_tree.specs.Entries.{AnnotatedTree};
ghost use Rattle.tptp_problem.specs.Formulas.{annotated_formulas, placed as placed_formula};

use crate::entry::Entry;
use crate::fault::FileFault;
use std::alloc::Global;
use tptp_reader::{ReadCause, ReadFault, annotated};
use tptp_token::Lexed;
use tptp_tree::{Annotated, FileName, MOST_NESTING};

impl Entry for Annotated {
    type Cause = ReadCause;

    ghost Tree = { AnnotatedTree };

    ghost language = { annotated_formulas };

    ghost placed = { placed_formula };

    fn conjecture_word() -> &'static [u8] {
        b"fof".as_slice()
    }

    fn cause(cause: ReadCause) -> ReadCause {
        cause
    }

    fn name(&self) -> &[u8] {
        self.name.as_slice()
    }

    fn is_conjecture(&self) -> bool {
        self.role.is_conjecture()
    }

    fn read(
        alloc: Global,
        file: &FileName,
        bytes: &[u8],
        lexed: &Lexed,
        first: usize,
    ) -> Result<(Annotated, usize), FileFault<ReadCause>> {
        match annotated(alloc, bytes, lexed, first, MOST_NESTING) {
            Err(ReadFault::NoMemory) => Err(FileFault::NoMemory),
            Err(ReadFault::At(cause, _, place)) => {
                Err(FileFault::at(alloc, cause, file.as_slice(), place))
            }
            Ok(read) => {
                let next = read.next;
                let mut formula = read.annotated;
                formula.file = file.share()?;
                Ok((formula, next))
            }
        }
    }

    ghost load_alone = { λ known same. same };
}
