// Clauses from text, so that a test's table can be read: `~p(X0) | f(a) = b`. Symbols are the letters, `a` is number 1 and `z` number 26;
// variables are `X0` to `X9`; `$` is `$true`, and a side without an equation is an atom. Blanks are passed over. It is for tests: what is no
// clause is read as some clause.

ghost use Rattle.std.specs.Prelude.{◌≡◌, [], All, IfOk};

use crate::terms::{atom, constant};
use fol_base::{Clause, Clauses, Literal, Literals, Term, Terms};
use plain_types::{Mem, Names};
use std::alloc::Global;

/// The clause that a text spells.
pub fn clause(alloc: Global, text: &str) -> Mem<Clause>
    ensures { IfOk result (λ made. made.names ≡ []) }
{
    let mut reading = Reading::new(alloc);
    for byte in text.as_bytes() {
        reading.take(alloc, *byte)?;
    }
    reading.close(alloc)
}

/// The clauses that a text spells, with `;` between two of them. The empty text spells none.
pub fn clauses(alloc: Global, text: &str) -> Mem<Clauses> {
    let mut found = Clauses::new(alloc);
    if text.is_empty() {
        return Ok(found);
    }
    let mut reading = Reading::new(alloc);
    for byte in text.as_bytes() {
        if *byte == b';' {
            let read = std::mem::replace(&mut reading, Reading::new(alloc));
            found.push(read.close(alloc)?)?;
        } else {
            reading.take(alloc, *byte)?;
        }
    }
    found.push(reading.close(alloc)?)?;
    Ok(found)
}

/// A term of which the arguments are being read.
#[derive(Drop)]
struct Open {
    symbol: u32,
    arguments: Terms,
}

/// The part of a clause that was read so far.
#[derive(Drop)]
struct Reading {
    literals: Vec<Literal>,
    positive: bool,
    /// The left side, once the sign of an equation was read.
    left: Option<Term>,
    open: Vec<Open>,
    /// The term that was read last.
    last: Option<Term>,
}

impl Reading {
    fn new(alloc: Global) -> Reading {
        Reading {
            literals: Vec::new(alloc),
            positive: true,
            left: None,
            open: Vec::new(alloc),
            last: None,
        }
    }

    fn take(&mut self, alloc: Global, byte: u8) -> Mem<()> {
        match byte {
            b'~' | b'!' => self.positive = false,
            b'$' => self.last = Some(Term::truth(alloc)),
            b'a'..=b'z' => self.last = Some(constant(alloc, u32::from(byte - b'a') + 1)),
            b'0'..=b'9' => self.last = Some(Term::Var(u32::from(byte - b'0'))),
            b'(' => self.open_arguments(alloc)?,
            b',' => self.put_argument()?,
            b')' => self.close_arguments()?,
            b'=' => self.left = self.last.take(),
            b'|' => self.put_literal(alloc)?,
            _ => {}
        }
        Ok(())
    }

    /// The term that was read last is the head of one with arguments.
    fn open_arguments(&mut self, alloc: Global) -> Mem<()> {
        if let Some(Term::App(symbol, _)) = self.last.take() {
            self.open.push(Open {
                symbol,
                arguments: Terms::new(alloc),
            })?;
        }
        Ok(())
    }

    fn put_argument(&mut self) -> Mem<()> {
        if let Some(argument) = self.last.take() {
            if let Some(open) = self.open.last_mut() {
                open.arguments.push(argument)?;
            }
        }
        Ok(())
    }

    fn close_arguments(&mut self) -> Mem<()> {
        self.put_argument()?;
        if let Some(open) = self.open.pop() {
            self.last = Some(Term::App(open.symbol, open.arguments));
        }
        Ok(())
    }

    fn put_literal(&mut self, alloc: Global) -> Mem<()> {
        let positive = std::mem::replace(&mut self.positive, true);
        if let Some(last) = self.last.take() {
            let literal = match self.left.take() {
                Some(left) => Literal {
                    positive,
                    left,
                    right: last,
                },
                None => Literal {
                    positive,
                    ..atom(alloc, last)
                },
            };
            self.literals.push(literal)?;
        }
        Ok(())
    }

    fn close(mut self, alloc: Global) -> Mem<Clause>
        ensures { IfOk result (λ made. made.names ≡ []) }
    {
        self.put_literal(alloc)?;
        Ok(Clause {
            literals: Literals::from_vec(self.literals),
            names: Names::new(alloc),
        })
    }
}
