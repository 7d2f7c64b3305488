// A text in the making.

ghost use Rattle.std.specs.Prelude.{◌≡◌, [], ◌++◌, IfOk, OnErr};
ghost use Rattle.std.specs.Fmt.{decimal};
ghost use Rattle.tptp_token.specs.Words.{name_text};
ghost use Rattle.tptp_tree.specs.Printing.{formula_name_text};

use plain_types::{Mem, Text};
use std::alloc::Global;
use std::marker::Model;
use tptp_token::push_name;
use tptp_tree::push_formula_name;

/// A text that grows at its end, which contracts see as its bytes. A call that is out of memory leaves it as it was.
#[derive(Drop)]
pub struct Page {
    bytes: Vec<u8>,
    /// The digits of the last number, so that a number takes no memory of its own.
    digits: String,
}

impl Model for Page {
    ghost use Rattle.std.specs.Prelude.{List, ℕ};

    ghost Value = { List ℕ };

    ghost view = { λ p. p.bytes.items };
}

impl Page {
    /// The empty text. It takes no memory.
    pub fn new(alloc: Global) -> Page
        ensures { result ≡ [] }
    {
        Page {
            bytes: Vec::new(alloc),
            digits: String::new(alloc),
        }
    }

    /// Adds bytes at the end.
    pub fn bytes(&mut self, bytes: &[u8]) -> Mem<()>
        ensures added { IfOk result (λ _. self.new ≡ self.old ++ bytes.now) }
        ensures unchanged { OnErr result (self.new ≡ self.old) }
    {
        self.bytes.extend_from_slice(bytes)?;
        Ok(())
    }

    /// Adds a name: bare where it is a lower word, else quoted.
    pub fn name(&mut self, name: &[u8]) -> Mem<()>
        ensures added { IfOk result (λ _. self.new ≡ self.old ++ name_text name.now) }
        ensures unchanged { OnErr result (self.new ≡ self.old) }
    {
        push_name(&mut self.bytes, name)
    }

    /// Adds a formula's name: digits alone stand bare, every other name as elsewhere.
    pub fn formula_name(&mut self, name: &[u8]) -> Mem<()>
        ensures added { IfOk result (λ _. self.new ≡ self.old ++ formula_name_text name.now) }
        ensures unchanged { OnErr result (self.new ≡ self.old) }
    {
        push_formula_name(&mut self.bytes, name)
    }

    /// Adds a number in decimal digits.
    pub fn number(&mut self, number: u64) -> Mem<()>
        ensures added { IfOk result (λ _. self.new ≡ self.old ++ decimal number) }
        ensures unchanged { OnErr result (self.new ≡ self.old) }
    {
        self.digits.clear();
        write!(self.digits, "{number}")?;
        self.bytes.extend_from_slice(self.digits.as_bytes())?;
        Ok(())
    }

    /// An empty text, for what is added to this one as a whole or not at all.
    pub(crate) fn part(&self) -> Page
        ensures { result ≡ [] }
    {
        Page::new(*self.bytes.allocator())
    }

    /// The bytes, lent.
    pub(crate) fn as_slice(&self) -> &[u8]
        ensures { result.now ≡ self.now }
    {
        self.bytes.as_slice()
    }

    /// The text.
    pub fn into_text(self) -> Text
        ensures { result ≡ self }
    {
        Text::from_vec(self.bytes)
    }
}
