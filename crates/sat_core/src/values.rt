// The values of literals by their codes, so that a look at one is a look at one place. The slots of the trail have them too; that
// a literal is true by its value is a hint, and that it is false is believed.

ghost use Rattle.std.specs.Prelude.{◌≡◌, ℕ, slice_set, IfOk, IsTrue};
ghost use Rattle.plain_types.specs.Names.{opposite};
ghost use Rattle.sat_core.specs.declared.values.Value.TheVariants.{Open, True, False};
ghost use Rattle.sat_core.specs.Literals.{code_of};
ghost use Rattle.sat_core.specs.Values.{value_at};

use crate::literals::{CodedLiteral, code};
use plain_types::{Mem, NameLit, opposite};
use std::alloc::Global;

/// The value of a literal, if it has one.
#[derive(Clone, Copy)]
pub enum Value {
    Open,
    True,
    False,
}

/// A value for each code.
#[derive(Drop)]
pub struct Values {
    pub by_code: Vec<Value>,
}

impl Values {
    /// No literal has a value.
    pub fn new(alloc: Global, names: usize) -> Mem<Values>
        ensures { IfOk result (λ values. (c : ℕ) → value_at values.by_code.items c ≡ Open) }
    {
        Ok(Values {
            by_code: vec![in alloc; Value::Open; names.saturating_mul(2)]?,
        })
    }

    /// Whether the literal is true by its value.
    pub fn is_true(&self, literal: CodedLiteral) -> bool {
        matches!(self.by_code.get(literal.index()), Some(Value::True))
    }

    /// Whether it is false by its value.
    pub fn is_false(&self, literal: CodedLiteral) -> bool
        ensures { IsTrue result → value_at self.now.by_code.items (code_of literal) ≡ False }
    {
        matches!(self.by_code.get(literal.index()), Some(Value::False))
    }

    /// A literal has become true.
    pub fn make_true(&mut self, literal: NameLit)
        ensures { self.new.by_code.items
            ≡ slice_set (slice_set self.old.by_code.items (code_of literal) True) (code_of (opposite literal)) False }
    {
        self.set(literal, Value::True);
        self.set(opposite(literal), Value::False);
    }

    /// It and its opposite have no value any more.
    pub fn take_back(&mut self, literal: NameLit)
        ensures { self.new.by_code.items
            ≡ slice_set (slice_set self.old.by_code.items (code_of literal) Open) (code_of (opposite literal)) Open }
    {
        self.set(literal, Value::Open);
        self.set(opposite(literal), Value::Open);
    }

    fn set(&mut self, literal: NameLit, value: Value)
        ensures { self.new.by_code.items ≡ slice_set self.old.by_code.items (code_of literal) value }
    {
        let code = code(literal);
        if code < self.by_code.len() {
            self.by_code[code] = value;
        }
    }
}
