// Literals of names.

ghost use Rattle.std.specs.Prelude.{◌≡◌, ◌+◌, ◌*◌, ◌<◌};
ghost use Rattle.plain_types.specs.Names.{same_name};
ghost use Rattle.sat_core.specs.Literals.{code_of};
ghost use Rattle.sat_core.specs.Conflict.{is_other};

use plain_types::NameLit;
use std::marker::Model;

/// Whether the literal isn't the one that a clause implies.
pub fn is_other(implied: Option<NameLit>, literal: NameLit) -> bool
    ensures { result ≡ is_other implied literal }
{
    match implied {
        Some(implied) => implied != literal,
        None => true,
    }
}

/// A number of its own for each literal.
pub fn code(literal: NameLit) -> usize
    ensures below { result < 2 * literal.name + 2 }
    ensures number { result ≡ code_of literal }
{
    2 * literal.name as usize + usize::from(literal.positive)
}

/// A literal as its number, which is compared and looked up at once. Contracts see the literal.
#[derive(Clone, Copy)]
pub struct CodedLiteral {
    number: usize,
}

impl Model for CodedLiteral {
    ghost use Rattle.std.specs.Prelude.{◌<◌, ◌^◌};
    ghost use Rattle.std.proofs.Common.{ap};
    ghost use Rattle.plain_types.specs.declared.sequence.NameLit.{NameLit as Literal};
    ghost use Rattle.sat_core.specs.Literals.{code_of, literal_at, code_literal};

    ghost Value = { Literal };

    ghost view = { λ c. literal_at c.number };

    ghost invariant = { λ c. c.number < 2 ^ 33 };

    ghost inverse = { λ l. record { number = code_of l } };

    ghost inverse_ok = { λ a h. ap (λ n. record { number = n }) (code_literal a.number) };
}

impl CodedLiteral {
    /// A literal with its code.
    pub fn of(literal: NameLit) -> CodedLiteral
        ensures { result ≡ literal }
    {
        CodedLiteral {
            number: code(literal),
        }
    }

    /// The literal.
    pub fn literal(self) -> NameLit
        ensures { result ≡ self }
    {
        NameLit {
            positive: self.number % 2 == 1,
            name: (self.number / 2) as u32,
        }
    }

    /// Its number.
    pub fn index(self) -> usize
        ensures { result ≡ code_of self }
    {
        self.number
    }

    /// Whether it is the same literal.
    pub fn is(self, other: CodedLiteral) -> bool
        ensures { result ≡ same_name self other }
    {
        self.number == other.number
    }
}
