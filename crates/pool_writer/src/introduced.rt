// The clauses of the lines that introduce names. Names stand for parts of clauses, and such a clause is no rule's conclusion: it is made
// from the literals of the part.

ghost use Rattle.std.specs.Prelude.{◌≡◌, [], ◌∷◌, ◌<◌, length, map, IfOk};
ghost use Rattle.plain_types.specs.Names.{opposite};
ghost use Rattle.fol_base.specs.Literal.{clause_of, literal_of};
ghost use Rattle.kernel_steps.specs.Derivation.{complement, under_names};
ghost use Rattle.split_parts.specs.SignedNames.{named};
ghost use Rattle.pool_writer.specs.Bodies.{stands_for};

use fol_base::{Clause, Literal, Literals, push_literal_copies};
use plain_types::{Mem, NameLit, Names};
use split_parts::NameTable;
use std::alloc::Global;

/// The clause of the line that introduces a signed name: the literals for which it stands, or its opposite. Linear in the literals.
pub(crate) fn introducing_clause(
    alloc: Global,
    parts: &NameTable,
    introduced: NameLit,
) -> Mem<Clause>
    requires { introduced.name < length (named parts.now.parts) }
    ensures { IfOk result (λ clause. clause_of clause ≡ under_names (stands_for (named parts.now.parts) introduced) (opposite introduced ∷ [])) }
{
    let tag = parts.first_tag(introduced.name);
    let part = parts.part(tag);
    let literals = if parts.signed(tag).positive == introduced.positive {
        copies(alloc, part)?
    } else {
        complements(alloc, part)?
    };
    let opposite = NameLit {
        positive: !introduced.positive,
        name: introduced.name,
    };
    let names = Names::from_slice(alloc, &[opposite])?;
    Ok(Clause { literals, names })
}

/// Equal literals.
fn copies(alloc: Global, literals: &[Literal]) -> Mem<Literals>
    ensures { IfOk result (λ made. map literal_of made ≡ map literal_of literals.now) }
{
    let mut made = Vec::with_capacity(alloc, literals.len())?;
    push_literal_copies(alloc, &mut made, literals)?;
    Ok(Literals::from_vec(made))
}

/// Equal literals with the other sign.
fn complements(alloc: Global, literals: &[Literal]) -> Mem<Literals>
    ensures { IfOk result (λ made. map literal_of made ≡ map complement (map literal_of literals.now)) }
{
    let mut made = Literals::from_vec(Vec::with_capacity(alloc, literals.len())?);
    for literal in literals {
        made.push(complement(alloc, literal)?)?;
    }
    Ok(made)
}

/// An equal literal with the other sign.
fn complement(alloc: Global, literal: &Literal) -> Mem<Literal>
    ensures { IfOk result (λ made. literal_of made ≡ complement (literal_of literal.now)) }
{
    let mut made = literal.copy(alloc)?;
    made.positive = !made.positive;
    Ok(made)
}
