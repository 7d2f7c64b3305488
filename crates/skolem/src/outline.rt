// How large the clauses of a normal form are, found without making its matrix: a form whose literals are too many symbols to be kept is refused,
// and this tells by which limit. The walk is that which makes the matrix. Of a part it keeps how many clauses it has, the size of the largest,
// and the variables in them, which the arguments of a name are found by. It ends at the first clause over the limit that defines a name, since the
// largest of these never gets smaller; and at any that is over it in a part that stands in clauses, since what is made of it is as large, or a
// clause that defines a name is.

ghost use Rattle.std.specs.Prelude.{◌≡◌, ◌≤◌, ◌+◌, ◌++◌, ◌&&◌, ◌||◌, true, false, max, map, IfOk, IfErr};
ghost use Rattle.tptp_tree.specs.Formula.{formulas_of};
ghost use Rattle.signature.specs.Occurrences.{formula_symbols, formulas_symbols};
ghost use Rattle.fol_base.specs.declared.limits.TheConstants.{MOST_SYMBOLS};
ghost use Rattle.formula_nnf.specs.Shape.{nnf_tree};
ghost use Rattle.skolem.specs.Skolemized.{skolemized, skolemized_list, numbers_after, skolemized_form, AreKnown};
ghost use Rattle.skolem.specs.Progress.{environment_of, made_of};
ghost use Rattle.skolem.specs.Heavy.{all_forms_have_clauses};
ghost use Rattle.skolem.specs.Outline.{ClauseOutline, IsOutline, IsOutlineEnd, AreSame, told, lasting, constant_outline, literal_outline, sum_outline, pairs_outline, named_outline, product_outline, joined_outline, outline_of, outlines_of};

use crate::clauses::are_in_clauses;
use crate::forms::{atom, bind_skolem_terms, bind_variables, equation};
use crate::literal::MatrixLiteral;
use crate::progress::{Progress, made_in_order};
use crate::variable_list::{FIRST_ROOM, VariableList};
use fol_base::MOST_SYMBOLS;
use formula_nnf::{Nnf, is_large};
use plain_types::{Mem, NoMemory};
use signature::Signature;
use std::alloc::Global;

/// A size over the limit. Sizes are counted no further.
const OVER_LIMIT: u64 = MOST_SYMBOLS + 1;

/// The symbols of a name's literal beside its arguments: the name and `$true`.
const NAME_SYMBOLS: u64 = 2;

/// The outline of a list of clauses: how many they are, the symbols of the largest, those of the largest that defines a name, and the variables in them.
#[derive(Drop)]
pub(crate) struct Outline {
    pub clauses: u64,
    pub largest: u64,
    pub defining: u64,
    /// With repetitions, which are dropped where the list is longer than `room`.
    pub variables: Vec<u32>,
    pub room: usize,
}

/// Why an outline ends early.
#[derive(Clone, Copy)]
pub(crate) enum OutlineEnd {
    NoMemory,
    /// A clause that defines a name, or any in a part that stands in clauses, has over `MOST_SYMBOLS` symbols, so that the largest clause has.
    TooHeavy,
}

impl From<NoMemory> for OutlineEnd {
    ghost use Rattle.std.specs.Prelude.{◌≡◌};
    ghost use Rattle.skolem.specs.declared.outline.OutlineEnd.TheVariants.{NoMemory as no_memory};

    ghost from_gives = { λ _ e. e ≡ no_memory };

    fn from(_error: NoMemory) -> OutlineEnd {
        OutlineEnd::NoMemory
    }
}

/// The symbols of the largest clause of a normal form without free variables, those that define names included. Sizes over `MOST_SYMBOLS`
/// are all told as one more than that.
pub fn largest_clause<'a>(alloc: Global, form: &Nnf<'a>, signature: &'a Signature) -> Mem<u64>
    requires known { AreKnown signature.now (formula_symbols (nnf_tree form.now)) }
    ensures { IfOk result (λ size. size
        ≡ told (max (outline_of (skolemized_form signature.now (nnf_tree form.now)).matrix).largest
        (outline_of (skolemized_form signature.now (nnf_tree form.now)).matrix).defining)) }
{
    let mut progress = Progress::new(alloc);
    let outline = match outline_in(alloc, signature, form, true, &mut progress) {
        Ok(outline) => outline,
        Err(OutlineEnd::NoMemory) => return Err(NoMemory),
        Err(OutlineEnd::TooHeavy) => return Ok(OVER_LIMIT),
    };
    if outline.defining > MOST_SYMBOLS {
        return Ok(OVER_LIMIT);
    }
    Ok(outline.largest.max(outline.defining))
}

/// The outline of a form under the variables in force, which may be a part that stands in clauses.
#[cycle(outline_in)]
fn outline_in<'a>(
    alloc: Global,
    signature: &'a Signature,
    form: &Nnf<'a>,
    in_clauses: bool,
    progress: &mut Progress,
) -> Result<Outline, OutlineEnd>
    requires known { AreKnown signature.now (formula_symbols (nnf_tree form.now)) }
    ensures outline { IfOk result (λ outline. IsOutline outline
        (outline_of (skolemized (numbers_after signature.now) (nnf_tree form.now) (environment_of progress.old.bindings) (made_of progress.old)).matrix)) }
    ensures made { IfOk result (λ _. made_of progress.new
        ≡ (skolemized (numbers_after signature.now) (nnf_tree form.now) (environment_of progress.old.bindings) (made_of progress.old)).made) }
    ensures bindings { IfOk result (λ _. progress.new.bindings ≡ progress.old.bindings) }
    ensures ended { IfErr result (λ end. IsOutlineEnd end in_clauses
        (outline_of (skolemized (numbers_after signature.now) (nnf_tree form.now) (environment_of progress.old.bindings) (made_of progress.old)).matrix)) }
{
    match form {
        Nnf::True => Ok(constant(alloc, true)),
        Nnf::False => Ok(constant(alloc, false)),
        Nnf::Pred(positive, name, arguments) => {
            let literal = atom(alloc, signature, progress, *positive, name, arguments)?;
            Ok(of_literal(alloc, &literal)?)
        }
        Nnf::Equal(positive, left, right) => {
            let literal = equation(alloc, signature, progress, *positive, left, right)?;
            Ok(of_literal(alloc, &literal)?)
        }
        Nnf::And(forms) => {
            let forms = forms.as_slice();
            outline_in_all(alloc, signature, true, 0, forms, in_clauses, progress)
        }
        Nnf::Or(forms) => {
            let made = progress.variables;
            let forms = forms.as_slice();
            outline_in_all(alloc, signature, false, made, forms, in_clauses, progress)
        }
        Nnf::All(names, body) => {
            let before = progress.bindings.len();
            bind_variables(alloc, names.as_slice(), progress)?;
            let outline = outline_in(alloc, signature, body.get(), in_clauses, progress)?;
            progress.bindings.truncate(before);
            Ok(outline)
        }
        Nnf::Ex(names, body) => {
            let before = progress.bindings.len();
            bind_skolem_terms(alloc, signature, names.as_slice(), body, progress)?;
            let outline = outline_in(alloc, signature, body.get(), in_clauses, progress)?;
            progress.bindings.truncate(before);
            Ok(outline)
        }
    }
}

/// The outline of forms one after another (`listed`), or of their product, on which the work began when `began` variables were made.
#[cycle(outline_in)]
fn outline_in_all<'a>(
    alloc: Global,
    signature: &'a Signature,
    listed: bool,
    began: u32,
    forms: &[Nnf<'a>],
    in_clauses: bool,
    progress: &mut Progress,
) -> Result<Outline, OutlineEnd>
    requires known { AreKnown signature.now (formulas_symbols (formulas_of (map nnf_tree forms.now))) }
    ensures outline { IfOk result (λ outline. IsOutline outline
        (outlines_of listed began (constant_outline listed)
        (skolemized_list (numbers_after signature.now) (formulas_of (map nnf_tree forms.now)) (environment_of progress.old.bindings) (made_of progress.old)).matrices)) }
    ensures made { IfOk result (λ _. made_of progress.new
        ≡ (skolemized_list (numbers_after signature.now) (formulas_of (map nnf_tree forms.now)) (environment_of progress.old.bindings) (made_of progress.old)).made) }
    ensures bindings { IfOk result (λ _. progress.new.bindings ≡ progress.old.bindings) }
    ensures ended { IfErr result (λ end. IsOutlineEnd end in_clauses
        (outlines_of listed began (constant_outline listed)
        (skolemized_list (numbers_after signature.now) (formulas_of (map nnf_tree forms.now)) (environment_of progress.old.bindings) (made_of progress.old)).matrices)) }
{
    let inside = stand_in_clauses(in_clauses, listed, forms);
    let mut total = constant(alloc, listed);
    for form in forms {
        let member = outline_in(alloc, signature, form, inside, progress)?;
        total = joined(alloc, listed, began, total, member)?;
        if lasting_size(&total, inside) > MOST_SYMBOLS {
            return Err(OutlineEnd::TooHeavy);
        }
    }
    Ok(total)
}

/// Whether the members of a list or product stand in clauses, where that itself does or doesn't.
fn stand_in_clauses(in_clauses: bool, listed: bool, forms: &[Nnf<'_>]) -> bool
    ensures { result ≡ (in_clauses && (listed || all_forms_have_clauses (formulas_of (map nnf_tree forms.now)))) }
{
    if listed {
        in_clauses
    } else {
        are_in_clauses(in_clauses, forms)
    }
}

/// The symbols of the largest clause that stays as large, whatever comes to those that are outlined.
fn lasting_size(outline: &Outline, in_clauses: bool) -> u64
    ensures { result ≡ lasting in_clauses outline.now.largest outline.now.defining }
{
    if in_clauses {
        outline.defining.max(outline.largest)
    } else {
        outline.defining
    }
}

/// No clause, or the empty one.
fn constant(alloc: Global, positive: bool) -> Outline
    ensures { IsOutline result (constant_outline positive) }
{
    Outline {
        clauses: if positive { 0 } else { 1 },
        largest: 0,
        defining: 0,
        variables: Vec::new(alloc),
        room: FIRST_ROOM,
    }
}

/// One clause of that literal. The variables of one over the limit aren't gathered: a Skolem term can have very many.
fn of_literal(alloc: Global, literal: &MatrixLiteral<'_>) -> Mem<Outline>
    ensures { IfOk result (λ outline. IsOutline outline (literal_outline literal.now)) }
{
    let size = literal.size();
    let mut variables = Vec::new(alloc);
    if size <= MOST_SYMBOLS {
        literal.push_variables(&mut variables)?;
    }
    Ok(Outline {
        clauses: 1,
        largest: size.min(OVER_LIMIT),
        defining: 0,
        variables,
        room: FIRST_ROOM,
    })
}

/// One list after another (`listed`), or their product.
fn joined(alloc: Global, listed: bool, began: u32, first: Outline, second: Outline) -> Mem<Outline>
    ensures { IfOk result (λ outline. (t u : ClauseOutline) → IsOutline first t → IsOutline second u
        → IsOutline outline (joined_outline listed began t u)) }
{
    if listed {
        sum(alloc, first, second)
    } else {
        product(alloc, began, first, second)
    }
}

/// One list after another. More clauses than a u64 counts are answered by out of memory; a formula that doesn't expand too far has far fewer.
fn sum(alloc: Global, first: Outline, second: Outline) -> Mem<Outline>
    ensures { IfOk result (λ outline. (t u : ClauseOutline) → IsOutline first t → IsOutline second u
        → IsOutline outline (sum_outline t u)) }
{
    let clauses = first.clauses.checked_add(second.clauses).ok_or(NoMemory)?;
    let largest = first.largest.max(second.largest);
    let defining = first.defining.max(second.defining);
    let VariableList { variables, room } = gathered(alloc, largest.max(defining), first, second)?;
    Ok(Outline {
        clauses,
        largest,
        defining,
        variables,
        room,
    })
}

/// The product of two lists. Of a large one the longer list is named, the first one where they are equally long.
fn product(alloc: Global, began: u32, first: Outline, second: Outline) -> Mem<Outline>
    ensures { IfOk result (λ outline. (t u : ClauseOutline) → IsOutline first t → IsOutline second u
        → IsOutline outline (product_outline began t u)) }
{
    if !is_large(first.clauses, second.clauses) {
        return pairs(alloc, first, second);
    }
    if first.clauses < second.clauses {
        let name = named(alloc, began, second)?;
        return pairs(alloc, first, name);
    }
    let name = named(alloc, began, first)?;
    pairs(alloc, name, second)
}

/// The product, written out.
fn pairs(alloc: Global, first: Outline, second: Outline) -> Mem<Outline>
    ensures { IfOk result (λ outline. (t u : ClauseOutline) → IsOutline first t → IsOutline second u
        → IsOutline outline (pairs_outline t u)) }
{
    let clauses = first.clauses.checked_mul(second.clauses).ok_or(NoMemory)?;
    let defining = first.defining.max(second.defining);
    if clauses == 0 {
        return Ok(Outline {
            clauses,
            largest: 0,
            defining,
            variables: Vec::new(alloc),
            room: FIRST_ROOM,
        });
    }
    let largest = first.largest.saturating_add(second.largest).min(OVER_LIMIT);
    let VariableList { variables, room } = gathered(alloc, largest.max(defining), first, second)?;
    Ok(Outline {
        clauses,
        largest,
        defining,
        variables,
        room,
    })
}

/// A name stands for the clauses, applied to those of their variables that were made before the work on the product began.
fn named(alloc: Global, began: u32, part: Outline) -> Mem<Outline>
    ensures { IfOk result (λ outline. (t : ClauseOutline) → IsOutline part t → IsOutline outline (named_outline began t)) }
{
    let mut occurring = part.variables;
    let variables = made_in_order(alloc, began, &mut occurring)?;
    let size = (variables.len() as u64).saturating_add(NAME_SYMBOLS);
    let clause = size.saturating_add(part.largest).min(OVER_LIMIT);
    Ok(Outline {
        clauses: 1,
        largest: size.min(OVER_LIMIT),
        defining: part.defining.max(clause),
        variables,
        room: part.room,
    })
}

/// The variables of both, where the largest clause has that size. Over the limit nothing asks for them, and none are gathered.
fn gathered(alloc: Global, size: u64, first: Outline, second: Outline) -> Mem<VariableList>
    ensures { IfOk result (λ both. size ≤ MOST_SYMBOLS
        → AreSame both.variables.items (first.variables.items ++ second.variables.items)) }
{
    if size > MOST_SYMBOLS {
        return Ok(VariableList::new(alloc));
    }
    let mut both = VariableList {
        variables: first.variables,
        room: first.room.max(second.room),
    };
    both.variables
        .extend_from_slice(second.variables.as_slice())?;
    both.shorten(alloc)?;
    Ok(both)
}
