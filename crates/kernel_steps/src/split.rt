// Splitting of a clause into parts that share no variables.

ghost use Rattle.std.specs.Prelude.{◌≡◌, ◌==◌, ◌||◌, ◌++◌, ℕ, map, flat_map, option_and_then, unwrap_or, nat_eq, IfOk};
ghost use Rattle.std.specs.List.{list_all, list_any};
ghost use Rattle.std.specs.HashMap.{get};
ghost use Rattle.std.specs.HashSet.{contains};
ghost use Rattle.plain_types.specs.Names.{opposite};
ghost use Rattle.fol_base.specs.Tree.{tree_eq, trees_eq, trees_of};
ghost use Rattle.fol_base.specs.Term.{tree_of};
ghost use Rattle.fol_base.specs.Instance.{instance, instances};
ghost use Rattle.fol_base.specs.Clause.{literal_eq, literals_eq, literal_instance, literal_variables};
ghost use Rattle.fol_base.specs.Canonical.{distinct, place_of};
ghost use Rattle.fol_base.specs.Literal.{literal_of};
ghost use Rattle.fol_base.specs.Lent.{lent_of};
ghost use Rattle.kernel_steps.specs.Names.{sorted_names};
ghost use Rattle.kernel_steps.specs.Parents.{parent_of, all_there};
ghost use Rattle.kernel_steps.specs.Split.{has_number, is_part, has_all_below, share_out, literals_at, share_no_variables, share_no_numbers, renamed, defines, are_defined, can_split, opposites};
ghost use Rattle.kernel_steps.specs.Conclusion.{split_from, verdict_of, IsAnswerTo};

use crate::names::sort_names;
use crate::parents::{LendsParents, ParentRef};
use crate::step::StepFault;
use fol_base::{Clause, Literal, LiteralRef, Literals, Term, push_variables};
use plain_types::{Mem, NameLit, Names, Numbers, opposite};
use std::alloc::Global;
use std::collections::{HashMap, HashSet};

/// The conclusion of the split of a clause into parts: its names, and for each part the opposite of the name that its
/// definition introduces. `Rule` exactly where the condition fails.
pub fn split<P: LendsParents>(
    alloc: Global,
    parent: ParentRef<'_>,
    parents: &P,
    definitions: &[u64],
    parts: &[Numbers],
) -> Result<Clause, StepFault>
    ensures { IsAnswerTo (verdict_of (option_and_then
        (λ ds. split_from (parent_of parent.entry) ds parts.now)
        (all_there (map (P.meaning parents.now) definitions.now)))) result }
{
    let literals = parent.clause.literals.as_slice();
    if !can_split(alloc, literals, parents, definitions, parts)? {
        return Err(StepFault::Rule);
    }
    let names = names_left(alloc, parent.clause.names.as_slice(), parents, definitions)?;
    Ok(Clause {
        literals: Literals::new(alloc),
        names: Names::from_vec(names),
    })
}

/// The names of a split: those of the clause, and the opposites of those of the definitions that are there.
fn names_left<P: LendsParents>(
    alloc: Global,
    names: &[NameLit],
    parents: &P,
    definitions: &[u64],
) -> Mem<Vec<NameLit>>
    ensures { IfOk result (λ left. left.items
        ≡ sorted_names (names.now ++ opposites (map (P.meaning parents.now) definitions.now))) }
{
    let mut left = Vec::new(alloc);
    left.extend_from_slice(names)?;
    push_opposites(&mut left, parents, definitions)?;
    sort_names(&mut left);
    Ok(left)
}

/// Adds the opposites of the names of the definitions that are there at the end.
fn push_opposites<P: LendsParents>(
    names: &mut Vec<NameLit>,
    parents: &P,
    definitions: &[u64],
) -> Mem<()>
    ensures { IfOk result (λ _. names.new.items
        ≡ names.old.items ++ opposites (map (P.meaning parents.now) definitions.now)) }
{
    for number in definitions {
        if let Some(definition) = parents.parent(*number) {
            push_opposites_of(names, definition.clause.names.as_slice())?;
        }
    }
    Ok(())
}

/// Adds the opposites of names at the end.
fn push_opposites_of(names: &mut Vec<NameLit>, others: &[NameLit]) -> Mem<()>
    ensures { IfOk result (λ _. names.new.items ≡ names.old.items ++ map opposite others.now) }
{
    for other in others {
        names.push(opposite(*other))?;
    }
    Ok(())
}

/// Whether there is a part, the parts share out the literals, no variable is in two of them, and each has its
/// definition.
fn can_split<P: LendsParents>(
    alloc: Global,
    literals: &[Literal],
    parents: &P,
    definitions: &[u64],
    parts: &[Numbers],
) -> Mem<bool>
    ensures { IfOk result (λ can. can
        ≡ can_split (map literal_of literals.now) (map (P.meaning parents.now) definitions.now) parts.now) }
{
    if parts.is_empty() || !are_parts(parts) {
        return Ok(false);
    }
    if !share_out(alloc, literals.len(), parts)? {
        return Ok(false);
    }
    if !share_no_variables(alloc, literals, parts)? {
        return Ok(false);
    }
    are_defined(alloc, literals, parents, definitions, parts)
}

/// Whether each part has places that rise, and at least one.
fn are_parts(parts: &[Numbers]) -> bool
    ensures { result ≡ list_all is_part parts.now }
{
    for part in parts {
        if !is_part(part.as_slice()) {
            return false;
        }
    }
    true
}

/// Whether places rise, and there is at least one.
fn is_part(places: &[u64]) -> bool
    ensures { result ≡ is_part places.now }
{
    if places.is_empty() {
        return false;
    }
    for index in 1..places.len() {
        if places[index - 1] >= places[index] {
            return false;
        }
    }
    true
}

/// Whether the parts share out the places below a bound.
fn share_out(alloc: Global, count: usize, parts: &[Numbers]) -> Mem<bool>
    ensures { IfOk result (λ shared. shared ≡ share_out count parts.now) }
{
    let mut places = Vec::new(alloc);
    for part in parts {
        places.extend_from_slice(part.as_slice())?;
    }
    if places.len() != count {
        return Ok(false);
    }
    has_all_below(alloc, count, places.as_slice())
}

/// Whether each number below a bound is in the list.
fn has_all_below(alloc: Global, count: usize, places: &[u64]) -> Mem<bool>
    ensures { IfOk result (λ all. all ≡ has_all_below count places.now) }
{
    let mut found = vec![in alloc; false; count]?;
    for place in places {
        let index = *place as usize;
        if index < count {
            found[index] = true;
        }
    }
    Ok(are_true(found.as_slice()))
}

fn are_true(values: &[bool]) -> bool
    ensures { result ≡ list_all (λ value. value) values.now }
{
    values.iter().all(|value| *value)
}

/// Whether no variable is in two parts.
fn share_no_variables(alloc: Global, literals: &[Literal], parts: &[Numbers]) -> Mem<bool>
    ensures { IfOk result (λ apart. apart ≡ share_no_variables (map (literals_at (map literal_of literals.now)) parts.now)) }
{
    let mut lists = Vec::with_capacity(alloc, parts.len())?;
    for part in parts {
        let literals_of_part = literals_at(alloc, literals, part.as_slice())?;
        lists.push(variables_of(alloc, literals_of_part.as_slice())?)?;
    }
    share_no_numbers(alloc, lists.as_slice())
}

/// Whether no number is in two lists.
fn share_no_numbers(alloc: Global, lists: &[Vec<u32>]) -> Mem<bool>
    ensures { IfOk result (λ apart. apart ≡ share_no_numbers (map (λ list. list.items) lists.now)) }
{
    let mut met = HashSet::new(alloc);
    for list in lists {
        if has_any(&met, list.as_slice()) {
            return Ok(false);
        }
        put_all(&mut met, list.as_slice())?;
    }
    Ok(true)
}

/// Whether one of the numbers is in a set.
fn has_any(met: &HashSet<u32>, numbers: &[u32]) -> bool
    ensures { result ≡ list_any (contains nat_eq met.now) numbers.now }
{
    numbers.iter().any(|number| met.contains(number))
}

/// Adds numbers to a set.
fn put_all(met: &mut HashSet<u32>, numbers: &[u32]) -> Mem<()>
    ensures { IfOk result (λ _. (n : ℕ) → contains nat_eq met.new n ≡ (has_number n numbers.now || contains nat_eq met.old n)) }
{
    for number in numbers {
        met.insert(*number)?;
    }
    Ok(())
}

/// Whether each definition is there and defines its part.
fn are_defined<P: LendsParents>(
    alloc: Global,
    literals: &[Literal],
    parents: &P,
    definitions: &[u64],
    parts: &[Numbers],
) -> Mem<bool>
    ensures { IfOk result (λ defined. defined
        ≡ are_defined (map (P.meaning parents.now) definitions.now) (map (literals_at (map literal_of literals.now)) parts.now)) }
{
    if definitions.len() != parts.len() {
        return Ok(false);
    }
    for index in 0..parts.len() {
        let part = literals_at(alloc, literals, parts[index].as_slice())?;
        match parents.parent(definitions[index]) {
            None => return Ok(false),
            Some(definition) => {
                if !defines(alloc, definition, part.as_slice())? {
                    return Ok(false);
                }
            }
        }
    }
    Ok(true)
}

/// Whether a line introduces a name for these literals, up to their variables' numbers.
fn defines(alloc: Global, definition: ParentRef<'_>, part: &[LiteralRef<'_>]) -> Mem<bool>
    ensures { IfOk result (λ defined. defined ≡ defines (parent_of definition.entry) (map lent_of part.now)) }
{
    if !definition.introduces {
        return Ok(false);
    }
    let variables = variables_of(alloc, part)?;
    let places = first_places(alloc, variables.as_slice())?;
    Ok(are_renamed(part, &places, definition.clause.literals.as_slice()))
}

/// The literals at places.
fn literals_at<'a>(
    alloc: Global,
    literals: &'a [Literal],
    places: &[u64],
) -> Mem<Vec<LiteralRef<'a>>>
    ensures { IfOk result (λ part. map lent_of part.items ≡ literals_at (map literal_of literals.entry.now) places.now) }
{
    let mut part = Vec::with_capacity(alloc, places.len())?;
    for place in places {
        let index = *place as usize;
        if index < literals.len() {
            part.push(literals[index].lend())?;
        }
    }
    Ok(part)
}

/// The variables of literals, with repetitions, from left to right.
fn variables_of(alloc: Global, part: &[LiteralRef<'_>]) -> Mem<Vec<u32>>
    ensures { IfOk result (λ found. found.items ≡ flat_map literal_variables (map lent_of part.now)) }
{
    let mut found = Vec::new(alloc);
    for literal in part {
        push_variables(literal.left, &mut found)?;
        push_variables(literal.right, &mut found)?;
    }
    Ok(found)
}

/// For each number of a list its place among the different ones, in the order in which these first stand.
fn first_places(alloc: Global, numbers: &[u32]) -> Mem<HashMap<u32, usize>>
    ensures { IfOk result (λ places. (n : ℕ) → get nat_eq places n ≡ place_of n (distinct numbers.now)) }
{
    let mut places = HashMap::new(alloc);
    for number in numbers {
        if !places.contains_key(number) {
            let next = places.len();
            places.insert(*number, next)?;
        }
    }
    Ok(places)
}

/// Whether literals become others where each variable gets its place as its number.
fn are_renamed(part: &[LiteralRef<'_>], places: &HashMap<u32, usize>, targets: &[Literal]) -> bool
    ensures { result ≡ literals_eq (map (literal_instance (renamed places.now)) (map lent_of part.now)) (map literal_of targets.now) }
{
    if part.len() != targets.len() {
        return false;
    }
    for index in 0..part.len() {
        if !is_renamed_literal(part[index], places, targets[index].lend()) {
            return false;
        }
    }
    true
}

fn is_renamed_literal(
    literal: LiteralRef<'_>,
    places: &HashMap<u32, usize>,
    target: LiteralRef<'_>,
) -> bool
    ensures { result ≡ literal_eq (literal_instance (renamed places.now) (lent_of literal.entry)) (lent_of target.entry) }
{
    literal.positive == target.positive
        && is_renamed(literal.left, places, target.left)
        && is_renamed(literal.right, places, target.right)
}

#[cycle(is_renamed)]
fn is_renamed(term: &Term, places: &HashMap<u32, usize>, target: &Term) -> bool
    ensures { result ≡ tree_eq (instance (renamed places.now) (tree_of term.now)) (tree_of target.now) }
{
    match term {
        Term::Var(variable) => match target {
            Term::Var(number) => is_number_of(places, *variable, *number),
            Term::App(_, _) => false,
        },
        Term::App(first, ones) => match target {
            Term::Var(_) => false,
            Term::App(second, others) => {
                *first == *second && are_all_renamed(ones.as_slice(), places, others.as_slice())
            }
        },
    }
}

#[cycle(is_renamed)]
fn are_all_renamed(terms: &[Term], places: &HashMap<u32, usize>, targets: &[Term]) -> bool
    ensures { result ≡ trees_eq (instances (renamed places.now) (trees_of (map tree_of terms.now))) (trees_of (map tree_of targets.now)) }
{
    if terms.len() != targets.len() {
        return false;
    }
    for index in 0..terms.len() {
        if !is_renamed(&terms[index], places, &targets[index]) {
            return false;
        }
    }
    true
}

/// Whether a variable gets a number: its place, or its own number where it has none.
fn is_number_of(places: &HashMap<u32, usize>, variable: u32, number: u32) -> bool
    ensures { result ≡ (unwrap_or (get nat_eq places.now variable) variable == number) }
{
    match places.get(&variable) {
        Some(place) => *place as u64 == u64::from(number),
        None => variable == number,
    }
}
