// The problems of `bench`, which no file spells.

ghost use Rattle.std.specs.Prelude.{◌≡◌, ◌≤◌, ◌-◌, ◌∷◌, ◌++◌, [], map, IfOk};
ghost use Rattle.std.specs.Fmt.{decimal};
ghost use Rattle.std.specs.List.{range_with_len};
ghost use Rattle.tptp_tree.specs.Shape.{term_of, formula_of};
ghost use Rattle.tptp_tree.specs.declared.formula.Formula.TheVariants.{Pred, Implies};
ghost use Rattle.commands.specs.BenchProblem.{variable_x, constant_z, applied_g, chain_name, chained as chained_by, bench_formula, each_x, first_link as first_of_links, link as link_of, back_link as back, last_link as last_of_links, bench_formulas};
ghost use Rattle.command_words.specs.declared.command.TheConstants.{MOST_BENCH};

use plain_types::{Mem, Text, Texts};
use std::alloc::Global;
use tptp_tree::{
    Annotated, AnnotatedList, FileName, Formula, FormulaBox, Problem, Role, TreeTerm, TreeTerms,
};
use tstp_writer::Page;

/// The problem of a number: that `p0(z)` leads to `pN(z)`.
pub fn bench_problem(alloc: Global, number: u32) -> Mem<Problem>
    requires least { 1 ≤ number }
    requires most { number ≤ MOST_BENCH }
    ensures { IfOk result (λ problem. problem.formulas ≡ bench_formulas number) }
{
    let mut formulas = AnnotatedList::new(alloc);
    let first = first_link(alloc)?;
    formulas.push(first)?;
    push_links(alloc, &mut formulas, number)?;
    let back = back_link(alloc)?;
    formulas.push(back)?;
    let last = last_link(alloc, number)?;
    formulas.push(last)?;
    Ok(Problem { formulas })
}

/// Adds so many links.
fn push_links(alloc: Global, formulas: &mut AnnotatedList, number: u32) -> Mem<()>
    requires { number ≤ MOST_BENCH }
    ensures { IfOk result (λ _. formulas.new ≡ formulas.old ++ map link_of (range_with_len 1 number)) }
{
    for links in 0..number {
        let next = link(alloc, links + 1)?;
        formulas.push(next)?;
    }
    Ok(())
}

/// `fof(s,axiom,p0(z))`.
fn first_link(alloc: Global) -> Mem<Annotated>
    ensures { IfOk result (λ formula. formula ≡ first_of_links) }
{
    let constant = constant_term(alloc)?;
    let formula = chained(alloc, 0, constant)?;
    let name = Text::from_slice(alloc, b"s")?;
    Ok(bench_formula(name, Role::Axiom, formula))
}

/// `fof(rI,axiom,! [X] : (pJ(X) => pI(g(X,z))))`, where J is I - 1.
fn link(alloc: Global, number: u32) -> Mem<Annotated>
    requires { 1 ≤ number }
    ensures { IfOk result (λ formula. formula ≡ link_of number) }
{
    let body = implication(alloc, number)?;
    let formula = for_each(alloc, body)?;
    let name = numbered(alloc, b"r", number)?;
    Ok(bench_formula(name, Role::Axiom, formula))
}

/// `pJ(X) => pI(g(X,z))`, where J is I - 1.
fn implication(alloc: Global, number: u32) -> Mem<Formula>
    requires { 1 ≤ number }
    ensures { IfOk result (λ formula. formula ≡ Implies (chained_by (number - 1) variable_x) (chained_by number applied_g)) }
{
    let variable = variable_term(alloc)?;
    let premise = chained(alloc, number - 1, variable)?;
    let applied = applied_term(alloc)?;
    let conclusion = chained(alloc, number, applied)?;
    let left = FormulaBox::new(alloc, premise)?;
    let right = FormulaBox::new(alloc, conclusion)?;
    Ok(Formula::Implies(left, right))
}

/// `fof(u,axiom,! [X] : g(X,z) = X)`.
fn back_link(alloc: Global) -> Mem<Annotated>
    ensures { IfOk result (λ formula. formula ≡ back) }
{
    let left = applied_term(alloc)?;
    let right = variable_term(alloc)?;
    let formula = for_each(alloc, Formula::Equal(left, right))?;
    let name = Text::from_slice(alloc, b"u")?;
    Ok(bench_formula(name, Role::Axiom, formula))
}

/// `fof(c,conjecture,pN(z))`.
fn last_link(alloc: Global, number: u32) -> Mem<Annotated>
    ensures { IfOk result (λ formula. formula ≡ last_of_links number) }
{
    let constant = constant_term(alloc)?;
    let formula = chained(alloc, number, constant)?;
    let name = Text::from_slice(alloc, b"c")?;
    Ok(bench_formula(name, Role::Conjecture, formula))
}

/// A formula in `fof` that no file has.
fn bench_formula(name: Text, role: Role, formula: Formula) -> Annotated
    ensures { result ≡ bench_formula name role formula }
{
    Annotated {
        name,
        role,
        clause: false,
        formula,
        file: FileName::empty(),
        place: 0,
    }
}

/// A formula for each `X`.
fn for_each(alloc: Global, body: Formula) -> Mem<Formula>
    ensures { IfOk result (λ formula. formula ≡ each_x (formula_of body)) }
{
    let mut names = Texts::new(alloc);
    names.push(Text::from_slice(alloc, b"X")?)?;
    Ok(Formula::All(names, FormulaBox::new(alloc, body)?))
}

/// The predicate of a number, of a term.
fn chained(alloc: Global, number: u32, term: TreeTerm) -> Mem<Formula>
    ensures { IfOk result (λ formula. formula ≡ Pred (chain_name number) (term_of term ∷ [])) }
{
    let name = numbered(alloc, b"p", number)?;
    let mut terms = TreeTerms::new(alloc);
    terms.push(term)?;
    Ok(Formula::Pred(name, terms))
}

/// `X`.
fn variable_term(alloc: Global) -> Mem<TreeTerm>
    ensures { IfOk result (λ term. term_of term ≡ variable_x) }
{
    Ok(TreeTerm::Var(Text::from_slice(alloc, b"X")?))
}

/// `z`.
fn constant_term(alloc: Global) -> Mem<TreeTerm>
    ensures { IfOk result (λ term. term_of term ≡ constant_z) }
{
    let name = Text::from_slice(alloc, b"z")?;
    Ok(TreeTerm::App(name, TreeTerms::new(alloc)))
}

/// `g(X,z)`.
fn applied_term(alloc: Global) -> Mem<TreeTerm>
    ensures { IfOk result (λ term. term_of term ≡ applied_g) }
{
    let name = Text::from_slice(alloc, b"g")?;
    let mut terms = TreeTerms::new(alloc);
    terms.push(variable_term(alloc)?)?;
    terms.push(constant_term(alloc)?)?;
    Ok(TreeTerm::App(name, terms))
}

/// A letter with a number.
fn numbered(alloc: Global, letter: &[u8], number: u32) -> Mem<Text>
    ensures { IfOk result (λ name. name ≡ letter.now ++ decimal number) }
{
    let mut page = Page::new(alloc);
    page.bytes(letter)?;
    page.number(u64::from(number))?;
    Ok(page.into_text())
}
