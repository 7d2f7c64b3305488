// Walking down two terms side by side: what variables must be equal to for the terms to be equal.

ghost use Rattle.std.specs.Prelude.{◌≡◌, None, map};
ghost use Rattle.fol_base.specs.Tree.{trees_of};
ghost use Rattle.fol_base.specs.Term.{tree_of};
ghost use Rattle.unifier.specs.Equations.{HasNone, bound_in, item_of};
ghost use Rattle.unifier.specs.Agreeing.{Agrees, AgreesInAll, AgreesWithVariable};

use crate::equation::{Equations, SideTerm, SideTerms};
use crate::layout::code;
use fol_base::Term;

/// How many levels of terms and of bindings the walk goes down at most.
const MOST_LEVELS: u32 = 64;

/// How many pairs of terms the walk visits at most. A walk that follows bindings again and again would else
/// take twice as long for each further level of some terms.
const MOST_STEPS: u32 = 256;

/// The result of a walk.
#[derive(Clone, Copy)]
pub enum Walked {
    /// The terms are equal exactly where the equations hold.
    Agreed,
    /// They can't be equal.
    Clashed,
    /// Nothing: the walk is too long, or binds too many variables.
    Stopped,
}

/// The equations so far, and how many more pairs of terms may be visited.
#[derive(Drop)]
pub struct Walk<'a> {
    pub equations: Equations<'a>,
    steps: u32,
}

impl<'a> Walk<'a> {
    /// No equations yet.
    pub fn new(anything: SideTerm<'a>) -> Walk<'a>
        ensures { HasNone result.equations }
    {
        Walk {
            equations: Equations::none(anything),
            steps: MOST_STEPS,
        }
    }

    /// Adds the equations that two terms' being equal forces.
    pub fn walk(&mut self, apart: bool, one: SideTerm<'a>, other: SideTerm<'a>) -> Walked
        ensures { Agrees apart self.old.equations self.new.equations (item_of one.entry) (item_of other.entry) result }
    {
        self.agree(apart, MOST_LEVELS, one, other)
    }

    /// Adds these equations, down a number of levels.
    #[cycle(agree)]
    fn agree(&mut self, apart: bool, levels: u32, one: SideTerm<'a>, other: SideTerm<'a>) -> Walked
        ensures { Agrees apart self.old.equations self.new.equations (item_of one.entry) (item_of other.entry) result }
    {
        if levels == 0 || self.steps == 0 {
            return Walked::Stopped;
        }
        self.steps -= 1;
        match one.term {
            Term::Var(variable) => {
                self.agree_with(apart, levels - 1, code(apart, one.side, *variable), other)
            }
            Term::App(symbol, arguments) => match other.term {
                Term::Var(variable) => {
                    self.agree_with(apart, levels - 1, code(apart, other.side, *variable), one)
                }
                Term::App(other_symbol, others) => {
                    if *symbol != *other_symbol {
                        return Walked::Clashed;
                    }
                    let arguments = SideTerms {
                        side: one.side,
                        terms: arguments.as_slice(),
                    };
                    let others = SideTerms {
                        side: other.side,
                        terms: others.as_slice(),
                    };
                    self.agree_in_all(apart, levels - 1, arguments, others)
                }
            },
        }
    }

    /// Adds the equations of two lists of terms, place by place.
    #[cycle(agree)]
    fn agree_in_all(
        &mut self,
        apart: bool,
        levels: u32,
        one: SideTerms<'a>,
        other: SideTerms<'a>,
    ) -> Walked
        ensures { AgreesInAll apart self.old.equations self.new.equations
            one.entry.side (trees_of (map tree_of one.entry.terms.now)) other.entry.side (trees_of (map tree_of other.entry.terms.now)) result }
    {
        if one.terms.len() != other.terms.len() {
            return Walked::Clashed;
        }
        for index in 0..one.terms.len() {
            let first = SideTerm {
                side: one.side,
                term: &one.terms[index],
            };
            let second = SideTerm {
                side: other.side,
                term: &other.terms[index],
            };
            match self.agree(apart, levels, first, second) {
                Walked::Agreed => {}
                Walked::Clashed => return Walked::Clashed,
                Walked::Stopped => return Walked::Stopped,
            }
        }
        Walked::Agreed
    }

    /// Adds the equations of a variable and a term.
    #[cycle(agree)]
    fn agree_with(&mut self, apart: bool, levels: u32, code: u64, other: SideTerm<'a>) -> Walked
        ensures { AgreesWithVariable apart self.old.equations self.new.equations code (item_of other.entry) result }
    {
        match self.equations.find(code) {
            Some(bound) => self.agree(apart, levels, bound, other),
            None => self.bind(apart, levels, code, other),
        }
    }

    /// Adds the equation of a variable that isn't bound.
    fn bind(&mut self, apart: bool, levels: u32, variable: u64, other: SideTerm<'a>) -> Walked
        requires { bound_in self.old.equations variable ≡ None }
        ensures { AgreesWithVariable apart self.old.equations self.new.equations variable (item_of other.entry) result }
    {
        if let Term::Var(number) = other.term {
            let second = code(apart, other.side, *number);
            if second == variable {
                return if self.equations.note(variable) {
                    Walked::Agreed
                } else {
                    Walked::Stopped
                };
            }
            if let Some(bound) = self.equations.find(second) {
                if levels == 0 {
                    return Walked::Stopped;
                }
                return self.bind(apart, levels - 1, variable, bound);
            }
        }
        if self.equations.add(variable, other) {
            Walked::Agreed
        } else {
            Walked::Stopped
        }
    }
}
