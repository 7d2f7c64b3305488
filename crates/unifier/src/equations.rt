// A few equations of a variable and a term, which take no memory.

ghost use Rattle.std.specs.Prelude.{◌≡◌, ◌==◌, ◌<◌, length, option_map, slice_set, MatchBool};
ghost use Rattle.std.specs.List.{list_any};
ghost use Rattle.unifier.specs.Equations.{HasNone, IsWithEquation, IsWithNoted, bound_in, item_of, noted_of};

use crate::equation::{Equation, Equations, MOST_EQUATIONS, MOST_NOTED, SideTerm};

impl<'a> Equations<'a> {
    /// No equations. The term stands where none is.
    pub fn none(anything: SideTerm<'a>) -> Equations<'a>
        ensures { HasNone result }
    {
        let nothing = Equation {
            code: 0,
            bound: anything,
        };
        Equations {
            items: [nothing; MOST_EQUATIONS],
            len: 0,
            noted: [0; MOST_NOTED],
            noted_len: 0,
        }
    }

    /// The term to which a variable is equal.
    pub fn find(&self, code: u64) -> Option<SideTerm<'a>>
        ensures { option_map item_of result ≡ bound_in self.now code }
    {
        for equation in self.items[..self.len.min(MOST_EQUATIONS)].iter() {
            if equation.code == code {
                return Some(equation.bound);
            }
        }
        None
    }

    /// The mark of a variable's equation, one bit for each; none where it has no equation.
    pub fn mark(&self, code: u64) -> u8 {
        let mut mark = 1u8;
        for equation in self.items[..self.len.min(MOST_EQUATIONS)].iter() {
            if equation.code == code {
                return mark;
            }
            mark = mark.wrapping_shl(1);
        }
        0
    }

    /// Notes a variable that met itself, once. False where there is no room.
    pub fn note(&mut self, code: u64) -> bool
        ensures { MatchBool result (IsWithNoted self.old self.new code) (self.new ≡ self.old) }
    {
        if self.is_noted(code) {
            return true;
        }
        let place = self.noted_len;
        if place >= MOST_NOTED {
            return false;
        }
        self.noted[place] = code;
        self.noted_len = place + 1;
        true
    }

    /// Whether a variable is noted.
    fn is_noted(&self, code: u64) -> bool
        ensures { result ≡ list_any (λ v. v == code) (noted_of self.now) }
    {
        self.noted[..self.noted_len.min(MOST_NOTED)]
            .iter()
            .any(|noted| *noted == code)
    }

    /// Adds an equation of a variable that has none. False where there is no room.
    pub fn add(&mut self, code: u64, bound: SideTerm<'a>) -> bool
        requires { bound_in self.old code ≡ None }
        ensures { MatchBool result (IsWithEquation self.old self.new code (item_of bound.entry)) (self.new ≡ self.old) }
    {
        let place = self.len;
        if place >= MOST_EQUATIONS {
            return false;
        }
        store(&mut self.items, place, Equation { code, bound });
        self.len = place + 1;
        true
    }
}

fn store<'a>(items: &mut [Equation<'a>], place: usize, equation: Equation<'a>)
    requires { place < length items.old }
    ensures { items.new ≡ slice_set items.old place equation.entry }
{
    items[place] = equation;
}
