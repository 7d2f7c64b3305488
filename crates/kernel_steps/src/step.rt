// Steps and lines of derivations.

ghost use Rattle.std.specs.Prelude.{◌≡◌};
ghost use Rattle.kernel_steps.specs.Derivation.{is_clause_step, introduces_name};
ghost use Rattle.kernel_steps.specs.Conclusion.{is_rule_step};
ghost use Rattle.kernel_steps.specs.declared.step.StepFault.TheVariants.{NoMemory};

use fol_base::{Clause, Position, Side, Terms};
use plain_types::{Names, NoMemory, Numbers, Parts, Sequence};

/// A step of a derivation. Parents are looked up by their numbers; literals and arguments count from 0; a
/// list of terms binds the variables of a parent, by number.
#[derive(Drop)]
pub enum Step {
    /// A formula of the problem, by its place.
    Input(u32),
    /// The negation of the conjecture, by its place.
    Negate(u32),
    /// A clause of the clausal form, by its number.
    Clausify(u64),
    /// Superposition: the side `from_side` of literal `from` of the first parent stands at the place of the
    /// side `into_side` of literal `into` of the second, and the other side takes its place.
    Para {
        first: u64,
        second: u64,
        from: u64,
        from_side: Side,
        into: u64,
        into_side: Side,
        place: Position,
        first_bind: Terms,
        second_bind: Terms,
    },
    /// Equality resolution: a literal `t != t` goes.
    Refl {
        parent: u64,
        literal: u64,
        bind: Terms,
    },
    /// Equality factoring: of two equations with an equal side the literal `becomes` becomes the disequation
    /// of their other sides.
    Factor {
        parent: u64,
        becomes: u64,
        becomes_side: Side,
        other: u64,
        other_side: Side,
        bind: Terms,
    },
    /// Merging: of two equal literals the second goes.
    Merge {
        parent: u64,
        stays: u64,
        goes: u64,
        bind: Terms,
    },
    /// The definition of a name, which stands for the line's literals: the literals, or not the name.
    Component(u32),
    /// The other half of the definition of a name that stands for one ground positive literal: not the
    /// literal, or the name.
    Opposite(u32),
    /// Splitting: the literals fall into parts that share no variables, and for each part the opposite of the
    /// name on its definition's line takes their place. The definitions are the numbers of component and
    /// opposite lines, one for each part.
    Split {
        parent: u64,
        definitions: Numbers,
        parts: Parts,
    },
    /// Resolution on names: from the names of the first parent, each pivot in turn with the next parent.
    Chain {
        parents: Numbers,
        pivots: Names,
    },
}

impl Step {
    /// Whether a line of this step is one of a clause. Input and negate lines are lines of formulas.
    pub fn is_clause_step(&self) -> bool
        ensures { result ≡ is_clause_step self.now }
    {
        !matches!(self, Step::Input(_) | Step::Negate(_))
    }

    /// Whether this is the definition of a name.
    pub fn introduces_name(&self) -> bool
        ensures { result ≡ introduces_name self.now }
    {
        matches!(self, Step::Component(_) | Step::Opposite(_))
    }

    /// Whether this is one of the steps that conclude from parents by a rule.
    pub fn is_rule_step(&self) -> bool
        ensures { result ≡ is_rule_step self.now }
    {
        matches!(
            self,
            Step::Para { .. }
                | Step::Refl { .. }
                | Step::Factor { .. }
                | Step::Merge { .. }
                | Step::Split { .. }
                | Step::Chain { .. }
        )
    }
}

/// A line: how it comes about, and its clause, which is the empty one for an input or negate line.
#[derive(Drop)]
pub struct Line {
    pub step: Step,
    pub clause: Clause,
}

/// Lines, in order.
pub type Derivation = Sequence<Line>;

/// A clause that was handed in, reduced: the result, the lines that lead to it, and the numbers of the
/// clauses that they use. In these lines a parent below `CLAUSE_NUMBERS` is a clause with that number,
/// `CLAUSE_NUMBERS` is the clause that was handed in, and `CLAUSE_NUMBERS + 1 + i` is line i.
#[derive(Drop)]
pub struct Reduced {
    pub clause: Clause,
    pub lines: Derivation,
    pub used: Numbers,
}

/// Numbers of clauses are below this; where lines go on from clauses, theirs are not.
pub const CLAUSE_NUMBERS: u64 = 1 << 32;

/// Why a step has no conclusion.
#[derive(Clone, Copy, Debug, PartialEq, Eq)]
pub enum StepFault {
    /// A binding has the wrong length or has `$true`, or makes its parent too large.
    Binding,
    /// The condition of the rule fails.
    Rule,
    /// Out of memory.
    NoMemory,
}

impl From<NoMemory> for StepFault {
    ghost from_gives = { λ _ e. e ≡ NoMemory };

    fn from(_error: NoMemory) -> StepFault {
        StepFault::NoMemory
    }
}
