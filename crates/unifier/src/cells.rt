// The cells of terms that are laid out in one list.

ghost use Rattle.std.specs.Prelude.{◌≡◌};
ghost use Rattle.unifier.specs.Cells.{is_variable, is_variable_of, list_parts, relate};

/// A term or a list of terms, by the numbers of the cells of its parts, which come before it.
#[derive(Clone, Copy)]
pub enum Cell {
    /// A variable, by its number among those of both sides.
    Variable(u64),
    /// A symbol applied to a list.
    Application(u32, usize),
    /// The empty list.
    NoTrees,
    /// A list of a first term and the rest.
    TreeThen(usize, usize),
}

/// The condition under which two cells have one value.
#[derive(Clone, Copy)]
pub enum Relation {
    /// Nothing more.
    Same,
    /// It can't be.
    Clash,
    /// The first two parts must have one value, and so must the other two.
    Parts(usize, usize, usize, usize),
}

impl Cell {
    /// Whether this is a variable.
    pub fn is_variable(self) -> bool
        ensures { result ≡ is_variable self }
    {
        match self {
            Cell::Variable(_) => true,
            Cell::Application(_, _) | Cell::NoTrees | Cell::TreeThen(_, _) => false,
        }
    }

    /// Whether this is the variable of a number.
    pub fn is_variable_of(self, code: u64) -> bool
        ensures { result ≡ is_variable_of code self }
    {
        match self {
            Cell::Variable(other) => other == code,
            Cell::Application(_, _) | Cell::NoTrees | Cell::TreeThen(_, _) => false,
        }
    }

    /// The first term and the rest of a list that isn't empty.
    pub fn list_parts(self) -> Option<(usize, usize)>
        ensures { result ≡ list_parts self }
    {
        match self {
            Cell::TreeThen(first, rest) => Some((first, rest)),
            Cell::Variable(_) | Cell::Application(_, _) | Cell::NoTrees => None,
        }
    }

    /// The condition under which this cell and another have one value.
    pub fn relation(self, other: Cell) -> Relation
        ensures { result ≡ relate self other }
    {
        match self {
            Cell::Variable(_) => Relation::Same,
            Cell::Application(symbol, list) => Cell::application_relation(symbol, list, other),
            Cell::NoTrees => match other {
                Cell::Variable(_) | Cell::NoTrees => Relation::Same,
                Cell::Application(_, _) | Cell::TreeThen(_, _) => Relation::Clash,
            },
            Cell::TreeThen(first, rest) => match other {
                Cell::Variable(_) => Relation::Same,
                Cell::Application(_, _) | Cell::NoTrees => Relation::Clash,
                Cell::TreeThen(other_first, other_rest) => {
                    Relation::Parts(first, other_first, rest, other_rest)
                }
            },
        }
    }

    fn application_relation(symbol: u32, list: usize, other: Cell) -> Relation
        ensures { result ≡ relate (Cell.Application symbol list) other }
    {
        match other {
            Cell::Variable(_) => Relation::Same,
            Cell::NoTrees | Cell::TreeThen(_, _) => Relation::Clash,
            Cell::Application(other_symbol, other_list) => {
                if symbol == other_symbol {
                    Relation::Parts(list, other_list, list, other_list)
                } else {
                    Relation::Clash
                }
            }
        }
    }
}
