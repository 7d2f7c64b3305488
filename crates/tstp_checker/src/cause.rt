// Why derivations are refused.

/// Why a line of a derivation is refused. The causes stand in the order in which they are asked.
#[derive(Clone, Copy, PartialEq, Eq, Debug)]
pub enum Cause {
    /// No line can be read there, or a clause line isn't written as one.
    Text,
    /// The line's name is that of an earlier line.
    Order,
    /// A parent isn't the name of an earlier line.
    UnknownParent,
    /// The problem has no such formula.
    Leaf,
    /// The form has no such clause, or not from this parent, or the items aren't those of the row.
    Clausify,
    /// The bindings don't fit the parents.
    Binding,
    /// There is no such rule, or the items or the parents aren't those of its row, or its condition fails.
    Rule,
    /// The formula or the clause isn't what the rule gives.
    Conclusion,
    /// The clause or a binding has a symbol that the form doesn't have, or a name isn't new.
    NewSymbol,
    /// After the last line: it isn't the empty clause.
    NoEmptyClause,
}
