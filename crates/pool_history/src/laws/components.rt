// The law of components: it is the contract of a function without arguments and with an empty body.

ghost use Rattle.pool_history.specs.Components.{ComponentsAreFinest};

/// Whatever the literals are, the components are the finest parts that share no variables.
pub fn components_are_finest()
    ensures { ComponentsAreFinest }
{}
