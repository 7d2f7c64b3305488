// Names of variables, owned and lent, as keys of a table.

ghost use Rattle.std.specs.Prelude.{◌≡◌, [], ◌∷◌};
ghost use Rattle.std.specs.Cmp.{on_equiv, partial_equiv_from_equiv};
ghost use Rattle.std.specs.Ordering.{on};
ghost use Rattle.skolem.specs.Name.{same_name, name_of, same_names, same_names_hash_alike};

use indexmap::Equivalent;
use plain_types::Text;
use std::hash::{Hash, Hasher};

/// The name of a variable.
#[derive(Drop)]
pub struct VariableName {
    pub text: Text,
}

/// The name of a variable, lent.
#[derive(Clone, Copy)]
pub struct VariableRef<'a> {
    pub text: &'a [u8],
}

impl PartialEq for VariableName {
    ghost eq = { same_name };

    ghost laws = { partial_equiv_from_equiv same_names };

    fn eq(&self, other: &VariableName) -> bool {
        self.text.as_slice() == other.text.as_slice()
    }
}

impl Eq for VariableName {
    ghost laws = { same_names };
}

impl Hash for VariableName {
    ghost hash_input = { λ s. s.text ∷ [] };

    ghost respects_eq = { same_names_hash_alike };

    fn hash<H: Hasher>(&self, state: &mut H) {
        state.write(self.text.as_slice());
    }
}

impl<'a> PartialEq for VariableRef<'a> {
    ghost eq = { on name_of same_name };

    ghost laws = { partial_equiv_from_equiv (on_equiv name_of same_names) };

    fn eq(&self, other: &VariableRef<'a>) -> bool {
        self.text == other.text
    }
}

impl<'a> Eq for VariableRef<'a> {
    ghost laws = { on_equiv name_of same_names };
}

impl<'a> Hash for VariableRef<'a> {
    ghost hash_input = { λ s. s.text.now ∷ [] };

    ghost respects_eq = { λ s t. same_names_hash_alike (name_of s) (name_of t) };

    fn hash<H: Hasher>(&self, state: &mut H) {
        state.write(self.text);
    }
}

impl<'a> Equivalent<VariableName> for VariableRef<'a> {
    ghost equivalent = { λ q s. same_name (name_of q) s };

    ghost respects_hash = { λ q s. same_names_hash_alike (name_of q) s };

    ghost respects_eq = { λ q s t. same_names.congr (name_of q) s t };

    fn equivalent(&self, key: &VariableName) -> bool {
        self.text == key.text.as_slice()
    }
}
