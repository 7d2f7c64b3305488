// Signed names.

ghost use Rattle.std.specs.Prelude.{◌≡◌};
ghost use Rattle.plain_types.specs.Names.{opposite};

use crate::sequence::NameLit;

/// The name with the other sign.
pub fn opposite(name: NameLit) -> NameLit
    ensures { result ≡ opposite name }
{
    NameLit {
        positive: !name.positive,
        name: name.name,
    }
}
