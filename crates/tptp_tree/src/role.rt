// The roles of formulas, and their words.

ghost use Rattle.std.specs.Prelude.{◌≡◌};
ghost use Rattle.tptp_tree.specs.Entries.{role_word, is_conjecture as conjecture_is, role_of, role_among as first_among};

/// The purpose of a formula in a problem (Sutcliffe 2017). The conjecture is to be proved, all others are taken as given.
#[derive(Clone, Copy, Debug, PartialEq, Eq)]
pub enum Role {
    Axiom,
    Hypothesis,
    Definition,
    Assumption,
    Lemma,
    Theorem,
    Corollary,
    NegatedConjecture,
    Plain,
    Conjecture,
}

/// The roles that `fof` takes, of which `cnf` takes all but the last.
const ROLES: [Role; 10] = [
    Role::Axiom,
    Role::Hypothesis,
    Role::Definition,
    Role::Assumption,
    Role::Lemma,
    Role::Theorem,
    Role::Corollary,
    Role::NegatedConjecture,
    Role::Plain,
    Role::Conjecture,
];

impl Role {
    /// The role that a word names, where it is taken in `cnf` (`clause`) or else in `fof`.
    pub fn of_word(word: &[u8], clause: bool) -> Option<Role>
        ensures { result ≡ role_of clause word.now }
    {
        if clause {
            role_among(&ROLES[..9], word)
        } else {
            role_among(&ROLES, word)
        }
    }

    /// Its word.
    pub fn word(self) -> &'static [u8]
        ensures { result.now ≡ role_word self }
    {
        match self {
            Role::Axiom => b"axiom",
            Role::Hypothesis => b"hypothesis",
            Role::Definition => b"definition",
            Role::Assumption => b"assumption",
            Role::Lemma => b"lemma",
            Role::Theorem => b"theorem",
            Role::Corollary => b"corollary",
            Role::NegatedConjecture => b"negated_conjecture",
            Role::Plain => b"plain",
            Role::Conjecture => b"conjecture",
        }
    }

    /// Whether the formula is to be proved.
    pub fn is_conjecture(self) -> bool
        ensures { result ≡ conjecture_is self }
    {
        matches!(self, Role::Conjecture)
    }
}

/// The first of the roles with that word.
fn role_among(roles: &[Role], word: &[u8]) -> Option<Role>
    ensures { result ≡ first_among roles.now word.now }
{
    for role in roles {
        if role.word() == word {
            return Some(*role);
        }
    }
    None
}
