// Names as they are printed, which a clause says: here each call is made once.

use plain_types::Text;
use tptp_tree::*;

/// A name, how it is printed in a formula, and as the name of one.
const ROWS: &[(&[u8], &[u8], &[u8])] = &[
    (b"it's", b"'it\\'s'", b"'it\\'s'"),
    (b"a1", b"a1", b"a1"),
    (b"12", b"'12'", b"12"),
    (b"1a", b"'1a'", b"'1a'"),
];

#[test]
fn names_are_printed(rt: HostRuntime) {
    for (name, in_formula, of_formula) in ROWS {
        let name = Text::from_slice(rt.alloc(), name).expect(&rt, "memory");
        let text = print_name(rt.alloc(), &name).expect(&rt, "memory");
        assert!(rt; text.as_slice() == *in_formula);
        let text = print_formula_name(rt.alloc(), &name).expect(&rt, "memory");
        assert!(rt; text.as_slice() == *of_formula);
    }
}
