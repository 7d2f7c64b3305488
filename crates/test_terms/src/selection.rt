// Chosen and eligible literals on rows worked out by hand. Symbols rise as their letters.

use kbo_order::COMPARED_SIZE_LIMIT;
use literal_selection::*;
use sample::clause;

#[test]
fn literals_are_chosen(rt: HostRuntime) {
    let mixed = "p(a) | f(a) != b | a != b";
    let rows = [
        (mixed, Selection::Negative, Some(1)),
        (mixed, Selection::Nothing, None),
        ("a != b | b != a", Selection::Negative, Some(0)),
        ("p(a)", Selection::Negative, None),
    ];
    for (text, mode, answer) in rows {
        let read = clause(rt.alloc(), text).expect(&rt, "memory");
        assert!(rt; read.size() < COMPARED_SIZE_LIMIT);
        assert!(rt; selected(&read.literals, mode) == answer, "{text}");
    }
}

#[test]
fn eligible_literals_are_told(rt: HostRuntime) {
    let unordered = "p(X0) | p(a)";
    let repeated = "p(a) | p(a)";
    let rising = "p(a) | q(a)";
    let rows = [
        (unordered, 0, None, true, true),
        (unordered, 1, None, true, true),
        (repeated, 0, None, true, false),
        (repeated, 1, None, false, true),
        (rising, 0, None, false, false),
        (rising, 1, None, true, true),
        (rising, 0, Some(0), true, true),
        (rising, 1, Some(0), false, false),
    ];
    for (text, index, chosen, strict, answer) in rows {
        let read = clause(rt.alloc(), text).expect(&rt, "memory");
        assert!(rt; read.size() < COMPARED_SIZE_LIMIT);
        assert!(rt; index < read.literals.len());
        assert!(rt;
            eligible(&read.literals, index, chosen, strict) == answer,
            "{text}"
        );
    }
}
