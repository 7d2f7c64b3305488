// The terms among the items of a source.

use tptp_source::*;
use tptp_token::{MOST_TEXT_BYTES, tokens};

/// Two items that are terms of formulas, and one that isn't.
#[test]
fn items_are_terms(rt: HostRuntime) {
    let alloc = rt.alloc();
    let text = b"inference(r,[~spl0,right,f(X,'a')],[])".as_slice();
    assert!(rt; text.len() <= MOST_TEXT_BYTES);
    let lexed = tokens(alloc, text).expect(&rt, "memory");
    let read = read_source(alloc, text, lexed.tokens.as_slice()).expect(&rt, "memory");
    let Some(Source::Inference { items, .. }) = read else {
        panic!(rt; "no inference");
    };
    let terms = items.as_slice();
    assert!(rt; terms.len() == 3);
    let none = formula_term_of(alloc, &terms[0]).expect(&rt, "memory");
    assert!(rt; none.is_none());
    let two = formula_terms_of(alloc, &terms[1..]).expect(&rt, "memory");
    assert!(rt; two.expect(&rt, "terms").len() == 2);
}
