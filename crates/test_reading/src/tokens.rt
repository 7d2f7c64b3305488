// Tokens: outside rows, and that calls succeed, which no clause says.

use std::alloc::Global;
use std::process::Abort;
use tptp_token::*;

/// A text's tokens: for each the letter of its kind, a `:`, its bytes and a blank. And the fault.
fn shown(rt: &impl Abort, alloc: Global, text: &[u8]) -> (Vec<u8>, Option<LexFault>) {
    assert!(rt; text.len() <= MOST_TEXT_BYTES);
    let lexed = tokens(alloc, text).expect(rt, "memory");
    let mut all = Vec::new(alloc);
    for token in lexed.tokens.as_slice() {
        all.push(letter(token.kind)).expect(rt, "memory");
        all.push(b':').expect(rt, "memory");
        let bytes = text.get(token.start as usize..token.end as usize);
        all.extend_from_slice(bytes.unwrap_or(b"?".as_slice()))
            .expect(rt, "memory");
        all.push(b' ').expect(rt, "memory");
    }
    (all, lexed.fault)
}

fn letter(kind: Kind) -> u8 {
    match kind {
        Kind::Lower => b'l',
        Kind::Variable => b'v',
        Kind::Quoted => b'q',
        Kind::Distinct => b'd',
        Kind::Dollar => b's',
        Kind::Number => b'n',
        Kind::Connective => b'c',
        Kind::Mark => b'm',
        Kind::Other => b'o',
    }
}

/// A text, what is shown of its tokens, and its fault.
type Row = (&'static [u8], &'static [u8], Option<LexFault>);

/// Words of each kind.
const WORDS: &[Row] = &[
    (b"p(X)", b"l:p m:( v:X m:) ", None),
    (b"p _", b"l:p ", Some(LexFault::BadByte(2))),
    (b"'ab", b"", Some(LexFault::Unclosed(0))),
    (b"a_B9c Z", b"l:a_B9c v:Z ", None),
    (b"$true$$x", b"s:$true s:$$x ", None),
    (b"a$ b", b"l:a ", Some(LexFault::BadByte(1))),
    (b"$$X", b"", Some(LexFault::BadByte(0))),
    (b"$$$a", b"", Some(LexFault::BadByte(0))),
    (b"\x80", b"", Some(LexFault::BadByte(0))),
    (b"", b"", None),
];

/// Quotes, and where they end.
const QUOTES: &[Row] = &[
    (b"'\\''b", b"q:'\\'' l:b ", None),
    (b"'\\\\'", b"q:'\\\\' ", None),
    (b"''", b"", Some(LexFault::BadByte(1))),
    (b"\"\"", b"d:\"\" ", None),
    (b"\"'\\\"\"", b"d:\"'\\\"\" ", None),
    (b"'a\\b'", b"", Some(LexFault::BadByte(2))),
    (b"'a\\", b"", Some(LexFault::Unclosed(0))),
    (b"x 'a\nb'", b"l:x ", Some(LexFault::BadByte(4))),
    (b"x \"a", b"l:x ", Some(LexFault::Unclosed(2))),
    (b"'a b~'", b"q:'a b~' ", None),
];

/// Numbers end early where what follows is none of theirs.
const NUMBERS: &[Row] = &[
    (b"012 3", b"n:012 n:3 ", None),
    (b"3.5e2", b"n:3.5e2 ", None),
    (b"3.", b"n:3 m:. ", None),
    (b"3.e2", b"n:3 m:. l:e2 ", None),
    (b"3/4E-1", b"n:3/4E-1 ", None),
    (b"3/x", b"n:3 o:/ l:x ", None),
    (b"3E+", b"n:3 v:E o:+ ", None),
    (b"3e", b"n:3 l:e ", None),
    (b"1.2.3", b"n:1.2 m:. n:3 ", None),
    (b"-1", b"o:- n:1 ", None),
    (b"1/*2*/3", b"n:1 n:3 ", None),
];

/// The longest sign is taken.
const SIGNS: &[Row] = &[
    (b"!=!a=b", b"c:!= c:! l:a c:= l:b ", None),
    (b"~|~&~~", b"c:~| c:~& c:~ c:~ ", None),
    (b"<=><~><=<~<", b"c:<=> c:<~> c:<= o:< c:~ o:< ", None),
    (b"=>=&|?", b"c:=> c:= c:& c:| c:? ", None),
    (b"()[],.:{}", b"m:( m:) m:[ m:] m:, m:. m:: o:{ o:} ", None),
    (
        b"+-*/<>@^;#",
        b"o:+ o:- o:* o:/ o:< o:> o:@ o:^ o:; o:# ",
        None,
    ),
    (b"`", b"", Some(LexFault::BadByte(0))),
];

/// Comments and blanks are passed over.
const COMMENTS: &[Row] = &[
    (b"a%b\nc", b"l:a l:c ", None),
    (b"a%b\rc", b"l:a ", None),
    (b"a%", b"l:a ", None),
    (b"a/**/b", b"l:a l:b ", None),
    (b"a/*\xff'*/b", b"l:a l:b ", None),
    (b"a/*/b", b"l:a ", Some(LexFault::Unclosed(1))),
    (b"a/*/*/b", b"l:a l:b ", None),
    (b"/***/a", b"l:a ", None),
    (b"%/*\na", b"l:a ", None),
    (b"\t\n\x0b\x0c\r a", b"l:a ", None),
];

#[test]
fn tells_tokens_apart(rt: HostRuntime) {
    for rows in [WORDS, QUOTES, NUMBERS, SIGNS, COMMENTS] {
        for (index, (text, wanted, fault)) in rows.iter().enumerate() {
            let (all, found) = shown(&rt, rt.alloc(), text);
            assert!(rt; all.as_slice() == *wanted, "row {index}");
            assert!(rt; found == *fault, "row {index}");
        }
    }
}
