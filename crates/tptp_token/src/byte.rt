// Tests of single bytes.

ghost use Rattle.std.specs.Prelude.{◌≡◌, ◌==◌, codes};
ghost use Rattle.std.specs.List.{list_any};
ghost use Rattle.tptp_token.specs.Spelling.{is_lower as lower, is_upper as upper, is_digit as digit, is_word_byte as word_byte, is_printable as printable, marks, other_signs};
ghost use Rattle.tptp_token.specs.Pieces.{is_blank as blank};

/// Tab, line feed, vertical tab, form feed, carriage return or space.
pub fn is_blank(byte: u8) -> bool
    ensures { result ≡ blank byte }
{
    matches!(byte, 9..=13 | b' ')
}

pub fn is_lower(byte: u8) -> bool
    ensures { result ≡ lower byte }
{
    byte.is_ascii_lowercase()
}

pub fn is_upper(byte: u8) -> bool
    ensures { result ≡ upper byte }
{
    byte.is_ascii_uppercase()
}

pub fn is_digit(byte: u8) -> bool
    ensures { result ≡ digit byte }
{
    byte.is_ascii_digit()
}

/// A letter, a digit or an underscore.
pub fn is_word_byte(byte: u8) -> bool
    ensures { result ≡ word_byte byte }
{
    byte.is_ascii_alphanumeric() || byte == b'_'
}

/// A byte of ASCII that is shown, or the space.
pub fn is_printable(byte: u8) -> bool
    ensures { result ≡ printable byte }
{
    matches!(byte, b' '..=b'~')
}

/// A round or a square bracket, a comma, a full stop or a colon.
pub fn is_mark(byte: u8) -> bool
    ensures { result ≡ list_any (λ sign. byte == sign) marks }
{
    matches!(byte, b'(' | b')' | b'[' | b']' | b',' | b'.' | b':')
}

/// A connective that no other one begins with, and that begins with no other one.
pub fn is_lone_connective(byte: u8) -> bool
    ensures { result ≡ list_any (λ sign. byte == sign) (codes "&|?") }
{
    matches!(byte, b'&' | b'|' | b'?')
}

/// A sign that stands alone.
pub fn is_other_sign(byte: u8) -> bool
    ensures { result ≡ list_any (λ sign. byte == sign) other_signs }
{
    matches!(
        byte,
        b'+' | b'-' | b'*' | b'/' | b'<' | b'>' | b'@' | b'^' | b';' | b'{' | b'}' | b'#'
    )
}
