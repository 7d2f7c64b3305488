// The lengths of numbers.

ghost use Rattle.std.specs.Prelude.{◌≡◌, ◌≤◌, ◌+◌, ◌∷◌, length, drop, true};
ghost use Rattle.std.specs.List.{prefix_len};
ghost use Rattle.tptp_token.specs.Spelling.{is_number, is_exponent, is_digit as digit};
ghost use Rattle.tptp_token.specs.Longest.{longest, behind};
ghost use Rattle.tptp_token.specs.Kinds.{follows_digits};

use crate::piece::starts_with_either;
use crate::word::digit_count;

/// How long a number is, by its first digit and the bytes after it.
pub fn number_length(first: u8, rest: &[u8]) -> usize
    requires { digit first ≡ true }
    ensures length { result ≡ longest is_number (first ∷ rest.now) }
    ensures within { result ≤ length rest.now + 1 }
{
    let whole = digit_count(rest);
    let behind = &rest[whole..];
    let part = fraction_length(behind);
    whole + 1 + part + exponent_length(&behind[part..])
}

/// How long a `.` or a `/` and the digits after it are; 0 where no digit is there.
fn fraction_length(bytes: &[u8]) -> usize
    ensures within { result ≤ length bytes.now }
    ensures length { longest follows_digits bytes.now ≡ result + longest is_exponent (drop result bytes.now) }
{
    if starts_with_either(bytes, b'.', b'/') {
        counted(1, &bytes[1..])
    } else {
        0
    }
}

/// How long an `E` or an `e`, a sign or none, and the digits after it are; 0 where no digit is there.
fn exponent_length(bytes: &[u8]) -> usize
    ensures length { result ≡ longest is_exponent bytes.now }
    ensures within { result ≤ length bytes.now }
{
    if !starts_with_either(bytes, b'E', b'e') {
        return 0;
    }
    let rest = &bytes[1..];
    if starts_with_either(rest, b'+', b'-') {
        counted(2, &rest[1..])
    } else {
        counted(1, rest)
    }
}

/// A count of bytes and the digits after them; 0 where no digit is there.
fn counted(before: usize, bytes: &[u8]) -> usize
    requires { before ≤ 2 }
    ensures length { result ≡ behind before (prefix_len digit bytes.now) }
    ensures within { result ≤ before + length bytes.now }
{
    match digit_count(bytes) {
        0 => 0,
        digits => before + digits,
    }
}
