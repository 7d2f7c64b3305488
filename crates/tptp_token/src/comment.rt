// The lengths of comments.

ghost use Rattle.std.specs.Prelude.{◌≡◌, ◌≤◌, ◌+◌, IfSome, length};
ghost use Rattle.tptp_token.specs.Pieces.{line_length as length_of_line, block_end as end_of_block};

/// How many bytes stand before the next line feed, or the end of the text.
pub fn line_length(bytes: &[u8]) -> usize
    ensures length { result ≡ length_of_line bytes.now }
    ensures within { result ≤ length bytes.now }
{
    bytes
        .iter()
        .position(|byte| *byte == b'\n')
        .unwrap_or(bytes.len())
}

/// How many bytes there are up to the end of the first `*/`; None where there is no `*/`.
pub fn block_end(bytes: &[u8]) -> Option<usize>
    ensures found { result ≡ end_of_block bytes.now }
    ensures within { IfSome result (λ end. end ≤ length bytes.now) }
{
    for at in 1..bytes.len() {
        if bytes[at - 1] == b'*' && bytes[at] == b'/' {
            return Some(at + 1);
        }
    }
    None
}
