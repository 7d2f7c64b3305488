// Names between quotes and without.

ghost use Rattle.std.specs.Prelude.{◌≡◌, ◌++◌, false, length, take, IfOk, OnErr};
ghost use Rattle.tptp_token.specs.Words.{unescaped, unquoted as name_in_quotes, name_text, quoted_text};

use crate::word::is_lower_word;
use plain_types::{Mem, Text};
use std::alloc::Global;

/// The name that a quoted word stands for: the text between its quotes, with each escaping `\` left out.
pub fn unquoted(alloc: Global, word: &[u8]) -> Mem<Text>
    ensures { IfOk result (λ name. name ≡ name_in_quotes word.now) }
{
    match word.split_first() {
        None => Ok(Text::new(alloc)),
        Some((_, inside)) => unescaped_text(alloc, inside),
    }
}

/// The text up to the closing quote, with each escaping `\` left out.
fn unescaped_text(alloc: Global, inside: &[u8]) -> Mem<Text>
    ensures { IfOk result (λ name. name ≡ unescaped false inside.now) }
{
    let mut name = Vec::new(alloc);
    let mut escaped = false;
    for byte in inside {
        if escaped {
            name.push(*byte)?;
            escaped = false;
        } else if *byte == b'\'' {
            return Ok(Text::from_vec(name));
        } else if *byte == b'\\' {
            escaped = true;
        } else {
            name.push(*byte)?;
        }
    }
    Ok(Text::from_vec(name))
}

/// Adds a name at the end of a text: bare where it is a lower word, else between single quotes, with a `\` before a quote and
/// a `\`. After an out-of-memory error nothing is added.
pub fn push_name(page: &mut Vec<u8>, name: &[u8]) -> Mem<()>
    ensures added { IfOk result (λ _. page.new.items ≡ page.old.items ++ name_text name.now) }
    ensures unchanged { OnErr result (page.new.items ≡ page.old.items) }
{
    if is_lower_word(name) {
        page.extend_from_slice(name)?;
        return Ok(());
    }
    let before = page.len();
    if let Err(error) = push_quoted(page, name) {
        page.truncate(before);
        return Err(error);
    }
    Ok(())
}

/// Adds a name between quotes.
fn push_quoted(page: &mut Vec<u8>, name: &[u8]) -> Mem<()>
    ensures added { IfOk result (λ _. page.new.items ≡ page.old.items ++ quoted_text name.now) }
    ensures kept { take (length page.old.items) page.new.items ≡ page.old.items }
{
    page.push(b'\'')?;
    for byte in name {
        if *byte == b'\'' || *byte == b'\\' {
            page.push(b'\\')?;
        }
        page.push(*byte)?;
    }
    page.push(b'\'')?;
    Ok(())
}
