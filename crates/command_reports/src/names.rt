// The names that a report shows of files.

ghost use Rattle.std.specs.Prelude.{◌≡◌, ◌++◌, IfOk};
ghost use Rattle.command_reports.specs.Names.{shown, shown_byte as shown_as, after_last_slash as behind_slash, without_suffix as before_suffix, problem_name};

use plain_types::{Mem, Text};
use std::alloc::Global;
use tstp_writer::Page;

/// Adds bytes as they are shown: those outside 32 to 126 as question marks.
pub(crate) fn push_shown(page: &mut Page, bytes: &[u8]) -> Mem<()>
    ensures { IfOk result (λ _. page.new ≡ page.old ++ shown bytes.now) }
{
    for byte in bytes {
        page.bytes(&[shown_byte(*byte)])?;
    }
    Ok(())
}

/// A byte as it is shown.
pub fn shown_byte(byte: u8) -> u8
    ensures { result ≡ shown_as byte }
{
    if 32 <= byte && byte <= 126 {
        byte
    } else {
        b'?'
    }
}

/// A path after its last slash.
fn after_last_slash(bytes: &[u8]) -> &[u8]
    ensures { result.now ≡ behind_slash bytes.entry.now }
{
    let mut start = bytes.len();
    while start > 0 && bytes[start - 1] != b'/' {
        start -= 1;
    }
    &bytes[start..]
}

/// The bytes without a final `.p`.
fn without_suffix(bytes: &[u8]) -> &[u8]
    ensures { result.now ≡ before_suffix bytes.entry.now }
{
    if bytes.ends_with(b".p".as_slice()) {
        &bytes[..bytes.len() - 2]
    } else {
        bytes
    }
}

/// The shown name of the problem in a file: the file's path after its last slash, without a final `.p`.
pub fn problem_bytes(file: &str) -> &[u8]
    ensures { shown result.now ≡ problem_name file.entry.now }
{
    without_suffix(after_last_slash(file.as_bytes()))
}

/// Adds the name of the problem in a file.
pub fn push_problem_name(page: &mut Page, file: &str) -> Mem<()>
    ensures { IfOk result (λ _. page.new ≡ page.old ++ problem_name file.now) }
{
    push_shown(page, problem_bytes(file))
}

/// A file's name as it is shown.
pub fn shown_name(alloc: Global, file: &str) -> Mem<Text>
    ensures { IfOk result (λ name. name ≡ shown file.now) }
{
    let mut page = Page::new(alloc);
    push_shown(&mut page, file.as_bytes())?;
    Ok(page.into_text())
}
