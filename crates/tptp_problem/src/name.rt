// The names under which included files are loaded.

ghost use Rattle.std.specs.Prelude.{◌≡◌, IfOk, string_bytes, IsUtf8};
ghost use Rattle.std.specs.Option.{option_copied};
ghost use Rattle.tptp_problem.specs.Files.{folder_of as folder, base_of as base_meant, loaded_name as name_meant, is_absolute as absolute};

use plain_types::Mem;
use std::alloc::Global;

/// The text before the name of an included file: the root and a `/`, where a root is given, else what the first file's
/// name has up to and with its last `/`.
pub fn base_of(alloc: Global, file: &str, root: Option<&str>) -> Mem<String>
    ensures { IfOk result (λ base. string_bytes base ≡ base_meant (option_copied root.entry) file.now) }
{
    match root {
        None => Ok(String::from_str(alloc, folder_of(file))?),
        Some(root) => {
            let mut base = String::from_str(alloc, root)?;
            base.push_str("/")?;
            Ok(base)
        }
    }
}

/// The text up to and with the last `/`.
fn folder_of(path: &str) -> &str
    ensures { result.now ≡ folder path.now }
{
    let bytes = path.as_bytes();
    let mut end = 0;
    for (at, byte) in bytes.iter().enumerate() {
        if *byte == b'/' {
            end = at + 1;
        }
    }
    &path[..end]
}

/// The name under which the file of an include is loaded: one that begins with `/` as it stands, any other after the base.
pub fn loaded_name(alloc: Global, base: &str, word: &[u8]) -> Mem<String>
    requires { IsUtf8 word.now }
    ensures { IfOk result (λ name. string_bytes name ≡ name_meant base.now word.now) }
{
    let word = String::from_utf8_lossy(alloc, word)?;
    if is_absolute(word.as_bytes()) {
        return Ok(word);
    }
    let mut name = String::from_str(alloc, base)?;
    name.push_str(word.as_str())?;
    Ok(name)
}

fn is_absolute(name: &[u8]) -> bool
    ensures { result ≡ absolute name.now }
{
    match name.first() {
        Some(byte) => *byte == b'/',
        None => false,
    }
}
