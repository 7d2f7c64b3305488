// The names of files, which the formulas of a file share.

ghost use Rattle.std.specs.Prelude.{◌≡◌, [], IfOk};

use plain_types::{Mem, Text};
use std::alloc::Global;
use std::marker::Model;
use std::rc::Rc;

/// The name of a file, which contracts see as its bytes. A copy shares its memory.
#[derive(Drop)]
pub struct FileName {
    /// None where the name is empty, so that it takes no memory.
    shared: Option<Rc<Text>>,
}

impl Model for FileName {
    ghost use Rattle.std.specs.Prelude.{List, ℕ};
    ghost use Rattle.tptp_tree.specs.FileNames.{shared_bytes};

    ghost Value = { List ℕ };

    ghost view = { λ a. shared_bytes a.shared };
}

impl FileName {
    /// The empty name. It takes no memory.
    pub fn empty() -> FileName
        ensures { result ≡ [] }
    {
        FileName { shared: None }
    }

    /// A name of these bytes.
    pub fn from_slice(alloc: Global, bytes: &[u8]) -> Mem<FileName>
        ensures { IfOk result (λ name. name ≡ bytes.now) }
    {
        let text = Text::from_slice(alloc, bytes)?;
        Ok(FileName {
            shared: Some(Rc::new(alloc, text)?),
        })
    }

    /// Another owner of the name. It takes no memory, and is refused only where as many share the name as a number can count.
    pub fn share(&self) -> Mem<FileName>
        ensures { IfOk result (λ name. name ≡ self.now) }
    {
        match &self.shared {
            None => Ok(FileName::empty()),
            Some(text) => Ok(FileName {
                shared: Some(text.clone()?),
            }),
        }
    }

    /// Its bytes, lent.
    pub fn as_slice(&self) -> &[u8]
        ensures { result.now ≡ self.now }
    {
        match &self.shared {
            None => &[],
            Some(text) => text.as_slice(),
        }
    }
}
