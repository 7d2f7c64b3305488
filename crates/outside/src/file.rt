// A library over the real files.
ghost use Rattle.std.specs.Prelude.{◌≡◌, ◌<◌, ◌≤◌, None, refl, IfOk, IsErrOf, vec_len};
ghost use Rattle.outside.specs.declared.fault.LoadFault.TheVariants.{Failed, TooLong};
ghost use Rattle.outside.specs.Faults.{Rose};
ghost use Rattle.outside.specs.Read.{ReadsFront, IsReadFrom, IsReadBeyond};

use crate::fault::LoadFault;
use crate::library::Library;
use std::alloc::Global;
use std::io::{ErrorKind, Read};
use std::rt::Files;
use std::{fs, io};

/// The files of the system, by their paths. It tells nothing of what they hold.
#[derive(Drop)]
pub struct FileLibrary<'a, R> {
    rt: &'a R,
    faults: u64,
    found: usize,
}

impl<'a, R> FileLibrary<'a, R> {
    ghost use Rattle.outside.specs.Real.{file_faults};

    /// A library that has not failed yet.
    pub fn new(rt: &'a R) -> FileLibrary<'a, R>
        ensures { file_faults result ≡ 0 }
    {
        FileLibrary {
            rt,
            faults: 0,
            found: 0,
        }
    }

    /// How many loads have failed.
    pub fn faults(&self) -> u64
        ensures { result ≡ file_faults self.now }
    {
        self.faults
    }
}

impl<R: Files> Library for FileLibrary<'_, R> {
    ghost use Rattle.outside.specs.Memory.{faults_after};
    ghost use Rattle.outside.specs.Real.{file_faults, file_found};

    ghost told = { λ _. None };

    ghost faults = { file_faults };

    ghost failed = { λ _. None };

    ghost found = { file_found };

    fn load(&mut self, alloc: Global, name: &str, limit: usize) -> Result<Vec<u8>, LoadFault>
        ensures count { file_faults self.new ≡ faults_after result (file_faults self.old) }
        // The bytes were read from a file, to its end. No clause says from which file, or from where in it.
        ensures read { IfOk result (λ bytes. IsReadFrom R.File.remaining limit bytes.items) }
        // A text that is too long was read from a file too, up to a byte more than the limit.
        ensures beyond { IsErrOf result TooLong →
            IsReadBeyond R.File.remaining limit (file_found self.new) }
        // The clauses of the trait that are not of what is told.
        ensures within { IfOk result (λ bytes. vec_len bytes ≤ limit) }
        ensures too_long { IsErrOf result TooLong → limit < file_found self.new }
        ensures later { file_faults self.old ≤ file_faults self.new }
        ensures cause { IsErrOf result Failed →
            Rose (file_faults self.old) (file_faults self.new) }
    {
        match read_file(self.rt, alloc, name, limit) {
            Ok(bytes) if bytes.len() > limit => {
                self.found = bytes.len();
                Err(LoadFault::TooLong)
            }
            Ok(bytes) => Ok(bytes),
            Err(error) if error.kind() == ErrorKind::OutOfMemory => Err(LoadFault::NoMemory),
            Err(_) => {
                self.faults = self.faults.saturating_add(1);
                Err(LoadFault::Failed)
            }
        }
    }

    ghost tells_both = { λ _. refl };
}

// A file's bytes, or one more than `limit` of them where there are more.
fn read_file<R: Files>(rt: &R, alloc: Global, path: &str, limit: usize) -> io::Result<Vec<u8>>
    ensures { IfOk result (λ bytes. IsReadFrom R.File.remaining limit bytes.items) }
{
    read_front(alloc, &mut fs::open(rt, path)?, limit)
}

// The bytes that a reader has left, or one more than `limit` of them where there are more.
fn read_front<R: Read>(alloc: Global, reader: &mut R, limit: usize) -> io::Result<Vec<u8>>
    ensures { IfOk result (λ bytes. ReadsFront (R.remaining reader.old) limit bytes.items) }
{
    let mut bytes = Vec::new(alloc);
    let most = (limit as u64).saturating_add(1);
    reader.take(most).read_to_end(&mut bytes)?;
    Ok(bytes)
}
