// Libraries over memory.
ghost use Rattle.std.specs.Prelude.{◌≡◌, ◌<◌, ◌≤◌, [], List, Some, length, option_copied, refl, IfOk, IsErrOf, IsSomeAnd, vec_len};
ghost use Rattle.outside.specs.declared.fault.LoadFault.TheVariants.{Failed, TooLong};
ghost use Rattle.outside.specs.Faults.{Rose};
ghost use Rattle.outside.specs.Library.{failed_after};
ghost use Rattle.outside.specs.Memory.{bytes_listed};

use crate::fault::LoadFault;
use crate::library::Library;
use plain_types::{Mem, Numbers, Sequence, Text};
use std::alloc::Global;

/// A file in memory.
#[derive(Drop)]
pub struct MemFile {
    pub name: Text,
    pub bytes: Text,
}

/// Files in memory. Of two with one name the first counts.
pub type Files = Sequence<MemFile>;

impl MemFile {
    /// The file with this name and these bytes.
    pub fn new(alloc: Global, name: &str, bytes: &[u8]) -> Mem<MemFile>
        ensures name { IfOk result (λ file. file.name ≡ name.now) }
        ensures bytes { IfOk result (λ file. file.bytes ≡ bytes.now) }
    {
        Ok(MemFile {
            name: Text::from_slice(alloc, name.as_bytes())?,
            bytes: Text::from_slice(alloc, bytes)?,
        })
    }
}

/// A library over files in memory, of which chosen calls fail.
#[derive(Drop)]
pub struct MemLibrary {
    files: Files,
    fail: Numbers,
    calls: u64,
    faults: u64,
    failed: Text,
}

impl MemLibrary {
    ghost use Rattle.outside.specs.MemLibrary.{library_files, library_fail, library_calls, library_faults, library_failed};

    /// A library of these files. The calls with these numbers fail, counted from 1, and so does each
    /// load of a name that isn't listed. A call that runs out of memory isn't counted.
    pub fn new(alloc: Global, files: Files, fail: Numbers) -> MemLibrary
        ensures files { library_files result ≡ files }
        ensures fail { library_fail result ≡ fail }
        ensures calls { library_calls result ≡ 0 }
        ensures faults { library_faults result ≡ 0 }
        ensures failed { library_failed result ≡ [] }
    {
        MemLibrary {
            files,
            fail,
            calls: 0,
            faults: 0,
            failed: Text::new(alloc),
        }
    }

    /// How many loads have failed.
    pub fn faults(&self) -> u64
        ensures { result ≡ library_faults self.now }
    {
        self.faults
    }

    /// The name of the last load that failed, or the empty text before the first.
    pub fn failed(&self) -> &[u8]
        ensures { result.now ≡ library_failed self.now }
    {
        self.failed.as_slice()
    }
}

impl Library for MemLibrary {
    ghost use Rattle.outside.specs.Memory.{numbered_load, count_after, calls_after, faults_after, AnswersUnlessNoMemory};
    ghost use Rattle.outside.specs.MemLibrary.{library_files, library_fail, library_calls, library_faults, library_failed};

    ghost told = { λ library. Some (bytes_listed (library_files library)) };

    ghost faults = { library_faults };

    ghost failed = { λ library. Some (library_failed library) };

    fn load(&mut self, alloc: Global, name: &str, limit: usize) -> Result<Vec<u8>, LoadFault>
        ensures answer { AnswersUnlessNoMemory result (numbered_load (library_fail self.old)
            (count_after (library_calls self.old)) limit (bytes_listed (library_files self.old) name.now)) }
        ensures calls { library_calls self.new ≡ calls_after result (library_calls self.old) }
        ensures count { library_faults self.new ≡ faults_after result (library_faults self.old) }
        ensures fail { library_fail self.new ≡ library_fail self.old }
        ensures files { library_files self.new ≡ library_files self.old }
        ensures name { Some (library_failed self.new) ≡
            failed_after name.now result (Some (library_failed self.old)) }
        // The clauses of the trait that these give.
        ensures within { IfOk result (λ bytes. vec_len bytes ≤ limit) }
        ensures bytes { IfOk result (λ bytes.
            bytes_listed (library_files self.old) name.now ≡ Some bytes.items) }
        ensures too_long { IsErrOf result TooLong → IsSomeAnd
            (bytes_listed (library_files self.old) name.now) (λ bytes. limit < length bytes) }
        ensures later { library_faults self.old ≤ library_faults self.new }
        ensures cause { IsErrOf result Failed →
            Rose (library_faults self.old) (library_faults self.new) }
    {
        let number = self.calls.saturating_add(1);
        let found = if self.fail.as_slice().contains(&number) {
            None
        } else {
            bytes_of(&self.files, name.as_bytes())
        };
        match found {
            None => {
                self.failed = Text::from_slice(alloc, name.as_bytes())?;
                self.calls = number;
                self.faults = self.faults.saturating_add(1);
                Err(LoadFault::Failed)
            }
            Some(bytes) if bytes.len() > limit => {
                self.calls = number;
                Err(LoadFault::TooLong)
            }
            Some(bytes) => {
                let copy = bytes.to_vec(alloc)?;
                self.calls = number;
                Ok(copy)
            }
        }
    }

    ghost tells_both = { λ _. refl };
}

/// A library over files in memory that never fails: a name that isn't listed is an empty file.
#[derive(Drop)]
pub struct SureLibrary {
    files: Files,
}

impl SureLibrary {
    ghost use Rattle.outside.specs.MemLibrary.{sure_files};

    /// A library of these files.
    pub fn new(files: Files) -> SureLibrary
        ensures { sure_files result ≡ files }
    {
        SureLibrary { files }
    }
}

impl Library for SureLibrary {
    ghost use Rattle.outside.specs.Memory.{bytes_or_empty, load_within, AnswersUnlessNoMemory};
    ghost use Rattle.outside.specs.MemLibrary.{sure_files};

    ghost told = { λ library. Some (bytes_or_empty (sure_files library)) };

    ghost faults = { λ _. 0 };

    ghost failed = { λ _. Some [] };

    fn load(&mut self, alloc: Global, name: &str, limit: usize) -> Result<Vec<u8>, LoadFault>
        ensures answer { AnswersUnlessNoMemory result
            (load_within limit (bytes_or_empty (sure_files self.old) name.now)) }
        ensures files { sure_files self.new ≡ sure_files self.old }
        ensures sure { IsErrOf result Failed → ⊥ }
        // The clauses of the trait that these give.
        ensures within { IfOk result (λ bytes. vec_len bytes ≤ limit) }
        ensures bytes { IfOk result (λ bytes.
            bytes_or_empty (sure_files self.old) name.now ≡ Some bytes.items) }
        ensures too_long { IsErrOf result TooLong → IsSomeAnd
            (bytes_or_empty (sure_files self.old) name.now) (λ bytes. limit < length bytes) }
    {
        let bytes = bytes_of(&self.files, name.as_bytes()).unwrap_or(&[]);
        if bytes.len() > limit {
            return Err(LoadFault::TooLong);
        }
        Ok(bytes.to_vec(alloc)?)
    }

    ghost tells_both = { λ _. refl };
}

// The bytes of the first file of this name.
fn bytes_of<'a>(files: &'a Files, name: &[u8]) -> Option<&'a [u8]>
    ensures { option_copied result ≡ bytes_listed files.now name.now }
{
    for file in files.iter() {
        if file.name.as_slice() == name {
            return Some(file.bytes.as_slice());
        }
    }
    None
}
