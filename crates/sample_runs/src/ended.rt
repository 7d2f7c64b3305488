// A run over memory, and how it ended.

use command_words::Words;
use commands::run;
use outside::{Files, MemFile, MemLibrary, MemSink};
use plain_types::{Mem, Numbers, Text};
use std::alloc::Global;
use std::sync::Wait;
use std::thread::Threads;
use worker_team::{Gate, NoGate};

/// Room for every report of a test, in bytes.
const ROOM: usize = 100_000;

/// How many bytes a sink takes a call where a test doesn't say.
const BYTES_A_CALL: usize = 64;

/// What a run has: words, files, and what fails.
#[derive(Clone, Copy)]
pub struct Run<'l, 't> {
    pub words: &'l [&'t str],
    /// The names and bytes of the files that there are.
    pub files: &'l [(&'t str, &'t [u8])],
    /// The numbers of the loads that fail, from 1.
    pub failing_loads: &'l [u64],
    /// The numbers of the writes that fail, from 1.
    pub failing_writes: &'l [u64],
    /// How many bytes the sink takes a call. None counts as one.
    pub bytes_a_call: usize,
}

/// How a run ended: its status, and what its sink took.
#[derive(Drop)]
pub struct Ended {
    pub status: u8,
    pub report: Text,
}

impl<'l, 't> Run<'l, 't> {
    /// A run in which nothing fails.
    pub fn new(words: &'l [&'t str], files: &'l [(&'t str, &'t [u8])]) -> Run<'l, 't> {
        Run {
            words,
            files,
            failing_loads: &[],
            failing_writes: &[],
            bytes_a_call: BYTES_A_CALL,
        }
    }

    /// How the run ends. Out of memory is told only where there is none for the words and the files.
    pub fn ended<R: Threads + Wait + Sync>(&self, rt: &R, alloc: Global) -> Mem<Ended> {
        self.ended_by(rt, alloc, &NoGate)
    }

    /// The same, where the workers pass a gate.
    pub fn ended_by<R: Threads + Wait + Sync, G: Gate + Sync>(
        &self,
        rt: &R,
        alloc: Global,
        gate: &G,
    ) -> Mem<Ended> {
        let words = words_of(alloc, self.words)?;
        let mut library = library_of(alloc, self.files, self.failing_loads)?;
        let failing = Numbers::from_slice(alloc, self.failing_writes)?;
        let mut sink = MemSink::new(alloc, self.bytes_a_call.max(1), ROOM, failing)?;
        let status = run(rt, alloc, &words, &mut library, &mut sink, gate);
        let report = Text::from_slice(alloc, sink.bytes())?;
        Ok(Ended { status, report })
    }
}

/// How a command on the problem `r.p` and its derivation `d` ends.
pub fn ended_on_derivation<'a, R: Threads + Wait + Sync>(
    rt: &R,
    alloc: Global,
    command: &'a str,
    problem: &'a [u8],
    derivation: &'a [u8],
) -> Mem<Ended> {
    let words = [command, "r.p", "d"];
    let files = [("r.p", problem), ("d", derivation)];
    Run::new(&words, &files).ended(rt, alloc)
}

/// The words of a command.
fn words_of(alloc: Global, words: &[&str]) -> Mem<Words> {
    let mut list = Words::new(alloc);
    for word in words {
        list.push(String::from_str(alloc, word)?)?;
    }
    Ok(list)
}

/// A library of these files, whose loads with these numbers fail.
fn library_of(alloc: Global, files: &[(&str, &[u8])], failing_loads: &[u64]) -> Mem<MemLibrary> {
    let mut list = Files::new(alloc);
    for (name, bytes) in files {
        list.push(MemFile::new(alloc, name, bytes)?)?;
    }
    Ok(MemLibrary::new(alloc, list, Numbers::from_slice(alloc, failing_loads)?))
}
