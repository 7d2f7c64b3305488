//! The program: the words of the command line are run as a command, over real files and standard output.
//!
//! What a command answers, and what is proved of it, is the crate `commands`: `run` is called here once, in a thread whose stack is large
//! enough for every input that the limits allow. The stack that the system hands to a process is often smaller, and its environment and its
//! words lie on it. Workers beyond the first have stacks as large.
//!
//! **What isn't proved.** That the words which `main` hands over are those of the command line, and that the process ends with the status. A
//! stored run shows it.
#![tactic(auto)]

use command_reports::MEMORY_OUT;
use command_words::{Command, Words};
use commands::run;
use outside::{FileLibrary, StdoutSink};
use plain_types::{Mem, NoMemory};
use std::env;
use std::io::ErrorKind;
use std::process::ExitCode;
use std::thread::{self, Builder};
use worker_team::{NoGate, STACK_BYTES};

/// The words after the program's name. Words of which one is no text are as none, which is usage.
fn command_words(rt: &HostRuntime) -> Mem<Words> {
    let mut words = Words::new(rt.alloc());
    match env::args(rt) {
        Ok(arguments) => {
            for word in arguments.skip(1) {
                words.push(word)?;
            }
        }
        Err(error) if error.kind() == ErrorKind::OutOfMemory => return Err(NoMemory),
        Err(_) => {}
    }
    Ok(words)
}

/// The stack of `ground`, in bytes: the terms of a list nest as deep as its weight allows, some 300,000 levels, of up to 1,450 bytes each at -O0.
const GROUND_STACK_BYTES: usize = 512 << 20;

/// How large a stack a command takes.
fn stack_bytes(words: &Words) -> usize {
    match words.command() {
        Some(Command::Ground { .. }) => GROUND_STACK_BYTES,
        _ => STACK_BYTES,
    }
}

/// The command runs in a thread whose stack is large enough. Where the system has no room for that, the program ends as out of memory.
fn main(rt: HostRuntime) -> ExitCode {
    let Ok(words) = command_words(&rt) else {
        return ExitCode::from(MEMORY_OUT);
    };
    let stack = Builder::new().stack_size(stack_bytes(&words));
    let run_command = || {
        let mut library = FileLibrary::new(&rt);
        let mut sink = StdoutSink::new(&rt);
        run(&rt, rt.alloc(), &words, &mut library, &mut sink, &NoGate)
    };
    ExitCode::from(thread::scope(thread::scope_env(), &rt, |scope| {
        match stack.spawn_scoped(scope, run_command) {
            Ok(handle) => handle.join(&rt),
            Err(_) => MEMORY_OUT,
        }
    }))
}
