//! Answers questions about a mesh file.
#![tactic(auto)]

ghost use Rattle.std.specs.Prelude.{◌≡◌};
ghost use Rattle.std.specs.Process.{exit_status};
ghost use Rattle.octopus.specs.Codes.{code_of};

mod commands;
mod deliver;
mod files;
mod intake;
mod lines;
mod one_step;
mod outcome;
mod plain;
mod refusal;
mod status;
mod threads;

use crate::plain::plain;
use crate::status::Status;
use crate::threads::octopus;
use oct_edge::{DiskFolder, NoGate, StdSink};
use std::process::ExitCode;
use std::{env, io};

// The words after the program's name.
fn words_of(rt: &HostRuntime) -> io::Result<Vec<String>> {
    let mut words = Vec::new(rt.alloc());
    for word in env::args(rt)?.skip(1) {
        words.push(word)?;
    }
    Ok(words)
}

// The status for words that could not be taken: some aren't text, or there was no memory.
fn without_words(rt: &HostRuntime, why: io::ErrorKind) -> Status {
    if why == io::ErrorKind::OutOfMemory {
        return Status::Memory;
    }
    let mut folder = DiskFolder::new(rt);
    plain(rt.alloc(), &[], &mut folder, &mut StdSink::new(rt))
}

// How the process ends.
fn exit_of(status: Status) -> ExitCode
    ensures { exit_status result ≡ code_of status }
{
    ExitCode::from(status.code())
}

fn main(rt: HostRuntime) -> ExitCode {
    let status = match words_of(&rt) {
        Ok(words) => {
            let mut folder = DiskFolder::new(&rt);
            octopus(
                &rt,
                rt.alloc(),
                &words,
                &mut folder,
                &mut StdSink::new(&rt),
                &NoGate,
            )
        }
        Err(error) => without_words(&rt, error.kind()),
    };
    exit_of(status)
}

#[cfg(test)]
mod tests;
