//! Simulates the nets of a module: reads a text, runs time slot 0, and writes a trace and a witness.
#![tactic(auto)]

mod command;
mod program;
mod run;
mod slot;
#[cfg(test)]
mod tests;
mod writing;

use nt_io::{FileInputs, FileSink, OutSink};
pub use program::{Status, simulate};
use std::alloc::AllocError;
use std::env;
use std::process::ExitCode;
use std::rt::Env;

impl Status {
    ghost use Rattle.std.specs.Prelude.{◌≡◌};
    ghost use Rattle.nettype_sim.specs.Statuses.{status_number};

    /// The exit status of the program.
    pub fn number(self) -> u8
        ensures { result ≡ status_number self }
    {
        match self {
            Status::Done => 0,
            Status::Usage => 2,
            Status::ReadFault => 3,
            Status::WriteFault => 4,
            Status::OutOfMemory => 7,
            Status::NotYet => 12,
        }
    }
}

// The words after the program's name. Words that are not text are as none.
fn words_of(rt: &(impl Env + AllocGlobal)) -> Result<Vec<String>, AllocError> {
    let mut words = Vec::new(rt.alloc());
    if let Ok(all) = env::args(rt) {
        for word in all.skip(1) {
            words.push(word)?;
        }
    }
    Ok(words)
}

fn main(rt: HostRuntime) -> ExitCode {
    let Ok(words) = words_of(&rt) else {
        return ExitCode::from(Status::OutOfMemory.number());
    };
    let mut inputs = FileInputs::new(&rt);
    let mut trace = OutSink::new(&rt);
    let mut witness = FileSink::new(&rt);
    let status = simulate(
        &rt,
        rt.alloc(),
        &words,
        &mut inputs,
        &mut trace,
        &mut witness,
    );
    ExitCode::from(status.number())
}
