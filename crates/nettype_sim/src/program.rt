// The top call: all that the program does.
ghost use Rattle.std.specs.Prelude.{◌≡◌, ◌≢◌, ◌⊎◌, [], List, ℕ, OnOk, IfErr, IfOk, IfSome, string_bytes, codes, ◌++◌};
ghost use Rattle.nt_io.specs.Causes.{Rose};
ghost use Rattle.nt_io.specs.Sinks.{Gained};
ghost use Rattle.nt_design.specs.Plain.{IsPlain};
ghost use Rattle.nt_design.specs.WellFormed.{IsDesign};
ghost use Rattle.nt_small.specs.Grammar.{Source, Says};
ghost use Rattle.nt_small.specs.Elaboration.{design_of};
ghost use Rattle.nettype_sim.specs.Words.{AreRunWords, texts_of};
ghost use Rattle.nettype_sim.specs.Writes.{GainsFront};
ghost use Rattle.nettype_sim.specs.Completeness.{IsAnswered};
ghost use Rattle.nettype_sim.specs.Outcomes.{usage_line, not_yet_line, read_fault_line, witness_path, NoRunWords, SaysNothing, Tells, TellsPart, RanDesign, StoppedDesign, RanText, StoppedText, WriteFailed, StoppedWriting, StoppedForMemory, NoneRose};

use crate::command::{Command, command_of};
use crate::run::{Stop, put, run_design};
use nt_design::Design;
use nt_io::{Inputs, ReadError, Sink, read_all};
use nt_small::{MOST_BYTES, design_from_text};
use std::alloc::{AllocError, Global};
use std::thread::Threads;

/// How a call of the program ended. Each status has its exit status.
#[derive(Clone, Copy, Debug, PartialEq, Eq)]
pub enum Status {
    /// The work is complete.
    Done,
    /// The words are not in the command grammar.
    Usage,
    /// The file could not be read.
    ReadFault,
    /// The trace or the witness could not be written.
    WriteFault,
    /// Memory was refused.
    OutOfMemory,
    /// The text is outside the language that is taken today.
    NotYet,
}

// Writes the line of a status.
fn tell<O: Sink>(trace: &mut O, line: &[u8], status: Status) -> Status
    requires { status ≢ Status.WriteFault }
    ensures told { result ≡ status → Gained (O.meaning trace.old) (O.meaning trace.new) line.now }
    ensures part { result ≡ Status.WriteFault → GainsFront (O.meaning trace.old) (O.meaning trace.new) line.now }
    ensures cause { result ≡ Status.WriteFault → Rose (O.meaning trace.old).faults (O.meaning trace.new).faults }
    ensures either { (result ≡ status) ⊎ (result ≡ Status.WriteFault) }
{
    match put(trace, line) {
        Ok(()) => status,
        Err(_) => Status::WriteFault,
    }
}

// The path of the witness of a module.
fn path_of_witness(alloc: Global, top: &str) -> Result<String, AllocError>
    ensures { IfOk result (λ path. string_bytes path ≡ witness_path top.now) }
{
    let mut path = String::from_str(alloc, top)?;
    path.push_str(".wit")?;
    Ok(path)
}

// Runs a design. The answer is a status without a line.
fn run_named<O: Sink, W: Sink>(
    alloc: Global,
    design: &Design,
    top: &str,
    until: u64,
    trace: &mut O,
    witness: &mut W,
) -> Result<(), Stop>
    requires design { IsDesign design.now }
    requires plain { IsPlain design.now }
    ensures whole { OnOk result (RanDesign until design.now (witness_path top.now) (O.meaning trace.old) (O.meaning trace.new) (W.meaning witness.old) (W.meaning witness.new)) }
    ensures part { IfErr result (λ _. StoppedDesign until design.now (O.meaning trace.old) (O.meaning trace.new) (W.meaning witness.old) (W.meaning witness.new)) }
    ensures cause { result ≡ Err Stop.Write → WriteFailed (witness_path top.now) (O.meaning trace.old) (O.meaning trace.new) (W.meaning witness.old) (W.meaning witness.new) }
{
    let path = path_of_witness(alloc, top)?;
    run_design(alloc, design, until, path.as_str(), trace, witness)?;
    Ok(())
}

// Runs what a text says of a module, or tells that it is not taken yet.
fn run_text<O: Sink, W: Sink>(
    alloc: Global,
    text: &[u8],
    top: &str,
    until: u64,
    trace: &mut O,
    witness: &mut W,
) -> Status
    ensures done { result ≡ Status.Done
        → (s : Source) × Says top.now text.now s × RanDesign until (design_of s) (witness_path top.now) (O.meaning trace.old) (O.meaning trace.new) (W.meaning witness.old) (W.meaning witness.new) }
    ensures not_yet { result ≡ Status.NotYet
        → ((s : Source) → Says top.now text.now s → ⊥) × Tells (O.meaning trace.old) (O.meaning trace.new) (W.meaning witness.old) (W.meaning witness.new) not_yet_line }
    ensures write_fault { result ≡ Status.WriteFault
        → (((s : Source) → Says top.now text.now s → ⊥) × TellsPart (O.meaning trace.old) (O.meaning trace.new) (W.meaning witness.old) (W.meaning witness.new) not_yet_line)
        ⊎ (((s : Source) × Says top.now text.now s × StoppedDesign until (design_of s) (O.meaning trace.old) (O.meaning trace.new) (W.meaning witness.old) (W.meaning witness.new))
        × WriteFailed (witness_path top.now) (O.meaning trace.old) (O.meaning trace.new) (W.meaning witness.old) (W.meaning witness.new)) }
    ensures memory { result ≡ Status.OutOfMemory
        → Tells (O.meaning trace.old) (O.meaning trace.new) (W.meaning witness.old) (W.meaning witness.new) []
        ⊎ ((s : Source) × Says top.now text.now s × StoppedDesign until (design_of s) (O.meaning trace.old) (O.meaning trace.new) (W.meaning witness.old) (W.meaning witness.new)) }
    ensures others { (result ≢ Status.Usage) × (result ≢ Status.ReadFault) }
{
    let design = match design_from_text(alloc, text, top.as_bytes()) {
        Ok(Some(design)) => design,
        Ok(None) => return tell(trace, b"not yet\n", Status::NotYet),
        Err(_) => return Status::OutOfMemory,
    };
    match run_named(alloc, &design, top, until, trace, witness) {
        Ok(()) => Status::Done,
        Err(Stop::Write) => Status::WriteFault,
        Err(Stop::Memory) => Status::OutOfMemory,
    }
}

// Writes that a file could not be read.
fn write_read_fault<O: Sink>(trace: &mut O, file: &str) -> Result<(), Stop>
    ensures all { OnOk result (Gained (O.meaning trace.old) (O.meaning trace.new) (read_fault_line file.now)) }
    ensures part { IfErr result (λ _. GainsFront (O.meaning trace.old) (O.meaning trace.new) (read_fault_line file.now)) }
    ensures cause { IfErr result (λ _. Rose (O.meaning trace.old).faults (O.meaning trace.new).faults) }
{
    put(trace, b"read fault ")?;
    put(trace, file.as_bytes())?;
    put(trace, b"\n")?;
    Ok(())
}

// Tells that a file could not be read.
fn tell_read_fault<O: Sink>(trace: &mut O, file: &str) -> Status
    ensures told { result ≡ Status.ReadFault → Gained (O.meaning trace.old) (O.meaning trace.new) (read_fault_line file.now) }
    ensures part { result ≡ Status.WriteFault → GainsFront (O.meaning trace.old) (O.meaning trace.new) (read_fault_line file.now) }
    ensures cause { result ≡ Status.WriteFault → Rose (O.meaning trace.old).faults (O.meaning trace.new).faults }
    ensures either { (result ≡ Status.ReadFault) ⊎ (result ≡ Status.WriteFault) }
{
    match write_read_fault(trace, file) {
        Ok(()) => Status::ReadFault,
        Err(_) => Status::WriteFault,
    }
}

// Reads the file of a command and runs what it says.
fn run_file<I: Inputs, O: Sink, W: Sink>(
    alloc: Global,
    command: &Command<'_>,
    inputs: &mut I,
    trace: &mut O,
    witness: &mut W,
) -> Status
    ensures done { result ≡ Status.Done
        → RanText command.now.until (I.bytes inputs.old command.now.file.now) command.now.top.now (O.meaning trace.old) (O.meaning trace.new) (W.meaning witness.old) (W.meaning witness.new) }
    ensures not_yet { result ≡ Status.NotYet
        → SaysNothing (I.bytes inputs.old command.now.file.now) command.now.top.now
        × Tells (O.meaning trace.old) (O.meaning trace.new) (W.meaning witness.old) (W.meaning witness.new) not_yet_line }
    ensures read_fault { result ≡ Status.ReadFault
        → Rose (I.faults inputs.old command.now.file.now) (I.faults inputs.new command.now.file.now)
        × Tells (O.meaning trace.old) (O.meaning trace.new) (W.meaning witness.old) (W.meaning witness.new) (read_fault_line command.now.file.now) }
    ensures write_fault { result ≡ Status.WriteFault
        → StoppedWriting command.now.until (I.bytes inputs.old command.now.file.now) (I.faults inputs.old command.now.file.now) (I.faults inputs.new command.now.file.now) command.now.file.now command.now.top.now
        (O.meaning trace.old) (O.meaning trace.new) (W.meaning witness.old) (W.meaning witness.new) }
    ensures memory { result ≡ Status.OutOfMemory
        → StoppedForMemory command.now.until (I.bytes inputs.old command.now.file.now) command.now.top.now (O.meaning trace.old) (O.meaning trace.new) (W.meaning witness.old) (W.meaning witness.new) }
    ensures others { result ≢ Status.Usage }
{
    match read_all(alloc, inputs, command.file, MOST_BYTES) {
        Ok(bytes) => run_text(alloc, &bytes, command.top, command.until, trace, witness),
        Err(ReadError::TooLong) => tell(trace, b"not yet\n", Status::NotYet),
        Err(ReadError::Fault) => tell_read_fault(trace, command.file),
        Err(ReadError::OutOfMemory(_)) => Status::OutOfMemory,
    }
}

/// Does all that the program does: it takes the words after the program's name, runs the module that they name up to their
/// time limit, writes what is seen to the trace and the events to the witness, and answers how it ended.
pub fn simulate<R: Threads + Sync, I: Inputs, O: Sink, W: Sink>(
    _rt: &R,
    alloc: Global,
    words: &[String],
    inputs: &mut I,
    trace: &mut O,
    witness: &mut W,
) -> Status
    // The events in the witness are, each once, one execution that clause 4 allows, complete to the time limit, and the
    // trace is that execution's.
    ensures done { result ≡ Status.Done → (file top : List ℕ) (until : ℕ) → AreRunWords (texts_of words.now) file top until
        → RanText until (I.bytes inputs.old file) top (O.meaning trace.old) (O.meaning trace.new) (W.meaning witness.old) (W.meaning witness.new) }
    // Usage comes only where the words are not those of a run, and every other answer but a failed write where they are.
    ensures usage { result ≡ Status.Usage → NoRunWords (texts_of words.now)
        × Tells (O.meaning trace.old) (O.meaning trace.new) (W.meaning witness.old) (W.meaning witness.new) usage_line }
    ensures words { (result ≢ Status.Usage) → (result ≢ Status.WriteFault) → (file : List ℕ) × (top : List ℕ) × (until : ℕ) × AreRunWords (texts_of words.now) file top until }
    ensures not_yet { result ≡ Status.NotYet → (file top : List ℕ) (until : ℕ) → AreRunWords (texts_of words.now) file top until
        → SaysNothing (I.bytes inputs.old file) top
        × Tells (O.meaning trace.old) (O.meaning trace.new) (W.meaning witness.old) (W.meaning witness.new) not_yet_line }
    ensures read_fault { result ≡ Status.ReadFault → (file top : List ℕ) (until : ℕ) → AreRunWords (texts_of words.now) file top until
        → Rose (I.faults inputs.old file) (I.faults inputs.new file)
        × Tells (O.meaning trace.old) (O.meaning trace.new) (W.meaning witness.old) (W.meaning witness.new) (read_fault_line file) }
    ensures write_fault { result ≡ Status.WriteFault
        → (NoRunWords (texts_of words.now)
        × TellsPart (O.meaning trace.old) (O.meaning trace.new) (W.meaning witness.old) (W.meaning witness.new) usage_line)
        ⊎ ((file : List ℕ) × (top : List ℕ) × (until : ℕ) × AreRunWords (texts_of words.now) file top until
        × StoppedWriting until (I.bytes inputs.old file) (I.faults inputs.old file) (I.faults inputs.new file) file top
        (O.meaning trace.old) (O.meaning trace.new) (W.meaning witness.old) (W.meaning witness.new)) }
    ensures memory { result ≡ Status.OutOfMemory → (file top : List ℕ) (until : ℕ) → AreRunWords (texts_of words.now) file top until
        → StoppedForMemory until (I.bytes inputs.old file) top (O.meaning trace.old) (O.meaning trace.new) (W.meaning witness.old) (W.meaning witness.new) }
    // Nothing else makes it give up.
    ensures complete { NoneRose (I.faults inputs.old) (I.faults inputs.new) (O.meaning trace.old) (O.meaning trace.new) (W.meaning witness.old) (W.meaning witness.new)
        → IsAnswered result (texts_of words.now) (I.bytes inputs.old) }
{
    match command_of(words) {
        None => tell(trace, b"usage\n", Status::Usage),
        Some(command) => run_file(alloc, &command, inputs, trace, witness),
    }
}
