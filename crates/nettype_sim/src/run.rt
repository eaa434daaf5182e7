// The run of a design: its events, and the texts of them.
ghost use Rattle.std.specs.Prelude.{◌≡◌, ◌⊎◌, ◌++◌, None, OnOk, IfErr, IfOk};
ghost use Rattle.nt_io.specs.Causes.{Rose};
ghost use Rattle.nt_io.specs.Sinks.{Gained};
ghost use Rattle.nt_design.specs.Plain.{IsPlain};
ghost use Rattle.nt_design.specs.WellFormed.{IsDesign};
ghost use Rattle.nt_machine.specs.Plain.{IsPlainState};
ghost use Rattle.nt_semantics.specs.StateFits.{IsStateOf};
ghost use Rattle.nt_semantics.specs.Execution.{observation_of};
ghost use Rattle.nt_semantics.specs.Texts.{entry_lines, slot_text, end_text};
ghost use Rattle.nettype_sim.specs.Writes.{GainsFront, GainsPart, Opened};
ghost use Rattle.nettype_sim.specs.Runs.{RunsWhole, RunsInPart};
ghost use Rattle.nettype_sim.specs.Outcomes.{RanDesign, StoppedDesign, WriteFailed};
ghost use Rattle.nettype_sim.specs.declared.run.Stop.TheVariants.{Memory};

use crate::slot::run_slot;
use crate::writing::{print_end, print_slot};
use nt_design::Design;
use nt_io::{Sink, write_all};
use nt_machine::State;
use nt_semantics::Entry;
use nt_value::Text;
use nt_witness::text_of_entries;
use sqlite_items::Items;
use std::alloc::{AllocError, Global};

/// Why a run stopped before its end.
#[derive(Clone, Copy, Debug)]
pub enum Stop {
    Write,
    Memory,
}

impl From<AllocError> for Stop {
    ghost use Rattle.std.specs.Prelude.{◌≡◌};
    ghost use Rattle.nettype_sim.specs.declared.run.Stop.TheVariants.{Memory};

    ghost from_gives = { λ _ stop. stop ≡ Memory };

    fn from(_: AllocError) -> Self {
        Stop::Memory
    }
}

/// Writes a piece whole.
///
/// # Errors
///
/// `Write` where a put failed. A front of the piece went out then.
pub fn put<S: Sink>(sink: &mut S, bytes: &[u8]) -> Result<(), Stop>
    ensures all { OnOk result (Gained (S.meaning sink.old) (S.meaning sink.new) bytes.now) }
    ensures front { IfErr result (λ _. GainsFront (S.meaning sink.old) (S.meaning sink.new) bytes.now) }
    ensures cause { IfErr result (λ stop. stop ≡ Stop.Write) }
    ensures rose { IfErr result (λ _. Rose (S.meaning sink.old).faults (S.meaning sink.new).faults) }
{
    match write_all(sink, bytes) {
        Ok(()) => Ok(()),
        Err(_) => Err(Stop::Write),
    }
}

fn text_of_slot(alloc: Global, design: &Design, state: &State) -> Result<Text, AllocError>
    requires design { IsDesign design.now }
    requires plain_design { IsPlain design.now }
    requires state { IsStateOf design.now state.now }
    requires plain { IsPlainState state.now }
    ensures { IfOk result (λ text. text ≡ slot_text design.now None (observation_of state.now)) }
{
    let mut text = Text::new(Vec::new(alloc));
    print_slot(design, state, &mut text)?;
    Ok(text)
}

fn text_of_end(alloc: Global, until: u64) -> Result<Text, AllocError>
    ensures { IfOk result (λ text. text ≡ end_text until) }
{
    let mut text = Text::new(Vec::new(alloc));
    print_end(until, &mut text)?;
    Ok(text)
}

// Writes a line for each entry to the witness.
fn write_entries<W: Sink>(
    alloc: Global,
    entries: &Items<Entry>,
    witness: &mut W,
) -> Result<(), Stop>
    ensures all { OnOk result (Gained (W.meaning witness.old) (W.meaning witness.new) (entry_lines entries.now)) }
    ensures part { IfErr result (λ _. GainsPart (W.meaning witness.old) (W.meaning witness.new) (entry_lines entries.now)) }
    ensures cause { result ≡ Err Stop.Write → Rose (W.meaning witness.old).faults (W.meaning witness.new).faults }
{
    let lines = text_of_entries(alloc, entries.as_slice())?;
    put(witness, lines.items())
}

// Writes the slot and the end of the run to the trace.
fn write_trace<O: Sink>(
    alloc: Global,
    design: &Design,
    until: u64,
    state: &State,
    trace: &mut O,
) -> Result<(), Stop>
    requires design { IsDesign design.now }
    requires plain_design { IsPlain design.now }
    requires state { IsStateOf design.now state.now }
    requires plain { IsPlainState state.now }
    ensures all { OnOk result (Gained (O.meaning trace.old) (O.meaning trace.new) (slot_text design.now None (observation_of state.now) ++ end_text until)) }
    ensures part { IfErr result (λ _. GainsPart (O.meaning trace.old) (O.meaning trace.new) (slot_text design.now None (observation_of state.now) ++ end_text until)) }
    ensures cause { result ≡ Err Stop.Write → Rose (O.meaning trace.old).faults (O.meaning trace.new).faults }
{
    let slot = text_of_slot(alloc, design, state)?;
    let end = text_of_end(alloc, until)?;
    put(trace, slot.items())?;
    put(trace, end.items())?;
    Ok(())
}

// Runs a design, with its texts to a witness that is open and to the trace.
fn write_run<O: Sink, W: Sink>(
    alloc: Global,
    design: &Design,
    until: u64,
    trace: &mut O,
    witness: &mut W,
) -> Result<(), Stop>
    requires design { IsDesign design.now }
    requires plain_design { IsPlain design.now }
    ensures whole { OnOk result (RunsWhole until design.now (O.meaning trace.old) (O.meaning trace.new) (W.meaning witness.old) (W.meaning witness.new)) }
    ensures part { IfErr result (λ _. RunsInPart until design.now (O.meaning trace.old) (O.meaning trace.new) (W.meaning witness.old) (W.meaning witness.new)) }
    ensures cause { result ≡ Err Stop.Write → Rose (O.meaning trace.old).faults (O.meaning trace.new).faults
        ⊎ Rose (W.meaning witness.old).faults (W.meaning witness.new).faults }
{
    put(witness, b"nettype-witness 1\n")?;
    let (entries, state) = run_slot(alloc, design)?;
    write_entries(alloc, &entries, witness)?;
    write_trace(alloc, design, until, &state, trace)?;
    put(witness, b"end\n")?;
    Ok(())
}

// Opens the witness at a path.
fn open_witness<W: Sink>(witness: &mut W, path: &str) -> Result<(), Stop>
    ensures opened { OnOk result (Opened (W.meaning witness.old) (W.meaning witness.new) path.now) }
    ensures kept { IfErr result (λ _. (W.meaning witness.new).written ≡ (W.meaning witness.old).written) }
    ensures rose { IfErr result (λ _. Rose ((W.meaning witness.old).open_faults path.now) ((W.meaning witness.new).open_faults path.now)) }
{
    match witness.open(path) {
        Ok(()) => Ok(()),
        Err(_) => Err(Stop::Write),
    }
}

/// Runs a design up to a time limit, which is time slot 0 alone. The witness is opened at this path and gets the events, the trace gets the values.
///
/// # Errors
///
/// `Write` where the witness was not opened or a put failed, `Memory` where memory was refused. What was written then is
/// part of the texts of an execution.
pub fn run_design<O: Sink, W: Sink>(
    alloc: Global,
    design: &Design,
    until: u64,
    path: &str,
    trace: &mut O,
    witness: &mut W,
) -> Result<(), Stop>
    requires design { IsDesign design.now }
    requires plain_design { IsPlain design.now }
    ensures whole { OnOk result (RanDesign until design.now path.now (O.meaning trace.old) (O.meaning trace.new) (W.meaning witness.old) (W.meaning witness.new)) }
    ensures part { IfErr result (λ _. StoppedDesign until design.now (O.meaning trace.old) (O.meaning trace.new) (W.meaning witness.old) (W.meaning witness.new)) }
    ensures cause { result ≡ Err Stop.Write → WriteFailed path.now (O.meaning trace.old) (O.meaning trace.new) (W.meaning witness.old) (W.meaning witness.new) }
{
    open_witness(witness, path)?;
    write_run(alloc, design, until, trace, witness)?;
    Ok(())
}
