// Slot after slot.
ghost use Rattle.std.specs.Prelude.{◌≡◌, ◌≤◌, ◌^◌, [], false, length, OnOk, IfErr};
ghost use Rattle.nt_semantics.specs.Execution.{observation_of};
ghost use Rattle.nt_semantics.specs.State.{start_state};
ghost use Rattle.nt_semantics.specs.Slots.{Few};
ghost use Rattle.nt_runs.specs.Lines.{WholeLines};
ghost use Rattle.nt_runs.specs.SoFar.{RunLeaves, OneLeaves, SlotShown, KeepsSizes, HaveSizes};

use crate::end::{SlotEnd, SlotEndStop};
use crate::see::seen_of;
use nt_io::Sink;
use nt_slot::{Rounds, SlotStop, run_slot};
use std::alloc::Global;

/// Why a run was not made to its end.
#[derive(Debug, Drop)]
pub enum RunStop {
    /// It stopped in a slot.
    Slot(SlotStop),
    /// It stopped at a slot's end.
    End(SlotEndStop),
}

// What is seen of a slot that is over is handed to its end.
fn see_slot<R: Rounds, S: SlotEnd>(
    alloc: Global,
    rounds: &R,
    vars: u32,
    nets: u32,
    end: &mut S,
) -> Result<(), RunStop>
    requires vars { vars ≡ length (R.meaning rounds.now).state.vars }
    requires nets { nets ≡ length (R.meaning rounds.now).state.nets }
    ensures kept { S.kept end.new ≡ S.kept end.old }
    ensures shown { SlotShown (S.stands end.old) (S.stands end.new) (S.breaks end.new) (observation_of (R.meaning rounds.now).state) result }
{
    let seen = match seen_of(alloc, rounds, vars, nets) {
        Ok(seen) => seen,
        Err(refused) => return Err(RunStop::Slot(SlotStop::OutOfMemory(refused))),
    };
    match end.slot(&seen) {
        Ok(()) => Ok(()),
        Err(stop) => Err(RunStop::End(stop)),
    }
}

// Runs a slot that has begun, and hands what is seen of it to its end.
fn run_one<R: Rounds, W: Sink, S: SlotEnd>(
    alloc: Global,
    rounds: &mut R,
    vars: u32,
    nets: u32,
    witness: &mut W,
    end: &mut S,
) -> Result<(), RunStop>
    requires usable { R.usable rounds.old }
    requires few { Few (2 ^ 61) (R.meaning rounds.old).state }
    requires sizes { KeepsSizes (R.setting rounds.old) (R.meaning rounds.old) vars nets }
    ensures usable { OnOk result (R.usable rounds.new) }
    ensures setting { OnOk result (R.setting rounds.new ≡ R.setting rounds.old) }
    ensures kept { S.kept end.new ≡ S.kept end.old }
    ensures one { OneLeaves (R.made (R.setting rounds.old)) (R.setting rounds.old) (R.meaning rounds.old) (R.meaning rounds.new) (W.meaning witness.old) (W.meaning witness.new) (S.stands end.old) (S.stands end.new) (S.breaks end.new) result }
{
    if let Err(stop) = run_slot(alloc, rounds, witness) {
        return Err(RunStop::Slot(stop));
    }
    see_slot(alloc, rounds, vars, nets, end)
}

/// Runs slot after slot up to a time limit or `$finish`, with the entries in the witness, and hands what is seen of each
/// to its end.
///
/// # Errors
///
/// Where it stopped in a slot or at a slot's end.
pub fn run_slots<R: Rounds, W: Sink, S: SlotEnd>(
    alloc: Global,
    rounds: &mut R,
    vars: u32,
    nets: u32,
    until: u64,
    witness: &mut W,
    end: &mut S,
) -> Result<(), RunStop>
    requires usable { R.usable rounds.old }
    requires few { Few (2 ^ 61) (R.meaning rounds.old).state }
    requires starts { (R.meaning rounds.old).state ≡ start_state (R.setting rounds.old).design }
    requires stands { S.stands end.old [] }
    requires sizes { HaveSizes until (R.setting rounds.old).design vars nets }
    ensures kept { S.kept end.new ≡ S.kept end.old }
    ensures lines { IfErr result (λ _. WholeLines until (R.setting rounds.old).design (W.meaning witness.old) (W.meaning witness.new)) }
    ensures run { RunLeaves until (R.made (R.setting rounds.old)) (R.setting rounds.old) (R.meaning rounds.old) (R.meaning rounds.new) (W.meaning witness.old) (W.meaning witness.new) (S.stands end.new) (S.breaks end.new) result }
{
    run_one(alloc, rounds, vars, nets, witness, end)?;
    while let Some(_moment) = rounds.next_time(until) {
        run_one(alloc, rounds, vars, nets, witness, end)?;
    }
    Ok(())
}
