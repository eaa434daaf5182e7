// The run of time slot 0: each assignment is evaluated, and then each net resolved.
ghost use Rattle.std.specs.Prelude.{◌≡◌, ◌+◌, ◌≤◌, ◌<◌, ◌^◌, length, slice_get, Some, OnOk, IfOk, ℕ, All};
ghost use Rattle.std.specs.List.{range_with_len};
ghost use Rattle.nt_design.specs.Plain.{IsPlain};
ghost use Rattle.nt_design.specs.WellFormed.{IsDesign};
ghost use Rattle.nt_machine.specs.Plain.{IsPlainState};
ghost use Rattle.nt_semantics.specs.State.{count_at};
ghost use Rattle.nt_semantics.specs.StateFits.{IsStateOf, AtMost};
ghost use Rattle.nt_semantics.specs.Execution.{Execution, IsComplete};
ghost use Rattle.nt_semantics.specs.Texts.{IsWritten};
ghost use Rattle.nettype_sim.specs.Progress.{Evaluated, Resolved, CanResolve, ResolvedTimes};

use nt_design::{Design, Net};
use nt_machine::{State, apply, start};
use nt_semantics::{Entry, Event, Order};
use sqlite_items::Items;
use std::alloc::{AllocError, Global};

// Evaluates the next assignment once.
fn evaluate_one(
    alloc: Global,
    design: &Design,
    state: &mut State,
    entries: &mut Items<Entry>,
    assign: u32,
) -> Result<(), AllocError>
    requires design { IsDesign design.now }
    requires plain_design { IsPlain design.now }
    requires within { assign < length design.now.assigns }
    requires so_far { Evaluated design.now assign entries.old state.old }
    ensures { OnOk result (Evaluated design.now (assign + 1) entries.new state.new) }
{
    let event = Event::Assign { assign };
    apply(alloc, design, state, &event)?;
    entries.push(Entry { event, count: 1 })?;
    Ok(())
}

fn evaluate_all(
    alloc: Global,
    design: &Design,
    state: &mut State,
    entries: &mut Items<Entry>,
) -> Result<(), AllocError>
    requires design { IsDesign design.now }
    requires plain_design { IsPlain design.now }
    requires so_far { Evaluated design.now 0 entries.old state.old }
    ensures { OnOk result (Evaluated design.now (length design.now.assigns) entries.new state.new) }
{
    let count = design.assigns.len() as u32;
    for assign in 0..count {
        evaluate_one(alloc, design, state, entries, assign)?;
    }
    Ok(())
}

// Performs a resolution of a net as often as it is in Active.
fn resolve_times(
    alloc: Global,
    design: &Design,
    state: &mut State,
    event: &Event,
    net: u32,
    count: u64,
) -> Result<(), AllocError>
    requires design { IsDesign design.now }
    requires plain_design { IsPlain design.now }
    requires state { IsStateOf design.now state.old }
    requires plain { IsPlainState state.old }
    requires few { AtMost (2 ^ 20) state.old }
    requires event { CanResolve design.now net event.now }
    requires within { net < length design.now.nets }
    requires count { count_at state.old.resolutions net ≡ count }
    ensures { OnOk result (ResolvedTimes design.now net event.now count state.old state.new) }
{
    for turn in 0..count {
        apply(alloc, design, state, event)?;
    }
    Ok(())
}

// The numbers below `count`, ascending.
fn declared_order(alloc: Global, count: usize) -> Result<Order, AllocError>
    requires { count < 2 ^ 32 }
    ensures { IfOk result (λ order. order ≡ range_with_len 0 count) }
{
    let mut slots = Vec::new(alloc);
    for slot in 0..count {
        slots.push(slot as u32)?;
    }
    Ok(Order::new(slots))
}

// How often the net of a resolution is to be resolved.
fn pending_resolutions(design: &Design, state: &State, event: &Event, net: u32) -> u64
    requires { CanResolve design.now net event.now }
    ensures { result ≡ count_at state.now.resolutions net }
{
    state.count(event)
}

fn net_at(design: &Design, net: u32) -> &Net
    requires { net < length design.now.nets }
    ensures { slice_get design.now.nets net ≡ Some result.now }
{
    &design.nets.as_slice()[net as usize]
}

// The resolution of a net with its slots in ascending order.
fn resolution_of(alloc: Global, design: &Design, net: u32) -> Result<Event, AllocError>
    requires design { IsDesign design.now }
    requires plain_design { IsPlain design.now }
    requires within { net < length design.now.nets }
    ensures { IfOk result (λ event. CanResolve design.now net event) }
{
    let order = declared_order(alloc, net_at(design, net).slots.len())?;
    Ok(Event::Resolve { net, order })
}

// Resolves the next net as often as it is pending, as one entry.
fn resolve_one(
    alloc: Global,
    design: &Design,
    state: &mut State,
    entries: &mut Items<Entry>,
    net: u32,
) -> Result<(), AllocError>
    requires design { IsDesign design.now }
    requires plain_design { IsPlain design.now }
    requires within { net < length design.now.nets }
    requires so_far { Resolved design.now net entries.old state.old }
    ensures { OnOk result (Resolved design.now (net + 1) entries.new state.new) }
{
    let event = resolution_of(alloc, design, net)?;
    let count = pending_resolutions(design, state, &event, net);
    resolve_times(alloc, design, state, &event, net, count)?;
    entries.push(Entry { event, count })?;
    Ok(())
}

fn resolve_all(
    alloc: Global,
    design: &Design,
    state: &mut State,
    entries: &mut Items<Entry>,
) -> Result<(), AllocError>
    requires design { IsDesign design.now }
    requires plain_design { IsPlain design.now }
    requires so_far { Resolved design.now 0 entries.old state.old }
    ensures { OnOk result (Resolved design.now (length design.now.nets) entries.new state.new) }
{
    let count = design.nets.len() as u32;
    for net in 0..count {
        resolve_one(alloc, design, state, entries, net)?;
    }
    Ok(())
}

/// Runs a design through time slot 0, in the order of its declarations. It answers the entries, and the state at the
/// slot's end, in which nothing is left, whatever the time limit.
///
/// # Errors
///
/// Where memory is refused.
pub fn run_slot(alloc: Global, design: &Design) -> Result<(Items<Entry>, State), AllocError>
    requires design { IsDesign design.now }
    requires plain_design { IsPlain design.now }
    ensures execution { IfOk result (λ r. (until : ℕ) → Execution until design.now r.0 r.1) }
    ensures complete { IfOk result (λ r. (until : ℕ) → IsComplete until r.1) }
    ensures written { IfOk result (λ r. All IsWritten r.0) }
    ensures state { IfOk result (λ r. IsStateOf design.now r.1) }
    ensures plain { IfOk result (λ r. IsPlainState r.1) }
{
    let mut state = start(alloc, design)?;
    let mut entries = Items::new(alloc);
    evaluate_all(alloc, design, &mut state, &mut entries)?;
    resolve_all(alloc, design, &mut state, &mut entries)?;
    Ok((entries, state))
}
