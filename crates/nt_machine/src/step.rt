// What one event does.
ghost use Rattle.std.specs.Prelude.{◌≡◌, ◌<◌, ◌≤◌, ◌^◌, ◌↔◌, ℕ, Some, None, length, slice_get, true, IfOk, OnOk, IsTrue, IsSome};
ghost use Rattle.nt_design.specs.WellFormed.{IsDesign};
ghost use Rattle.nt_design.specs.declared.object.NetKind.TheVariants.{Unresolved};
ghost use Rattle.nt_design.specs.Plain.{IsPlain};
ghost use Rattle.nt_machine.specs.Plain.{IsPlainState, driven_plain, published_plain};
ghost use Rattle.nt_semantics.specs.Same.{is_same};
ghost use Rattle.nt_semantics.specs.State.{more, fewer, count_at};
ghost use Rattle.nt_semantics.specs.StateFits.{IsStateOf, AtMost};
ghost use Rattle.nt_semantics.specs.Step.{step, is_pending, is_order, is_order_of, net_value, in_order};

use crate::State;
use crate::order::names_each_slot;
use crate::state::{count_of, net_at, target_net};
use nt_design::{Assign, Design, Net, NetKind, Stop, meaning};
use nt_semantics::Event;
use nt_value::{Value, copy, default_of, same};
use sqlite_items::Items;
use std::alloc::{AllocError, Global};

fn is_order_of(design: &Design, net: u32, order: &[u32]) -> bool
    ensures { result ≡ is_order_of (slice_get design.now.nets net) order.now }
{
    match design.nets.as_slice().get(net as usize) {
        Some(net) => names_each_slot(net.slots.len(), order),
        None => false,
    }
}

#[tactic(auto, unfolding(nt_semantics::specs::Step::is_pending))]
fn is_evaluation_pending(design: &Design, state: &State, assign: u32) -> bool
    ensures { result ≡ is_pending design.now state.now (Event.Assign assign) }
{
    count_of(state.evaluations.as_slice(), assign) > 0 && (assign as usize) < design.assigns.len()
}

#[tactic(auto, unfolding(nt_semantics::specs::Step::is_pending))]
fn is_resolution_pending(design: &Design, state: &State, net: u32, order: &[u32]) -> bool
    ensures { result ≡ is_pending design.now state.now (Event.Resolve net order.now) }
{
    count_of(state.resolutions.as_slice(), net) > 0 && is_order_of(design, net, order)
}

/// Whether the event is in Active and the order of a resolution is one of its net's slots. It takes no memory.
#[tactic(auto, unfolding(nt_semantics::specs::Step::is_pending))]
pub fn pending(design: &Design, state: &State, event: &Event) -> bool
    requires state { IsStateOf design.now state.now }
    requires plain { IsPlainState state.now }
    ensures { result ≡ is_pending design.now state.now event.now }
{
    match event {
        Event::Assign { assign } => is_evaluation_pending(design, state, *assign),
        Event::Resolve { net, order } => is_resolution_pending(design, state, *net, order.items()),
        Event::Stmt { .. } | Event::Update => false,
    }
}

fn is_same(a: &Value, b: &Value) -> bool
    ensures { result ≡ is_same a.now b.now }
{
    same(a, b)
}

fn add_one(counts: &mut Items<u64>, at: u32)
    requires within { at < length counts.old }
    requires fits { count_at counts.old at < 2 ^ 63 }
    ensures { counts.new ≡ more counts.old at }
{
    let count = counts.as_slice()[at as usize];
    counts.set(at as usize, count + 1);
}

fn take_one(counts: &mut Items<u64>, at: u32)
    requires within { at < length counts.old }
    ensures { counts.new ≡ fewer 1 counts.old at }
{
    let count = counts.as_slice()[at as usize];
    counts.set(at as usize, count.saturating_sub(1));
}

impl State {
    // An assignment's value goes to its slot, the slot of this net.
    fn drive(&mut self, assign: u32, net: u32, value: Value)
        requires slot { assign < length self.old.slots }
        requires assign { assign < length self.old.evaluations }
        requires net { net < length self.old.resolutions }
        requires few { count_at self.old.resolutions net < 2 ^ 63 }
        ensures { self.new ≡ driven_plain self.old assign net value }
    {
        let at = assign as usize;
        let same = is_same(&self.slots.as_slice()[at], &value);
        self.slots.set(at, value);
        take_one(&mut self.evaluations, assign);
        if !same {
            add_one(&mut self.resolutions, net);
        }
    }

    // A net takes the value of its resolution.
    fn publish(&mut self, net: u32, value: Value)
        requires net { net < length self.old.nets }
        requires count { net < length self.old.resolutions }
        ensures { self.new ≡ published_plain self.old net value }
    {
        self.env.nets.set(net as usize, value);
        take_one(&mut self.resolutions, net);
    }
}

fn assign_at(design: &Design, assign: u32) -> &Assign
    requires { assign < length design.now.assigns }
    ensures { slice_get design.now.assigns assign ≡ Some result.now }
{
    &design.assigns.as_slice()[assign as usize]
}

fn evaluate(
    alloc: Global,
    design: &Design,
    state: &mut State,
    assign: u32,
) -> Result<(), AllocError>
    requires design { IsDesign design.now }
    requires plain_design { IsPlain design.now }
    requires state { IsStateOf design.now state.old }
    requires plain { IsPlainState state.old }
    requires allowed { IsSome (step design.now state.old (Event.Assign assign)) }
    requires few { AtMost (2 ^ 62) state.old }
    ensures step { OnOk result (step design.now state.old (Event.Assign assign) ≡ Some state.new) }
    ensures state { OnOk result (IsStateOf design.now state.new) }
    ensures plain { OnOk result (IsPlainState state.new) }
{
    let driver = assign_at(design, assign);
    let value = match meaning(alloc, design, &driver.right, &state.env) {
        Ok(value) => value,
        Err(Stop::TooLong) => unreachable!(),
        Err(Stop::OutOfMemory(refused)) => return Err(refused),
    };
    state.drive(assign, target_net(&driver.target), value);
    Ok(())
}

fn driver_at(net: &Net, slot: u32) -> u32
    requires { slot < length net.now.slots }
    ensures { slice_get net.now.slots slot ≡ Some result }
{
    net.slots.as_slice()[slot as usize]
}

fn slot_at(state: &State, assign: u32) -> &Value
    requires { assign < length state.now.slots }
    ensures { slice_get state.now.slots assign ≡ Some result.now }
{
    &state.slots.as_slice()[assign as usize]
}

// The value of a net from its slots in an order.
fn resolution(alloc: Global, state: &State, net: &Net, order: &[u32]) -> Result<Value, AllocError>
    requires kind { net.now.kind ≡ Unresolved }
    requires driven { (slot a : ℕ) → slice_get net.now.slots slot ≡ Some a → a < length state.now.slots }
    requires order { is_order (length net.now.slots) order.now ≡ true }
    ensures { IfOk result (λ value. (d : Design) → net_value d net.now.kind net.now.shape (in_order state.now.slots net.now.slots order.now) ≡ Some value) }
{
    match order {
        [] => default_of(alloc, &net.shape),
        [first, ..] => {
            let value = copy(alloc, slot_at(state, driver_at(net, *first)))?;
            Ok(value)
        }
    }
}

fn resolve(
    alloc: Global,
    design: &Design,
    state: &mut State,
    net: u32,
    order: &[u32],
) -> Result<(), AllocError>
    requires design { IsDesign design.now }
    requires plain_design { IsPlain design.now }
    requires state { IsStateOf design.now state.old }
    requires plain { IsPlainState state.old }
    requires allowed { IsSome (step design.now state.old (Event.Resolve net order.now)) }
    ensures step { OnOk result (step design.now state.old (Event.Resolve net order.now) ≡ Some state.new) }
    ensures state { OnOk result (IsStateOf design.now state.new) }
    ensures plain { OnOk result (IsPlainState state.new) }
{
    let value = resolution(alloc, state, net_at(design, net), order)?;
    state.publish(net, value);
    Ok(())
}

/// Performs an event. After want of memory the state answers no further call.
///
/// # Errors
///
/// Where memory is refused.
pub fn apply(
    alloc: Global,
    design: &Design,
    state: &mut State,
    event: &Event,
) -> Result<(), AllocError>
    requires design { IsDesign design.now }
    requires plain_design { IsPlain design.now }
    requires state { IsStateOf design.now state.old }
    requires plain { IsPlainState state.old }
    requires allowed { IsSome (step design.now state.old event.now) }
    requires few { AtMost (2 ^ 62) state.old }
    ensures step { OnOk result (step design.now state.old event.now ≡ Some state.new) }
    ensures state { OnOk result (IsStateOf design.now state.new) }
    ensures plain { OnOk result (IsPlainState state.new) }
{
    match event {
        Event::Assign { assign } => evaluate(alloc, design, state, *assign),
        Event::Resolve { net, order } => resolve(alloc, design, state, *net, order.items()),
        Event::Stmt { .. } | Event::Update => unreachable!(),
    }
}

/// Whether the event may be performed: it is pending and its evaluation is not too long.
///
/// # Errors
///
/// Where memory is refused.
pub fn allowed(
    _alloc: Global,
    design: &Design,
    state: &State,
    event: &Event,
) -> Result<bool, AllocError>
    requires design { IsDesign design.now }
    requires plain_design { IsPlain design.now }
    requires state { IsStateOf design.now state.now }
    requires plain { IsPlainState state.now }
    ensures { IfOk result (λ allowed. IsTrue allowed ↔ IsSome (step design.now state.now event.now)) }
{
    Ok(pending(design, state, event))
}
