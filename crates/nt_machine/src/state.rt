// The state of a run, and its moves.
ghost use Rattle.std.specs.Prelude.{◌≡◌, ◌<◌, ◌≤◌, ℕ, Some, None, length, map, slice_get, IfOk, replicate, nat_lt};
ghost use Rattle.std.specs.List.{list_any};
ghost use Rattle.nt_value.specs.Values.{default_value};
ghost use Rattle.nt_design.specs.WellFormed.{IsDesign};
ghost use Rattle.nt_design.specs.declared.object.Net.{Net as NetValue};
ghost use Rattle.nt_design.specs.declared.process.Assign.{Assign as AssignValue};
ghost use Rattle.nt_semantics.specs.State.{MachineState, start_state, net_shape, count_at};
ghost use Rattle.nt_semantics.specs.Step.{copies_of};
ghost use Rattle.nt_semantics.specs.Execution.{is_active, settle, MovedBy};
ghost use Rattle.nt_design.specs.Plain.{IsPlain, IsWholeSlot, net_of};
ghost use Rattle.nt_machine.specs.Plain.{IsPlainState};

use nt_design::{Design, Env, Net, Target};
use nt_semantics::{Event, Moved};
use nt_value::{Value, default_of};
use sqlite_items::Items;
use std::alloc::{AllocError, Global};
use std::marker::Model;

/// The state of a run of a design (4.3): the moment, the values of nets and slots, and the events in Active. The designs
/// of today have no procedures and no variables, so it keeps nothing of them.
#[derive(Debug, Drop)]
pub struct State {
    pub(crate) env: Env,
    pub(crate) slots: Items<Value>,
    pub(crate) evaluations: Items<u64>,
    pub(crate) resolutions: Items<u64>,
}

impl Model for State {
    ghost use Rattle.std.specs.Prelude.{[], false};
    ghost use Rattle.std.specs.Coded.{codes};
    ghost use Rattle.nt_design.specs.contracts.act.Act as act;
    ghost use Rattle.nt_design.specs.contracts.tree.Tree as tree;
    ghost use Rattle.nt_semantics.specs.State.{MachineState};

    ghost Value = { MachineState };

    ghost coded = { Prim.hlevel (codes, act.the_row.coded, tree.the_row.coded) };

    ghost view = { λ s. record { moment = s.env.time; vars = s.env.vars; nets = s.env.nets; slots = s.slots; standings = []; work = []; locals = []; fresh = []; evaluations = s.evaluations; resolutions = s.resolutions; nonblocking = []; moved = []; shown = []; finished = false } };
}

pub(crate) fn count_of(counts: &[u64], at: u32) -> u64
    ensures { result ≡ count_at counts.now at }
{
    match counts.get(at as usize) {
        Some(count) => *count,
        None => 0,
    }
}

fn any_left(counts: &[u64]) -> bool
    ensures { result ≡ list_any (nat_lt 0) counts.now }
{
    counts.iter().any(|count| *count > 0)
}

impl State {
    /// The moment, in units of the design's time unit.
    pub fn time(&self) -> u64
        ensures { result ≡ self.now.moment }
    {
        self.env.time
    }

    /// The value of a net.
    pub fn net(&self, net: u32) -> &Value
        requires { net < length self.now.nets }
        ensures { slice_get self.now.nets net ≡ Some result.now }
    {
        &self.env.nets.as_slice()[net as usize]
    }

    /// How many copies of the event are in Active, whatever order a resolution names.
    pub fn count(&self, event: &Event) -> u64
        ensures { result ≡ copies_of self.now event.now }
    {
        match event {
            Event::Assign { assign } => count_of(self.evaluations.as_slice(), *assign),
            Event::Resolve { net, .. } => count_of(self.resolutions.as_slice(), *net),
            Event::Stmt { .. } | Event::Update => 0,
        }
    }

    #[tactic(auto, unfolding(nt_semantics::specs::Execution::is_active))]
    fn is_active(&self) -> bool
        ensures { result ≡ is_active self.now }
    {
        if any_left(self.evaluations.as_slice()) {
            return true;
        }
        any_left(self.resolutions.as_slice())
    }
}

fn start_nets(alloc: Global, design: &Design) -> Result<Items<Value>, AllocError>
    ensures { IfOk result (λ nets. nets ≡ map (λ (net : NetValue). default_value net.shape) design.now.nets) }
{
    let mut nets = Items::new(alloc);
    for net in design.nets.as_slice() {
        nets.push(default_of(alloc, &net.shape)?)?;
    }
    Ok(nets)
}

pub(crate) fn net_at(design: &Design, net: u32) -> &Net
    requires { net < length design.now.nets }
    ensures { slice_get design.now.nets net ≡ Some result.now }
{
    &design.nets.as_slice()[net as usize]
}

pub(crate) fn target_net(target: &Target) -> u32
    requires { IsWholeSlot target.now }
    ensures { result ≡ net_of target.now }
{
    match target {
        Target::Slot { net, .. } => *net,
        _ => unreachable!(),
    }
}

fn start_slot(alloc: Global, design: &Design, net: u32) -> Result<Value, AllocError>
    requires { net < length design.now.nets }
    ensures { IfOk result (λ value. value ≡ default_value (net_shape design.now net)) }
{
    default_of(alloc, &net_at(design, net).shape)
}

fn start_slots(alloc: Global, design: &Design) -> Result<Items<Value>, AllocError>
    requires design { IsDesign design.now }
    requires plain { IsPlain design.now }
    ensures { IfOk result (λ slots. slots ≡ map (λ (assign : AssignValue). default_value (net_shape design.now (net_of assign.target))) design.now.assigns) }
{
    let mut slots = Items::new(alloc);
    for assign in design.assigns.as_slice() {
        slots.push(start_slot(alloc, design, target_net(&assign.target))?)?;
    }
    Ok(slots)
}

fn once_each(alloc: Global, count: usize) -> Result<Items<u64>, AllocError>
    ensures { IfOk result (λ counts. counts ≡ replicate count 1) }
{
    Ok(Items::from_vec(vec![in alloc; 1; count]?))
}

/// The state before any event.
///
/// # Errors
///
/// Where memory is refused.
pub fn start(alloc: Global, design: &Design) -> Result<State, AllocError>
    requires design { IsDesign design.now }
    requires plain { IsPlain design.now }
    ensures start { IfOk result (λ state. state ≡ start_state design.now) }
    ensures plain { IfOk result (λ state. IsPlainState state) }
{
    Ok(State {
        env: Env {
            time: 0,
            nets: start_nets(alloc, design)?,
            vars: Items::new(alloc),
            locals: Items::new(alloc),
            many: Items::new(alloc),
        },
        slots: start_slots(alloc, design)?,
        evaluations: once_each(alloc, design.assigns.len())?,
        resolutions: once_each(alloc, design.nets.len())?,
    })
}

/// Makes the one move of a state with nothing in Active, up to the time limit `until`. It takes no memory.
pub fn advance(state: &mut State, _until: u64) -> Moved
    requires plain { IsPlainState state.old }
    ensures state { state.new ≡ settle _until state.old }
    ensures moved { MovedBy _until state.old result }
{
    if state.is_active() {
        Moved::Ready
    } else {
        Moved::End
    }
}
