// The state before any event.
ghost use Rattle.std.specs.Prelude.{◌≡◌, ◌++◌, ◌∷◌, [], IfOk, if◌then◌else◌, map, not, replicate};
ghost use Rattle.nt_value.specs.Values.{default_value};
ghost use Rattle.nt_design.specs.declared.design.Design.{Design as DesignValue};
ghost use Rattle.nt_design.specs.declared.object.Var.{Var as VarValue};
ghost use Rattle.nt_design.specs.declared.process.Assign.{Assign as AssignValue};
ghost use Rattle.nt_design.specs.declared.process.Proc.{Proc as ProcValue};
ghost use Rattle.nt_semantics.specs.State.{is_comb, slot_start, start_nets, start_state, start_work, to_do};
ghost use Rattle.nt_semantics.specs.declared.standing.Standing.TheVariants.{Ready, Unbegun};
ghost use Rattle.nt_semantics.specs.declared.work.Work.TheVariants as work;

use crate::State;
use crate::values::net_start;
use nt_design::{Act, Design, Proc, ProcKind, Target, Var, copy_act};
use nt_parts::value_at;
use nt_semantics::{Standing, Work};
use nt_value::{Shape, Value, copy, default_of};
use nt_work::{Todo, add_to_do};
use sqlite_items::{Boxed, Items};
use std::alloc::{AllocError, Global};

fn start_vars(alloc: Global, vars: &[Var]) -> Result<Items<Value>, AllocError>
    ensures { IfOk result (λ values. values ≡ map (λ (var : VarValue). var.start) vars.now) }
{
    let mut values = Items::new(alloc);
    for var in vars {
        values.push(copy(alloc, &var.start)?)?;
    }
    Ok(values)
}

fn start_nets(alloc: Global, design: &Design) -> Result<Items<Value>, AllocError>
    ensures { IfOk result (λ values. values ≡ start_nets design.now) }
{
    let mut values = Items::new(alloc);
    for net in design.nets.as_slice() {
        values.push(net_start(alloc, net)?)?;
    }
    Ok(values)
}

// A slot begins as its net does, and an assignment to a variable has none.
fn slot_start(alloc: Global, nets: &[Value], target: &Target) -> Result<Value, AllocError>
    ensures { IfOk result (λ value. (d : DesignValue) → nets.now ≡ start_nets d → value ≡ slot_start d target.now) }
{
    match target {
        Target::Slot { net, .. } => value_at(alloc, nets, *net as usize),
        Target::Var { .. } => Ok(Value::new(Vec::new(alloc))),
        Target::Local { .. } => Ok(Value::new(Vec::new(alloc))),
    }
}

fn start_slots(alloc: Global, design: &Design, nets: &[Value]) -> Result<Items<Value>, AllocError>
    requires { nets.now ≡ start_nets design.now }
    ensures { IfOk result (λ values. values ≡ map (λ (assign : AssignValue). slot_start design.now assign.target) design.now.assigns) }
{
    let mut values = Items::new(alloc);
    for assign in design.assigns.as_slice() {
        values.push(slot_start(alloc, nets, &assign.target)?)?;
    }
    Ok(values)
}

fn is_comb(kind: ProcKind) -> bool
    ensures { result ≡ is_comb kind }
{
    match kind {
        ProcKind::Comb => true,
        ProcKind::Initial | ProcKind::Always | ProcKind::Ff => false,
    }
}

fn start_standing(kind: ProcKind) -> Standing
    ensures { result ≡ (if is_comb kind then Unbegun else Ready) }
{
    if is_comb(kind) {
        Standing::Unbegun
    } else {
        Standing::Ready
    }
}

fn start_standings(alloc: Global, procs: &[Proc]) -> Result<Items<Standing>, AllocError>
    ensures { IfOk result (λ standings. standings ≡ map (λ (p : ProcValue). if is_comb p.kind then Unbegun else Ready) procs.now) }
{
    let mut standings = Items::new(alloc);
    for proc in procs {
        standings.push(start_standing(proc.kind))?;
    }
    Ok(standings)
}

// A statement's own steps (IEEE 1800-2017, 9.2.1).
fn once(alloc: Global, body: &Act) -> Result<Items<Work>, AllocError>
    ensures { IfOk result (λ items. items ≡ to_do body.now) }
{
    let mut items = Items::new(alloc);
    add_to_do(alloc, body, &mut items)?;
    Ok(items)
}

// `always s` is `forever s` (9.2.2.1).
fn forever(alloc: Global, body: &Act) -> Result<Items<Work>, AllocError>
    ensures { IfOk result (λ items. items ≡ work.Repeating body.now ∷ []) }
{
    let body = Boxed::new(alloc, copy_act(alloc, body)?)?;
    let mut items = Items::new(alloc);
    items.push(Work::Repeating { body })?;
    Ok(items)
}

// An `always_comb` waits after its body (9.2.2.2).
fn sensitive(alloc: Global, proc: &Proc) -> Result<Items<Work>, AllocError>
    ensures { IfOk result (λ items. items ≡ to_do proc.now.body ++ work.Awaiting proc.now.reads proc.now.body ∷ []) }
{
    let mut items = once(alloc, &proc.body)?;
    let reads = Items::from_slice(alloc, proc.reads.as_slice())?;
    let body = Boxed::new(alloc, copy_act(alloc, &proc.body)?)?;
    items.push(Work::Awaiting { reads, body })?;
    Ok(items)
}

fn start_items(alloc: Global, proc: &Proc) -> Result<Items<Work>, AllocError>
    ensures { IfOk result (λ items. items ≡ start_work proc.now.kind proc.now) }
{
    match proc.kind {
        ProcKind::Initial => once(alloc, &proc.body),
        ProcKind::Always => forever(alloc, &proc.body),
        ProcKind::Ff => forever(alloc, &proc.body),
        ProcKind::Comb => sensitive(alloc, proc),
    }
}

fn start_work(alloc: Global, proc: &Proc) -> Result<Todo, AllocError>
    ensures { IfOk result (λ todo. todo ≡ start_work proc.now.kind proc.now) }
{
    let mut todo = Todo::new(alloc);
    todo.put_before(start_items(alloc, proc)?)?;
    Ok(todo)
}

fn start_works(alloc: Global, procs: &[Proc]) -> Result<Vec<Todo>, AllocError>
    ensures { IfOk result (λ works. works.items ≡ map (λ (p : ProcValue). start_work p.kind p) procs.now) }
{
    let mut works = Vec::new(alloc);
    for proc in procs {
        works.push(start_work(alloc, proc)?)?;
    }
    Ok(works)
}

fn defaults(alloc: Global, shapes: &[Shape]) -> Result<Items<Value>, AllocError>
    ensures { IfOk result (λ values. values ≡ map default_value shapes.now) }
{
    let mut values = Items::new(alloc);
    for shape in shapes {
        values.push(default_of(alloc, shape)?)?;
    }
    Ok(values)
}

fn start_locals(alloc: Global, procs: &[Proc]) -> Result<Vec<Items<Value>>, AllocError>
    ensures { IfOk result (λ locals. locals.items ≡ map (λ (p : ProcValue). map default_value p.locals) procs.now) }
{
    let mut locals = Vec::new(alloc);
    for proc in procs {
        locals.push(defaults(alloc, proc.locals.as_slice())?)?;
    }
    Ok(locals)
}

fn start_fresh(alloc: Global, procs: &[Proc]) -> Result<Items<bool>, AllocError>
    ensures { IfOk result (λ fresh. fresh ≡ map (λ (p : ProcValue). not (is_comb p.kind)) procs.now) }
{
    let mut fresh = Items::new(alloc);
    for proc in procs {
        fresh.push(!is_comb(proc.kind))?;
    }
    Ok(fresh)
}

fn once_each(alloc: Global, count: usize) -> Result<Items<u64>, AllocError>
    ensures { IfOk result (λ counts. counts ≡ replicate count 1) }
{
    Ok(Items::from_vec(vec![in alloc; 1; count]?))
}

/// The state before any event: variables at their start values (IEEE 1800-2017, 6.8, 10.5), each procedure but an
/// `always_comb` ready (9.2), each assignment to be evaluated once (10.3), each net to be resolved once (6.6.7).
///
/// # Errors
///
/// Where memory is refused.
pub fn start(alloc: Global, design: &Design) -> Result<State, AllocError>
    ensures { IfOk result (λ state. state ≡ start_state design.now) }
{
    let nets = start_nets(alloc, design)?;
    let slots = start_slots(alloc, design, nets.as_slice())?;
    let procs = design.procs.as_slice();
    Ok(State {
        alloc,
        moment: 0,
        vars: start_vars(alloc, design.vars.as_slice())?,
        nets,
        slots,
        standings: start_standings(alloc, procs)?,
        work: start_works(alloc, procs)?,
        locals: start_locals(alloc, procs)?,
        fresh: start_fresh(alloc, procs)?,
        evaluations: once_each(alloc, design.assigns.len())?,
        resolutions: once_each(alloc, design.nets.len())?,
        nonblocking: Vec::new(alloc),
        moved: Vec::new(alloc),
        shown: Items::new(alloc),
        finished: false,
    })
}
