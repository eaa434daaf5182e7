// A design of two nets, performed event by event.
ghost use Rattle.std.specs.Prelude.{◌≡◌, ◌<◌, ◌≤◌, ◌+◌, ◌^◌, IfOk, OnOk, ℕ, [], ◌∷◌, length, Some};
ghost use Rattle.nt_value.specs.Values.{IsValueOf};
ghost use Rattle.nt_design.specs.Parts.{Value as ValueOf};
ghost use Rattle.nt_design.specs.Plain.{IsPlain};
ghost use Rattle.nt_design.specs.WellFormed.{IsDesign};
ghost use Rattle.nt_design.specs.declared.object.NetKind.TheVariants.{Unresolved};
ghost use Rattle.nt_design.specs.declared.target.Target.TheVariants.{Slot};
ghost use Rattle.nt_design.specs.declared.tree.Tree.TheVariants.{Const};
ghost use Rattle.nt_machine.specs.Plain.{IsPlainState};
ghost use Rattle.nt_semantics.specs.StateFits.{IsStateOf, AtMost};

use nt_design::{Assign, Design, Net, NetKind, Object, Scoped, Target, Tree};
use nt_machine::{State, allowed, apply, start};
use nt_semantics::{Event, Order};
use nt_value::{Base, Bits, Leaf, Name, Place, Shape, Unit, Value, same};
use sqlite_items::Items;
use std::alloc::{AllocError, Global};
use std::test::Fail;

const AT: Place = Place {
    file: 0,
    offset: 0,
    line: 1,
    column: 1,
};

fn int(alloc: Global) -> Result<Shape, AllocError>
    ensures { IfOk result (λ shape. shape ≡ Leaf.INT ∷ []) }
{
    Ok(Shape::new(vec![in alloc; Leaf::INT]?))
}

fn number(alloc: Global, number: u64) -> Result<Value, AllocError>
    requires { number < 2 ^ 32 }
    ensures { IfOk result (λ value. IsValueOf (Leaf.INT ∷ []) value) }
{
    let value = Value::new(vec![in alloc; Bits::number(Leaf::INT, number)]?);
    let _leaves = value.items();
    Ok(value)
}

fn scoped(alloc: Global, name: &[u8], net: u32) -> Result<Scoped, AllocError>
    ensures { IfOk result (λ scoped. scoped ≡ record { depth = 0; name = name.now; object = Some (Object.Net net) }) }
{
    Ok(Scoped {
        depth: 0,
        name: Name::from_slice(alloc, name)?,
        object: Some(Object::Net(net)),
    })
}

fn scopes(alloc: Global) -> Result<Items<Scoped>, AllocError>
    ensures { IfOk result (λ scopes. scopes ≡ record { depth = 0; name = 100 ∷ []; object = Some (Object.Net 0) } ∷ record { depth = 0; name = 102 ∷ []; object = Some (Object.Net 1) } ∷ []) }
{
    let first = scoped(alloc, b"d", 0)?;
    let second = scoped(alloc, b"f", 1)?;
    Ok(Items::from_vec(vec![in alloc; first, second]?))
}

fn joined(alloc: Global, driven: Net, floating: Net, assign: Assign) -> Result<Design, AllocError>
    requires driver { driven.slots ≡ 0 ∷ [] }
    requires free { floating.slots ≡ [] }
    requires kind { driven.kind ≡ Unresolved }
    requires other_kind { floating.kind ≡ Unresolved }
    requires target { assign.target ≡ Slot 0 0 0 0 }
    requires right { (value : ValueOf) × (assign.right ≡ Const value) × (IsValueOf driven.shape value) }
    requires reads { assign.reads ≡ [] }
    ensures design { IfOk result (λ design. IsDesign design) }
    ensures plain { IfOk result (λ design. IsPlain design) }
{
    let scopes = scopes(alloc)?;
    Ok(Design {
        nets: Items::from_vec(vec![in alloc; driven, floating]?),
        vars: Items::new(alloc),
        procs: Items::new(alloc),
        assigns: Items::from_vec(vec![in alloc; assign]?),
        functions: Items::new(alloc),
        scopes,
        unit: Unit {
            ten: 0,
            base: Base::Ns,
        },
    })
}

fn net(alloc: Global, name: &[u8], slots: Items<u32>) -> Result<Net, AllocError>
    ensures { IfOk result (λ net. (net.slots ≡ slots) × (net.kind ≡ Unresolved) × (net.shape ≡ Leaf.INT ∷ [])) }
{
    Ok(Net {
        name: Name::from_slice(alloc, name)?,
        shape: int(alloc)?,
        kind: NetKind::Unresolved,
        slots,
        at: AT,
    })
}

fn driver(alloc: Global) -> Result<Assign, AllocError>
    ensures target { IfOk result (λ assign. assign.target ≡ Slot 0 0 0 0) }
    ensures right { IfOk result (λ assign. (value : ValueOf) × (assign.right ≡ Const value) × (IsValueOf (Leaf.INT ∷ []) value)) }
    ensures reads { IfOk result (λ assign. assign.reads ≡ []) }
{
    let value = number(alloc, 5)?;
    Ok(Assign {
        target: Target::Slot {
            net: 0,
            slot: 0,
            low: 0,
            width: 0,
        },
        right: Tree::Const(value),
        reads: Items::new(alloc),
        at: AT,
    })
}

// a net with the driver 5, and a net with none
fn two_nets(alloc: Global) -> Result<Design, AllocError>
    ensures design { IfOk result (λ design. IsDesign design) }
    ensures plain { IfOk result (λ design. IsPlain design) }
{
    let driven = net(alloc, b"driven", Items::from_vec(vec![in alloc; 0]?))?;
    let floating = net(alloc, b"floating", Items::new(alloc))?;
    let assign = driver(alloc)?;
    joined(alloc, driven, floating, assign)
}

fn order(alloc: Global, slots: &[u32]) -> Result<Order, AllocError> {
    Ok(Order::new(Vec::from_slice(alloc, slots)?))
}

// Performs the event where it is allowed.
fn perform(
    alloc: Global,
    design: &Design,
    state: &mut State,
    event: &Event,
) -> Result<(), AllocError>
    requires design { IsDesign design.now }
    requires plain_design { IsPlain design.now }
    requires state { IsStateOf design.now state.old }
    requires plain { IsPlainState state.old }
    requires few { AtMost 100 state.old }
    ensures state { OnOk result (IsStateOf design.now state.new) }
    ensures plain { OnOk result (IsPlainState state.new) }
    ensures few { (most : ℕ) → AtMost most state.old → OnOk result (AtMost (most + 1) state.new) }
{
    if !allowed(alloc, design, state, event)? {
        return Ok(());
    }
    apply(alloc, design, state, event)?;
    Ok(())
}

// Performs those of the events that are allowed, from the start on.
fn after(alloc: Global, design: &Design, events: &[Event]) -> Result<State, AllocError>
    requires design { IsDesign design.now }
    requires plain_design { IsPlain design.now }
    requires few { length events.now < 100 }
    ensures { IfOk result (λ state. IsStateOf design.now state) }
{
    let mut state = start(alloc, design)?;
    for event in events {
        perform(alloc, design, &mut state, event)?;
    }
    Ok(state)
}

fn shows(design: &Design, state: &State, net: u32, value: &Value) -> bool
    requires { IsStateOf design.now state.now }
{
    (net as usize) < design.nets.len() && same(state.net(net), value)
}

#[test]
fn performs_events(rt: HostRuntime) -> Result<(), Fail> {
    let alloc = rt.alloc();
    let design = two_nets(alloc)?;
    let evaluation = Event::Assign { assign: 0 };
    let resolution = Event::Resolve {
        net: 0,
        order: order(alloc, &[0])?,
    };
    let events = vec![in alloc; evaluation, resolution]?;
    let state = after(alloc, &design, &events)?;
    let five = number(alloc, 5)?;
    assert!(rt; shows(&design, &state, 0, &five));
    assert_eq!(rt; state.count(&events[1]), 1);
    Ok(())
}
