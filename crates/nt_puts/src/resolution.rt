// The values of nets.
ghost use Rattle.std.specs.Prelude.{◌≡◌, ◌≤◌, ◌∷◌, [], All, Err, IfOk, List, None, Some, length};
ghost use Rattle.nt_value.specs.Values.{IsValueOf};
ghost use Rattle.nt_value.specs.declared.leaf.Leaf.{Leaf as LeafType};
ghost use Rattle.nt_design.specs.Parts.{only};
ghost use Rattle.nt_design.specs.WellFormed.{IsDesign, IsKind};
ghost use Rattle.nt_design.specs.declared.design.Design.{Design as DesignValue};
ghost use Rattle.nt_design.specs.declared.env.Stop.TheVariants as stop;
ghost use Rattle.nt_design.specs.declared.object.NetKind.TheVariants.{Unresolved};
ghost use Rattle.nt_semantics.specs.State.{z_value};
ghost use Rattle.nt_semantics.specs.Step as step;

use nt_design::{Design, Net, NetKind, Stop};
use nt_eval::call;
use nt_parts::{of_bits, only_of};
use nt_state::z_value;
use nt_value::{Bits, Shape, Value, copy, default_of, wire_pair};
use sqlite_items::Items;
use std::alloc::{AllocError, Global};

// Drivers of a built-in net, joined digit by digit from z (IEEE 1800-2017, 6.6.1).
fn joined_bits(z: Bits, values: &[Value]) -> Bits
    requires { All (IsValueOf (z.leaf ∷ [])) values.now }
    ensures joined { (shape : List LeafType) → z ≡ only (z_value shape) → result ≡ only (step.joined_wires shape values.now) }
    ensures leaf { result.leaf ≡ z.leaf }
{
    let [first, rest @ ..] = values else {
        return z;
    };
    wire_pair(joined_bits(z, rest), only_of(first))
}

fn joined_wires(alloc: Global, shape: &Shape, values: &[Value]) -> Result<Value, AllocError>
    requires { (leaf : LeafType) × (shape.now ≡ leaf ∷ []) × All (IsValueOf shape.now) values.now }
    ensures { IfOk result (λ value. value ≡ step.joined_wires shape.now values.now) }
{
    let released = z_value(alloc, shape)?;
    match values {
        [] => Ok(released),
        [_, ..] => of_bits(alloc, joined_bits(only_of(&released), values)),
    }
}

// The value of the one driver, or the default where there is none.
fn only_driver(alloc: Global, shape: &Shape, values: &[Value]) -> Result<Value, AllocError>
    ensures { IfOk result (λ value. (d : DesignValue) → step.net_value d Unresolved shape.now values.now ≡ Some value) }
{
    match values {
        [] => default_of(alloc, shape),
        [first, ..] => copy(alloc, first),
    }
}

/// The value of a net from those of its drivers in an order: joined in a built-in net (6.6.1), else what its resolution
/// function gives (6.6.7), or without one the one driver's value.
///
/// # Errors
///
/// `TooLong` exactly where the function takes more turns than an event has. `OutOfMemory` where memory is refused.
pub fn net_value(
    alloc: Global,
    design: &Design,
    net: &Net,
    values: Items<Value>,
) -> Result<Value, Stop>
    requires design { IsDesign design.now }
    requires kind { IsKind design.now net.now net.now.kind }
    requires values { All (IsValueOf net.now.shape) values }
    requires few { length values ≤ 1024 }
    ensures value { IfOk result (λ value. step.net_value design.now net.now.kind net.now.shape values ≡ Some value) }
    ensures too_long { result ≡ Err stop.TooLong → step.net_value design.now net.now.kind net.now.shape values ≡ None }
{
    match net.kind {
        NetKind::Wire => Ok(joined_wires(alloc, &net.shape, values.as_slice())?),
        NetKind::Unresolved => Ok(only_driver(alloc, &net.shape, values.as_slice())?),
        NetKind::Resolved { function } => call(alloc, design, function, values),
    }
}
