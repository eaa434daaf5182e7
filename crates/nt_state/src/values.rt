// The values that nets have before any event.
ghost use Rattle.std.specs.Prelude.{◌≡◌, IfOk, replicate};
ghost use Rattle.nt_value.specs.Digits.{IsLeaf};
ghost use Rattle.nt_value.specs.Operators.{in_leaf};
ghost use Rattle.nt_value.specs.declared.digit.Digit.TheVariants.{Z};
ghost use Rattle.nt_semantics.specs.State.{net_start, z_value};

use nt_design::{Net, NetKind};
use nt_value::{Bits, Digit, Leaf, Shape, Value, default_of};
use std::alloc::{AllocError, Global};

// All digits z in a leaf of four states, and 0 in one of two.
fn all_z(leaf: Leaf) -> Bits
    requires { IsLeaf leaf }
    ensures { result ≡ in_leaf leaf (replicate leaf.width Z) }
{
    let mut bits = Bits::zero(leaf);
    if !leaf.four {
        return bits;
    }
    for at in 0..leaf.width {
        bits = bits.with_digit(at, Digit::Z);
    }
    bits
}

/// The value of a shape with z in each digit, or 0 in a leaf of two states.
///
/// # Errors
///
/// Where memory is refused.
pub fn z_value(alloc: Global, shape: &Shape) -> Result<Value, AllocError>
    ensures { IfOk result (λ value. value ≡ z_value shape.now) }
{
    let mut leaves = Vec::new(alloc);
    for leaf in shape.items() {
        leaves.push(all_z(*leaf))?;
    }
    Ok(Value::new(leaves))
}

// The value of a net before any event (IEEE 1800-2017, 6.6.1, 6.7.3).
pub(crate) fn net_start(alloc: Global, net: &Net) -> Result<Value, AllocError>
    ensures { IfOk result (λ value. value ≡ net_start net.now.kind net.now.shape) }
{
    match net.kind {
        NetKind::Wire => z_value(alloc, &net.shape),
        NetKind::Unresolved => default_of(alloc, &net.shape),
        NetKind::Resolved { .. } => default_of(alloc, &net.shape),
    }
}
