// Several values as one.
ghost use Rattle.std.specs.Prelude.{◌≡◌, ◌≤◌, ◌∷◌, [], IfOk, length};
ghost use Rattle.nt_value.specs.Values.{shape_of};
ghost use Rattle.nt_design.specs.Parts as parts;

use crate::only_of;
use nt_value::{Bits, Leaf, Value, concat, merge, part};
use std::alloc::{AllocError, Global};

/// Two values joined leaf by leaf as the arms of a `?:` with an unknown test (IEEE 1800-2017, 11.4.11).
pub fn merged(alloc: Global, x: &Value, y: &Value) -> Result<Value, AllocError>
    requires { shape_of x.now ≡ shape_of y.now }
    ensures { IfOk result (λ v. v ≡ parts.merged x.now y.now) }
{
    let unknown = Bits::default(Leaf {
        width: 1,
        signed: false,
        four: true,
    });
    let xs = x.items();
    let ys = y.items();
    let mut leaves = Vec::new(alloc);
    for i in 0..xs.len() {
        leaves.push(merge(unknown, xs[i], ys[i]))?;
    }
    Ok(Value::new(leaves))
}

// A leaf as an unsigned one.
fn unsigned(bits: Bits) -> Bits
    ensures { result ≡ parts.concatenated (parts.one bits ∷ []) }
{
    bits.has_digits();
    part(bits, 0, bits.width())
}

/// A concatenation of values of one leaf, the first above (11.4.12).
pub fn concatenated(first: &Value, others: &[Value]) -> Bits
    requires { (parts.concatenated (first.now ∷ others.now)).leaf.width ≤ 64 }
    ensures { result ≡ parts.concatenated (first.now ∷ others.now) }
{
    match others {
        [] => unsigned(only_of(first)),
        [second, rest @ ..] => concat(only_of(first), concatenated(second, rest)),
    }
}

/// The leaves of several values, one value after the other (10.9).
pub fn gathered(alloc: Global, values: &[Value]) -> Result<Value, AllocError>
    requires { length (parts.gathered values.now) ≤ 64 }
    ensures { IfOk result (λ v. v ≡ parts.gathered values.now) }
{
    let mut leaves = Vec::new(alloc);
    for value in values {
        leaves.extend_from_slice(value.items())?;
    }
    Ok(Value::new(leaves))
}
