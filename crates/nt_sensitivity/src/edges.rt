// Edges: which change of an expression's value is awaited.
ghost use Rattle.std.specs.Prelude.{◌≡◌};
ghost use Rattle.nt_semantics.specs.Same.{is_same};
ghost use Rattle.nt_semantics.specs.Wake.{is_negedge, is_posedge, lowest, matches, some_match};

use nt_design::{Edge, Tree};
use nt_parts::only_of;
use nt_value::{Digit, Value, same};

// From 0 to 1, x or z, or from x or z to 1.
fn is_posedge(from: Digit, to: Digit) -> bool
    ensures { result ≡ is_posedge from to }
{
    match (from, to) {
        (Digit::Zero, Digit::One | Digit::X | Digit::Z) => true,
        (Digit::X | Digit::Z, Digit::One) => true,
        _ => false,
    }
}

// From 1 to 0, x or z, or from x or z to 0.
fn is_negedge(from: Digit, to: Digit) -> bool
    ensures { result ≡ is_negedge from to }
{
    match (from, to) {
        (Digit::One, Digit::Zero | Digit::X | Digit::Z) => true,
        (Digit::X | Digit::Z, Digit::Zero) => true,
        _ => false,
    }
}

// The least significant digit, which decides.
fn lowest(value: &Value) -> Digit
    ensures { result ≡ lowest value.now }
{
    let bits = only_of(value);
    let _width = bits.width();
    bits.digit(0)
}

fn is_same(a: &Value, b: &Value) -> bool
    ensures { result ≡ is_same a.now b.now }
{
    same(a, b)
}

/// Whether an event control with this edge waits for a change from the kept value to the new one (IEEE 1800-2017, 9.4.2,
/// Table 9-2). It takes no memory.
pub fn matches(edge: Edge, kept: &Value, new: &Value) -> bool
    ensures { result ≡ matches edge kept.now new.now }
{
    match edge {
        Edge::Any => !is_same(kept, new),
        Edge::Pos => is_posedge(lowest(kept), lowest(new)),
        Edge::Neg => is_negedge(lowest(kept), lowest(new)),
    }
}

/// Whether an event control waits for one of the changes from the kept values of its expressions to the new ones (9.4.2). It
/// takes no memory.
pub fn some_match(on: &[(Edge, Tree)], kept: &[Value], new: &[Value]) -> bool
    ensures { result ≡ some_match on.now kept.now new.now }
{
    let count = on.len().min(kept.len()).min(new.len());
    for at in 0..count {
        if matches(on[at].0, &kept[at], &new[at]) {
            return true;
        }
    }
    false
}
