// Types as they are printed: a leaf as its states, its sign, its width and its range, a structure as its column and its members.
use nt_kinds::Kind;
use nt_value::{Leaf, Text};
use std::alloc::AllocError;

fn say_range(left: u32, right: u32, out: &mut Text) -> Result<(), AllocError> {
    out.push(b'[')?;
    out.push_number(u64::from(left))?;
    out.push(b':')?;
    out.push_number(u64::from(right))?;
    out.push(b']')
}

fn say_leaf(leaf: Leaf, out: &mut Text) -> Result<(), AllocError> {
    out.push(if leaf.four { b'4' } else { b'2' })?;
    out.push(if leaf.signed { b's' } else { b'u' })?;
    out.push_number(u64::from(leaf.width))
}

pub(crate) fn say_kind(kind: &Kind, out: &mut Text) -> Result<(), AllocError> {
    match kind {
        Kind::One { leaf, left, right } => {
            say_leaf(*leaf, out)?;
            say_range(*left, *right, out)
        }
        Kind::Array {
            left,
            right,
            element,
        } => {
            say_range(*left, *right, out)?;
            say_kind(element.get(), out)
        }
        Kind::Struct { declared, members } => {
            out.push_number(u64::from(declared.column))?;
            out.push(b'{')?;
            for (name, member) in members.as_slice() {
                out.push_bytes(name.items())?;
                out.push(b' ')?;
                say_kind(member, out)?;
                out.push(b';')?;
            }
            out.push(b'}')
        }
    }
}
