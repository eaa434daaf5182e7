// Copies of types.
ghost use Rattle.std.specs.Prelude.{◌≡◌, IfOk};

use crate::Kind;
use sqlite_items::{Boxed, Items};
use std::alloc::{AllocError, Global};

/// An equal type.
pub fn copy_kind(alloc: Global, kind: &Kind) -> Result<Kind, AllocError>
    ensures { IfOk result (λ copy. copy ≡ kind.now) }
{
    match kind {
        Kind::One { leaf, left, right } => Ok(Kind::One {
            leaf: *leaf,
            left: *left,
            right: *right,
        }),
        Kind::Struct { declared, members } => {
            let mut all = Items::new(alloc);
            for (name, member) in members.as_slice() {
                let name = name.copy(alloc)?;
                all.push((name, copy_kind(alloc, member)?))?;
            }
            Ok(Kind::Struct {
                declared: *declared,
                members: all,
            })
        }
        Kind::Array {
            left,
            right,
            element,
        } => {
            let element = Boxed::new(alloc, copy_kind(alloc, element.get())?)?;
            Ok(Kind::Array {
                left: *left,
                right: *right,
                element,
            })
        }
    }
}
