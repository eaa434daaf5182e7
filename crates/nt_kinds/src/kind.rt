// Types with their ranges.
ghost use Rattle.std.specs.Prelude.{◌≡◌, ◌≤◌, ◌↔◌, ℕ, IsTrue, IfOk, length};
ghost use Rattle.nt_kinds.specs.Kinds.{Equivalent, IsSmall, IsSound, leaves, member_leaves};
ghost use Rattle.nt_kinds.specs.declared.kind.Kind.TheOpen.{Kind-F};
ghost use Rattle.nt_kinds.specs.declared.kind.Kind.TheViews.{out-Kind};

use crate::copies::copy_kind;
use crate::leaves::{push_leaves, same_leaves};
use crate::limits::{is_small, span};
use nt_value::{Leaf, Name, Place, Shape};
use sqlite_items::{Boxed, Items};
use std::alloc::{AllocError, Global};

/// A type: an integral one with its declared range, a structure, or an array. The bounds stand in the order in which they are
/// written (IEEE 1800-2017, 6.11, 7.2, 7.4).
#[derive(Drop)]
pub enum Kind {
    /// An integral type. Without a written range the bounds are its highest digit and 0.
    One {
        leaf: Leaf,
        left: u32,
        right: u32,
    },
    /// A structure, by the place of its declaration and its members in order.
    Struct {
        declared: Place,
        members: Items<(Name, Kind)>,
    },
    /// An unpacked array.
    Array {
        left: u32,
        right: u32,
        element: Boxed<Kind>,
    },
}

// Whether two places are equal.
fn is_same_place(a: Place, b: Place) -> bool
    ensures { IsTrue result ↔ (a ≡ b) }
{
    a == b
}

impl Kind {
    /// Whether two types are equivalent (IEEE 1800-2017, 6.22.2): integral ones with equal leaves, structures of one
    /// declaration with equal leaves, arrays of one size with equivalent elements. It takes no memory.
    pub fn equivalent(&self, other: &Kind) -> bool
        requires within { length (leaves self.now) ≤ 64 }
        requires other_within { length (leaves other.now) ≤ 64 }
        ensures { IsTrue result ↔ Equivalent (out-Kind self.now) (out-Kind other.now) }
    {
        match self {
            Kind::One { leaf, .. } => other.is_leaf(*leaf),
            Kind::Struct { declared, members } => other.is_struct(*declared, members.as_slice()),
            Kind::Array {
                left,
                right,
                element,
            } => match other {
                Kind::Array {
                    left: a,
                    right: b,
                    element: with,
                } => span(*left, *right) == span(*a, *b) && element.get().equivalent(with.get()),
                _ => false,
            },
        }
    }

    // Whether this is an integral type of an equal leaf.
    fn is_leaf(&self, leaf: Leaf) -> bool
        ensures { (a b : ℕ) → IsTrue result ↔ Equivalent (Kind-F.One leaf a b) (out-Kind self.now) }
    {
        match self {
            Kind::One { leaf: own, .. } => leaf.is_same(*own),
            _ => false,
        }
    }

    // Whether this is the structure of a declaration, with equal leaves.
    fn is_struct(&self, at: Place, members: &[(Name, Kind)]) -> bool
        requires within { length (member_leaves members.now) ≤ 64 }
        requires own_within { length (leaves self.now) ≤ 64 }
        ensures { IsTrue result ↔ Equivalent (Kind-F.Struct at members.now) (out-Kind self.now) }
    {
        match self {
            Kind::Struct {
                declared,
                members: own,
            } => is_same_place(at, *declared) && same_leaves(members, own.as_slice()),
            _ => false,
        }
    }

    /// The leaves in order.
    pub fn shape(&self, alloc: Global) -> Result<Shape, AllocError>
        requires sound { IsSound self.now }
        ensures { IfOk result (λ shape. shape ≡ leaves self.now) }
    {
        let mut all = Vec::new(alloc);
        push_leaves(self, &mut all)?;
        Ok(Shape::new(all))
    }

    /// Whether there are at most 64 leaves, and at most 64 structures and arrays inside one another. It takes no memory.
    pub fn is_small(&self) -> bool
        ensures { IsTrue result ↔ IsSmall self.now }
    {
        is_small(self)
    }

    /// An equal type.
    pub fn copy(&self, alloc: Global) -> Result<Kind, AllocError>
        ensures { IfOk result (λ copy. copy ≡ self.now) }
    {
        copy_kind(alloc, self)
    }
}
