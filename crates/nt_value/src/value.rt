// Shapes and values, as lists of leaves.
ghost use Rattle.std.specs.Prelude.{◌≡◌, ◌≤◌, ◌<◌, ◌↔◌, All, IsTrue, IfOk, length, slice_get, slice_set, Some};
ghost use Rattle.nt_value.specs.Digits.{IsFilled, IsLeaf};
ghost use Rattle.nt_value.specs.Values.{default_value, shape_of};

use crate::{Bits, Leaf};
use std::alloc::{AllocError, Global};
use std::marker::Model;

/// How many leaves a type may have (this project's limit).
pub const MOST_LEAVES: usize = 64;

/// The leaves of a type in order, at most 64.
#[derive(Debug, Drop)]
pub struct Shape {
    leaves: Vec<Leaf>,
}

impl Model for Shape {
    ghost use Rattle.std.specs.Prelude.{List};
    ghost use Rattle.nt_value.specs.declared.leaf.Leaf.{Leaf};

    ghost Value = { List Leaf };

    ghost use Rattle.nt_value.specs.Shapes.{IsShape};

    ghost view = { λ s. s.leaves.items };

    ghost invariant = { λ s. IsShape s.leaves.items };
}

impl Shape {
    /// The shape of these leaves.
    pub fn new(leaves: Vec<Leaf>) -> Shape
        requires within { length leaves.items ≤ 64 }
        requires valid { All IsLeaf leaves.items }
        ensures { result ≡ leaves.items }
    {
        Shape { leaves }
    }

    /// The leaves.
    pub fn items(&self) -> &[Leaf]
        ensures value { result.now ≡ self.now }
        ensures within { length self.now ≤ 64 }
        ensures valid { All IsLeaf self.now }
    {
        &self.leaves
    }

    /// An equal shape.
    ///
    /// # Errors
    ///
    /// `AllocError` alone.
    pub fn copy(&self, alloc: Global) -> Result<Shape, AllocError>
        ensures { IfOk result (λ shape. shape ≡ self.now) }
    {
        let leaves = Vec::from_slice(alloc, &self.leaves)?;
        Ok(Shape { leaves })
    }
}

/// The leaves of a value in order with their digits, at most 64. Each leaf has as many digits as it is wide, and 0 and 1
/// alone where it has two states.
#[derive(Debug, Drop)]
pub struct Value {
    leaves: Vec<Bits>,
}

impl Model for Value {
    ghost use Rattle.std.specs.Prelude.{List};
    ghost use Rattle.nt_value.specs.Digits.{LeafValue};
    ghost use Rattle.nt_value.specs.Values.{IsValue};

    ghost Value = { List LeafValue };

    ghost view = { λ v. v.leaves.items };

    ghost invariant = { λ v. IsValue v.leaves.items };
}

impl Value {
    /// The value of these leaves.
    pub fn new(leaves: Vec<Bits>) -> Value
        requires { length leaves.items ≤ 64 }
        ensures { result ≡ leaves.items }
    {
        for bits in &leaves {
            bits.has_digits();
        }
        Value { leaves }
    }

    /// The leaves with their digits.
    pub fn items(&self) -> &[Bits]
        ensures value { result.now ≡ self.now }
        ensures within { length self.now ≤ 64 }
        ensures filled { All IsFilled self.now }
    {
        &self.leaves
    }

    /// One leaf with its digits.
    pub fn item(&self, at: u8) -> Bits
        requires { at < length self.now }
        ensures { slice_get self.now at ≡ Some result }
    {
        self.leaves[at as usize]
    }

    /// Replaces one leaf by an equal one with other digits.
    pub fn put(&mut self, at: u8, bits: Bits)
        requires within { at < length self.old }
        requires same { slice_get (shape_of self.old) at ≡ Some bits.leaf }
        ensures value { self.new ≡ slice_set self.old at bits }
        ensures shape { shape_of self.new ≡ shape_of self.old }
    {
        bits.has_digits();
        self.leaves[at as usize] = bits;
    }
}

/// The value of a shape with each leaf at its default.
///
/// # Errors
///
/// `AllocError` alone.
pub fn default_of(alloc: Global, shape: &Shape) -> Result<Value, AllocError>
    ensures { IfOk result (λ value. value ≡ default_value shape.now) }
{
    let mut leaves = Vec::new(alloc);
    for leaf in &shape.leaves {
        leaves.push(Bits::default(*leaf))?;
    }
    Ok(Value::new(leaves))
}

/// An equal value.
///
/// # Errors
///
/// `AllocError` alone.
pub fn copy(alloc: Global, value: &Value) -> Result<Value, AllocError>
    ensures { IfOk result (λ copy. copy ≡ value.now) }
{
    let leaves = Vec::from_slice(alloc, &value.leaves)?;
    Ok(Value { leaves })
}

/// Whether two values are equal, leaves and digits.
pub fn same(a: &Value, b: &Value) -> bool
    ensures { IsTrue result ↔ (a.now ≡ b.now) }
{
    if a.leaves.len() != b.leaves.len() {
        return false;
    }
    for (x, y) in a.leaves.iter().zip(&b.leaves) {
        if !x.is_same(*y) {
            return false;
        }
    }
    true
}
