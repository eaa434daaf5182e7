// Leaves that are known to be leaves, and the leaves of operands and results.
ghost use Rattle.std.specs.Prelude.{◌≡◌, ℕ, ◌||◌, max, IfOk};
ghost use Rattle.nt_value.specs.Digits.{IsLeaf};
ghost use Rattle.nt_const.specs.Tables.{binary_leaf, bit, choice_leaf, divided, full, joined, left_in, moved, right_in, unary_in, unary_leaf, with_sign};

use nt_value::{Binary, Leaf, Unary};
use std::marker::Model;

/// A leaf of 1 to 64 digits.
#[derive(Clone, Copy, Debug)]
pub struct Size {
    leaf: Leaf,
}

impl Model for Size {
    ghost use Rattle.nt_value.specs.declared.leaf.Leaf.{Leaf as Form};
    ghost use Rattle.nt_const.specs.Stored.{IsSize, seen_size, stored_size, stored_size-seen_size};

    ghost Value = { Form };

    ghost view = { seen_size };

    ghost invariant = { IsSize };

    ghost inverse = { stored_size };

    ghost inverse_ok = { stored_size-seen_size };
}

impl Size {
    /// The leaf, of which the width is known to be one.
    pub fn new(leaf: Leaf) -> Size
        requires { IsLeaf leaf }
        ensures { result ≡ leaf }
    {
        Size { leaf }
    }

    /// The leaf.
    pub fn leaf(self) -> Leaf
        ensures value { result ≡ self }
        ensures valid { IsLeaf result }
    {
        self.leaf
    }

    /// The leaf of so many digits, signed or not, of four states or of two.
    pub fn of(width: u8, signed: bool, four: bool) -> Size
        requires { IsLeaf (record { width = width; signed = signed; four = four }) }
        ensures { result ≡ record { width = width; signed = signed; four = four } }
    {
        Size::new(Leaf {
            width,
            signed,
            four,
        })
    }
}

// The leaf in four states.
fn in_four(size: Size) -> Size
    ensures { result ≡ full size }
{
    let leaf = size.leaf();
    Size::of(leaf.width, leaf.signed, true)
}

/// One digit of comparisons, logical operators and reductions (IEEE 1800-2017, 11.6.1).
pub fn one_bit(four: bool) -> Size
    ensures { result ≡ bit four }
{
    Size::of(1, false, four)
}

/// The leaf with this sign.
pub fn signed_as(size: Size, signed: bool) -> Size
    ensures { result ≡ with_sign signed size }
{
    let leaf = size.leaf();
    Size::of(leaf.width, signed, leaf.four)
}

fn either(a: bool, b: bool) -> bool
    ensures { result ≡ (a || b) }
{
    a || b
}

/// The leaf of two operands that take width and sign from each other: the larger width, and signed where both are (11.6.1, 11.8.1).
pub fn join(a: Size, b: Size) -> Size
    ensures { result ≡ joined a b }
{
    let x = a.leaf();
    let y = b.leaf();
    Size::of(
        x.width.max(y.width),
        x.signed && y.signed,
        either(x.four, y.four),
    )
}

fn divide(a: Size, b: Size) -> Size
    ensures { result ≡ divided a b }
{
    in_four(join(a, b))
}

fn shift(a: Size, b: Size) -> Size
    ensures { result ≡ moved a b }
{
    let x = a.leaf();
    Size::of(x.width, x.signed, either(x.four, b.leaf().four))
}

fn compare(a: Size, b: Size) -> Size
    ensures { result ≡ bit (a.four || b.four) }
{
    one_bit(either(a.leaf().four, b.leaf().four))
}

/// The leaf of an operator by itself, from that of its operand (11.6.1, Table 11-21).
pub fn unary_size(op: Unary, a: Size) -> Size
    ensures { result ≡ unary_leaf op a }
{
    match op {
        Unary::Plus | Unary::Minus | Unary::Not => a,
        Unary::LogicalNot
        | Unary::RedAnd
        | Unary::RedNand
        | Unary::RedOr
        | Unary::RedNor
        | Unary::RedXor
        | Unary::RedXnor => one_bit(a.leaf().four),
    }
}

/// The leaf that the operand takes where the operator takes `context` (11.8.2).
pub fn unary_context(op: Unary, context: Size, a: Size) -> Size
    ensures { result ≡ unary_in op context a }
{
    match op {
        Unary::Plus | Unary::Minus | Unary::Not => context,
        Unary::LogicalNot
        | Unary::RedAnd
        | Unary::RedNand
        | Unary::RedOr
        | Unary::RedNor
        | Unary::RedXor
        | Unary::RedXnor => a,
    }
}

/// The leaf of an operator by itself, from those of its operands (11.6.1, Table 11-21).
pub fn binary_size(op: Binary, a: Size, b: Size) -> Size
    ensures { result ≡ binary_leaf op a b }
{
    match op {
        Binary::Add
        | Binary::Sub
        | Binary::Mul
        | Binary::And
        | Binary::Or
        | Binary::Xor
        | Binary::Xnor => join(a, b),
        Binary::Div | Binary::Rem => divide(a, b),
        Binary::Shl | Binary::Shr | Binary::Sshr => shift(a, b),
        Binary::Lt
        | Binary::Le
        | Binary::Gt
        | Binary::Ge
        | Binary::Eq
        | Binary::Ne
        | Binary::CaseEq
        | Binary::CaseNe
        | Binary::LogicalAnd
        | Binary::LogicalOr => compare(a, b),
    }
}

/// The leaf that the left operand takes where the operator takes `context`: of a comparison one from the two operands alone, of a logical operator its own (11.6.1, 11.8.2).
pub fn left_context(op: Binary, context: Size, a: Size, b: Size) -> Size
    ensures { result ≡ left_in op context a b }
{
    match op {
        Binary::Add
        | Binary::Sub
        | Binary::Mul
        | Binary::Div
        | Binary::Rem
        | Binary::And
        | Binary::Or
        | Binary::Xor
        | Binary::Xnor
        | Binary::Shl
        | Binary::Shr
        | Binary::Sshr => context,
        Binary::Lt
        | Binary::Le
        | Binary::Gt
        | Binary::Ge
        | Binary::Eq
        | Binary::Ne
        | Binary::CaseEq
        | Binary::CaseNe => join(a, b),
        Binary::LogicalAnd | Binary::LogicalOr => a,
    }
}

/// The leaf that the right operand takes where the operator takes `context`; the amount of a shift has its own (11.6.1, 11.8.2).
pub fn right_context(op: Binary, context: Size, a: Size, b: Size) -> Size
    ensures { result ≡ right_in op context a b }
{
    match op {
        Binary::Add
        | Binary::Sub
        | Binary::Mul
        | Binary::Div
        | Binary::Rem
        | Binary::And
        | Binary::Or
        | Binary::Xor
        | Binary::Xnor => context,
        Binary::Lt
        | Binary::Le
        | Binary::Gt
        | Binary::Ge
        | Binary::Eq
        | Binary::Ne
        | Binary::CaseEq
        | Binary::CaseNe => join(a, b),
        Binary::Shl | Binary::Shr | Binary::Sshr | Binary::LogicalAnd | Binary::LogicalOr => b,
    }
}

/// The leaf of `?:` by itself: an unknown test gives x (11.4.11).
pub fn choice_size(test: Size, a: Size, b: Size) -> Size
    ensures { result ≡ choice_leaf test a b }
{
    let l = join(a, b).leaf();
    Size::of(l.width, l.signed, either(test.leaf().four, l.four))
}
