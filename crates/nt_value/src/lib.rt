//! Values of four states: leaves of digits 0, 1, x and z, with shapes, names and texts.
#![tactic(auto)]

mod arithmetic;
mod bits;
mod digit;
mod evaluate;
mod kind;
mod laws;
mod leaf;
mod literal;
mod logic;
mod operator;
mod place;
mod printing;
mod shifts;
mod sizes;
mod text;
mod unit;
mod value;

pub use bits::Bits;
pub use digit::Digit;
pub use evaluate::{binary, unary};
pub use kind::{Edge, ProcKind};
pub use laws::{
    addition_is_modular, division_restores, multiplication_is_modular, parts_of_concat,
    resize_returns, subtraction_is_modular, xnor_is_not_xor,
};
pub use leaf::{Leaf, WIDEST};
pub use literal::Literal;
pub use logic::{merge, truth, wire_pair};
pub use operator::{Binary, Unary};
pub use place::Place;
pub use printing::{print, print_leaf};
pub use sizes::{concat, part, put_part, resize};
pub use text::{Name, Text};
pub use unit::{Base, Unit};
pub use value::{MOST_LEAVES, Shape, Value, copy, default_of, same};

#[cfg(test)]
mod operator_tests;
#[cfg(test)]
mod tests;
