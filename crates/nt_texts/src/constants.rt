// All of a text as one constant.
ghost use Rattle.std.specs.Prelude.{◌≤◌, length};
ghost use Rattle.nt_const.specs.Answers.{IsTarget};
ghost use Rattle.nt_const.specs.Tables.{names_in};
ghost use Rattle.nt_texts.specs.Constants.{ConstantOf};

use crate::texts::expression_of;
use nt_const::{Constants, constant};
use nt_diag::Fault;
use nt_value::{Bits, Leaf};
use std::alloc::Global;

/// The value of the constant expression that all of a text is (IEEE 1800-2017, 11.2.1), where `known` gives names their
/// values. Where `to` is a leaf, the value goes to it as by an assignment.
///
/// # Errors
///
/// `Refused` where the text cannot be cut into tokens, or its tokens are no one expression; else with the least of all faults of
/// that expression, by offset and then by rule. `OutOfMemory`.
pub fn constant_of(
    alloc: Global,
    text: &[u8],
    known: &Constants,
    to: Option<Leaf>,
) -> Result<Bits, Fault>
    requires within { length text.now ≤ 4194304 }
    requires target { IsTarget to }
    ensures { ConstantOf text.now (names_in known.now) to result }
{
    let x = expression_of(alloc, text)?;
    constant(alloc, &x, known, to)
}
