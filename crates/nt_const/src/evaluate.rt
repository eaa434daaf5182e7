// The leaf and the value of a constant expression.
ghost use Rattle.std.specs.Prelude.{◌≡◌};
ghost use Rattle.nt_ast.specs.declared.expr.Expr.TheViews.{out-Expr};
ghost use Rattle.nt_const.specs.Answers.{Evaluates, Faultless, IsTarget, Sizes};
ghost use Rattle.nt_const.specs.Tables.{context, names_in, target};

use crate::draft::{close, size_of};
use crate::forms::hides;
use crate::size::Size;
use crate::walk::draft;
use crate::{Constants, Lookup};
use nt_ast::Expr;
use nt_diag::{Fault, Rule};
use nt_value::{Bits, Leaf, resize};
use std::alloc::Global;

// The leaf that an expression takes where its value goes to another.
fn context_of(to: Option<Leaf>, size: Size) -> Size
    requires { IsTarget to }
    ensures { result ≡ context to size }
{
    match to {
        None => size,
        Some(to) => {
            let leaf = size.leaf();
            Size::of(to.width.max(leaf.width), leaf.signed, leaf.four)
        }
    }
}

fn target_of(to: Option<Leaf>, size: Size) -> Size
    requires { IsTarget to }
    ensures { result ≡ target to size }
{
    match to {
        None => size,
        Some(to) => Size::new(to),
    }
}

/// The leaf of a constant expression by itself, from its operands alone (IEEE 1800-2017, 11.6.1, 11.8.1). `known` tells
/// what each name means.
///
/// A refusal is the least fault by file, offset and rule: T1 at the whole expression, where something stands in it
/// that is no constant; T2 at a select, concatenation or replication of less than 1 or more than 64 digits; T3 at a
/// bound, width or count that has an x or z, and at a bound or count that is below 0 or over 2^32 - 1; T4 at a name that means
/// nothing, and T9 at one that two imports give. Want of memory is the only other failure. The time is linear in the size of the
/// expression, but for the search for each name.
pub fn width_and_sign_by<L: Lookup>(alloc: Global, expr: &Expr, known: &L) -> Result<Leaf, Fault>
    ensures answer { Sizes (L.sees known.now) (out-Expr expr.now) result }
    ensures faultless { Faultless (L.sees known.now) (out-Expr expr.now) result }
{
    let never = hides(alloc, expr, known)?;
    if never {
        return Err(Fault::refused(Rule::T1, expr.at()));
    }
    let a = draft(alloc, expr, known)?;
    Ok(size_of(&a).leaf())
}

/// The value of a constant expression (IEEE 1800-2017, 11.6 to 11.8). Where `to` is a leaf, the value goes to it as by an
/// assignment: its width is part of the context, more digits are dropped, and in two states x and z become 0 (10.7,
/// 11.8.2). Where `to` is `None`, the value is that of the expression by itself, at its own leaf.
///
/// Refusals and other failures are those of `width_and_sign_by`, whatever `to` is.
pub fn constant_by<L: Lookup>(
    alloc: Global,
    expr: &Expr,
    known: &L,
    to: Option<Leaf>,
) -> Result<Bits, Fault>
    requires target { IsTarget to }
    ensures answer { Evaluates (L.sees known.now) (out-Expr expr.now) to result }
    ensures faultless { Faultless (L.sees known.now) (out-Expr expr.now) result }
{
    let never = hides(alloc, expr, known)?;
    if never {
        return Err(Fault::refused(Rule::T1, expr.at()));
    }
    let a = draft(alloc, expr, known)?;
    let size = size_of(&a);
    let value = close(&a, context_of(to, size));
    Ok(resize(value, target_of(to, size).leaf()))
}

/// The leaf of a constant expression over these constants: `width_and_sign_by`, where a name that `known` lacks means nothing
/// and is T4.
///
/// # Errors
///
/// Those of `width_and_sign_by`.
pub fn width_and_sign(alloc: Global, expr: &Expr, known: &Constants) -> Result<Leaf, Fault>
    ensures answer { Sizes (names_in known.now) (out-Expr expr.now) result }
    ensures faultless { Faultless (names_in known.now) (out-Expr expr.now) result }
{
    width_and_sign_by(alloc, expr, known)
}

/// The value of a constant expression over these constants: `constant_by`, where a name that `known` lacks means nothing and is
/// T4.
///
/// # Errors
///
/// Those of `width_and_sign_by`.
pub fn constant(
    alloc: Global,
    expr: &Expr,
    known: &Constants,
    to: Option<Leaf>,
) -> Result<Bits, Fault>
    requires target { IsTarget to }
    ensures answer { Evaluates (names_in known.now) (out-Expr expr.now) to result }
    ensures faultless { Faultless (names_in known.now) (out-Expr expr.now) result }
{
    constant_by(alloc, expr, known, to)
}
