// Literals, operators and casts of the sign.
ghost use Rattle.std.specs.Prelude.{◌≡◌, IfOk};
ghost use Rattle.nt_ast.specs.declared.expr.Expr.{Expr};
ghost use Rattle.nt_ast.specs.declared.expr.Expr.TheOpen.{Expr-F};
ghost use Rattle.nt_ast.specs.declared.expr.Expr.TheViews.{out-Expr};
ghost use Rattle.nt_drafts.specs.Drafts.{DraftOf};
ghost use Rattle.nt_drafts.specs.declared.drafts.Draft.TheViews.{out-Draft};
ghost use Rattle.nt_forms.specs.Walks.{IsLeafed};
ghost use Rattle.nt_typing.specs.Typing.{Itself};
ghost use Rattle.nt_typing.specs.declared.scope.Scope.{Scope};
ghost use Rattle.nt_value.specs.declared.place.Place.{Place as Spot};

use crate::operands::{Leafed, Selfed};
use nt_const::{Size, binary_size, choice_size, signed_as, unary_size};
use nt_drafts::{Draft, fitted, plain_kind};
use nt_value::{Binary, Literal, Unary};
use sqlite_items::Boxed;
use std::alloc::{AllocError, Global};

/// A literal (IEEE 1800-2017, 5.7).
///
/// # Errors
///
/// `AllocError` alone.
pub fn literal_form(alloc: Global, value: Literal) -> Result<Boxed<Draft>, AllocError>
    ensures { IfOk result (λ d. (s : Scope) (at : Spot) → DraftOf s (Expr-F.Literal at value) (out-Draft d)) }
{
    let size = Size::new(value.bits.leaf());
    Boxed::new(alloc, Draft::Literal { size, value })
}

/// An operator of one operand (11.4).
///
/// # Errors
///
/// `AllocError` alone.
pub fn unary_form(alloc: Global, op: Unary, one: Leafed) -> Result<Boxed<Draft>, AllocError>
    ensures { IfOk result (λ d. (s : Scope) (at : Spot) (x : Expr) → IsLeafed s (out-Expr x) one → DraftOf s (Expr-F.Unary at op x) (out-Draft d)) }
{
    let Leafed {
        size: inner,
        draft: of,
    } = one;
    let size = unary_size(op, inner);
    Boxed::new(
        alloc,
        Draft::Unary {
            size,
            op,
            inner,
            of,
        },
    )
}

/// An operator of two operands (11.4).
///
/// # Errors
///
/// `AllocError` alone.
pub fn binary_form(
    alloc: Global,
    op: Binary,
    one: Leafed,
    other: Leafed,
) -> Result<Boxed<Draft>, AllocError>
    ensures { IfOk result (λ d. (s : Scope) (at : Spot) (x y : Expr) → IsLeafed s (out-Expr x) one → IsLeafed s (out-Expr y) other
        → DraftOf s (Expr-F.Binary at op x y) (out-Draft d)) }
{
    let Leafed {
        size: first,
        draft: left,
    } = one;
    let Leafed {
        size: second,
        draft: right,
    } = other;
    let size = binary_size(op, first, second);
    Boxed::new(
        alloc,
        Draft::Binary {
            size,
            op,
            first,
            left,
            second,
            right,
        },
    )
}

/// `?:`, whose test takes nothing from the context (11.4.11).
///
/// # Errors
///
/// `AllocError` alone.
pub fn choose_form(
    alloc: Global,
    test: Selfed,
    one: Leafed,
    other: Leafed,
) -> Result<Boxed<Draft>, AllocError>
    ensures { IfOk result (λ d. (s : Scope) (at : Spot) (z x y : Expr) → Itself s (out-Expr z) test.size test.tree → IsLeafed s (out-Expr x) one
        → IsLeafed s (out-Expr y) other → DraftOf s (Expr-F.Choose at z x y) (out-Draft d)) }
{
    let Leafed {
        size: first,
        draft: yes,
    } = one;
    let Leafed {
        size: second,
        draft: no,
    } = other;
    let Selfed {
        size: decides,
        tree: test,
    } = test;
    let size = choice_size(decides, first, second);
    Boxed::new(
        alloc,
        Draft::Choose {
            size,
            test,
            yes,
            no,
        },
    )
}

/// `$signed(of)`, and `$unsigned(of)` where `signed` is false (11.7).
///
/// # Errors
///
/// `AllocError` alone.
pub fn sign_form(alloc: Global, signed: bool, of: Selfed) -> Result<Boxed<Draft>, AllocError>
    ensures { IfOk result (λ d. (s : Scope) (at : Spot) (x : Expr) → Itself s (out-Expr x) of.size of.tree → DraftOf s (Expr-F.Sign at signed x) (out-Draft d)) }
{
    let Selfed { size, tree } = of;
    let to = signed_as(size, signed);
    let tree = fitted(alloc, size, to, tree)?;
    let kind = plain_kind(alloc, to)?;
    Boxed::new(
        alloc,
        Draft::Closed {
            size: to,
            kind,
            tree,
        },
    )
}
