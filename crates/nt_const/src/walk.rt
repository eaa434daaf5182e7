// The draft of an expression, in one walk.
ghost use Rattle.std.specs.Prelude.{◌≡◌, ◌≤◌, ◌*◌, ℕ, ◌||◌, min, true};
ghost use Rattle.nt_ast.specs.declared.expr.Expr.TheOpen.{Expr-F};
ghost use Rattle.nt_ast.specs.declared.expr.Expr.TheViews.{out-Expr};
ghost use Rattle.nt_const.specs.Drafts.{OfClosed, OfLiteral, draft_leaf, own_value};
ghost use Rattle.nt_const.specs.Tables.{bit, indexed_of, with_sign};
ghost use Rattle.nt_const.specs.Walks.{Concats, CountsTo, Drafts, IndexedGives, IsWidthed, MeasuresTo, PartGives, RepeatGives, Severals, grown};

use crate::draft::{Draft, binary_draft, choose_draft, own, size_of, unary_draft};
use crate::size::{Size, one_bit, signed_as};
use crate::value::{add, counts, indexed, repeat, taken, width_of};
use crate::{Lookup, Seen};
use nt_ast::{Expr, Path};
use nt_diag::{Fault, Rule};
use nt_value::{Bits, Literal, Place};
use std::alloc::Global;

// Several operands: the sum of their widths, of which all over 64 are one, and their joint value.
#[derive(Clone, Copy)]
pub(crate) struct Several {
    pub(crate) width: u16,
    pub(crate) four: bool,
    pub(crate) value: Option<Bits>,
}

// The leaf of so many digits, of which more than 64 are too many.
fn flat(width: u16, four: bool) -> Option<Size>
    ensures { IsWidthed width four result }
{
    if width >= 1 && width <= 64 {
        Some(Size::of(width as u8, false, four))
    } else {
        None
    }
}

// Products over 64 are all one.
fn product(count: u64, width: u16) -> u16
    ensures { (n : ℕ) → width ≡ min n 65 → result ≡ min (count * n) 65 }
{
    if count == 0 || width == 0 {
        return 0;
    }
    if count > 64 || width > 64 {
        return 65;
    }
    let product = count as u16 * width;
    product.min(65)
}

fn either(a: bool, b: bool) -> bool
    ensures { result ≡ (a || b) }
{
    a || b
}

// Several operands and one more.
fn grow(all: Several, draft: &Draft) -> Several
    requires { all.width ≤ 65 }
    ensures { result ≡ grown all (draft_leaf draft.now) (own_value draft.now) }
{
    let leaf = size_of(draft).leaf();
    let width = u16::from(leaf.width) + all.width;
    Several {
        width: width.min(65),
        four: either(leaf.four, all.four),
        value: add(all.value, own(draft)),
    }
}

fn literal_draft(value: Literal) -> Draft
    ensures { result ≡ OfLiteral value }
{
    let size = Size::new(value.bits.leaf());
    Draft::Literal { size, value }
}

fn item_draft(a: Draft, index: Draft) -> Draft
    ensures { result ≡ OfClosed (bit (draft_leaf a).four) (indexed_of true (own_value a) (own_value index) 1) }
{
    let value = indexed(true, own(&a), own(&index), 1);
    Draft::Closed {
        size: one_bit(size_of(&a).leaf().four),
        value,
    }
}

fn sign_draft(signed: bool, a: Draft) -> Draft
    ensures { result ≡ OfClosed (with_sign signed (draft_leaf a)) (own_value a) }
{
    let value = own(&a);
    Draft::Closed {
        size: signed_as(size_of(&a), signed),
        value,
    }
}

fn part_draft(at: Place, a: Draft, left: u64, right: u64) -> Result<Draft, Fault>
    ensures { PartGives at a left right result }
{
    if left < right {
        return Err(Fault::refused(Rule::T2, at));
    }
    let more = left - right;
    if more > 63 {
        return Err(Fault::refused(Rule::T2, at));
    }
    let width = more as u8 + 1;
    Ok(Draft::Closed {
        size: Size::of(width, false, size_of(&a).leaf().four),
        value: taken(own(&a), right, width),
    })
}

fn indexed_draft(at: Place, up: bool, a: Draft, base: Draft, width: u64) -> Result<Draft, Fault>
    ensures { IndexedGives at up a base width result }
{
    if width < 1 || width > 64 {
        return Err(Fault::refused(Rule::T2, at));
    }
    let width = width as u8;
    Ok(Draft::Closed {
        size: Size::of(width, false, size_of(&a).leaf().four),
        value: indexed(up, own(&a), own(&base), width),
    })
}

fn concat_draft(at: Place, all: Several) -> Result<Draft, Fault>
    ensures { Concats at all result }
{
    match all.value {
        None => Err(Fault::refused(Rule::T2, at)),
        Some(value) => match flat(all.width, all.four) {
            Some(size) => Ok(Draft::Closed { size, value }),
            None => Err(Fault::refused(Rule::T2, at)),
        },
    }
}

fn repeat_draft(at: Place, count: u64, all: Several) -> Result<Draft, Fault>
    ensures { RepeatGives at count all result }
{
    match all.value {
        None => Err(Fault::refused(Rule::T2, at)),
        Some(value) => match flat(product(count, all.width), all.four) {
            Some(size) => match repeat(count, value) {
                Some(value) => Ok(Draft::Closed { size, value }),
                None => Err(Fault::refused(Rule::T2, at)),
            },
            None => Err(Fault::refused(Rule::T2, at)),
        },
    }
}

fn read_draft<L: Lookup>(alloc: Global, at: Place, path: &Path, known: &L) -> Result<Draft, Fault>
    ensures { Drafts (L.sees known.now) (Expr-F.Read at path.now) result }
{
    match known.look(alloc, path)? {
        Seen::Value(value) => Ok(Draft::Closed {
            size: Size::new(value.leaf()),
            value,
        }),
        Seen::Other => Err(Fault::refused(Rule::T1, at)),
        Seen::Unknown => Err(Fault::refused(Rule::T4, at)),
        Seen::Ambiguous => Err(Fault::refused(Rule::T9, at)),
    }
}

// A bound or count.
#[cycle(walk)]
fn counted<L: Lookup>(alloc: Global, expr: &Expr, known: &L) -> Result<u64, Fault>
    ensures { CountsTo (L.sees known.now) (out-Expr expr.now) result }
{
    let a = draft(alloc, expr, known)?;
    let value = own(&a);
    if counts(value) {
        Ok(value.magnitude())
    } else {
        Err(Fault::refused(Rule::T3, expr.at()))
    }
}

// A width, which may be below 1.
#[cycle(walk)]
fn measured<L: Lookup>(alloc: Global, expr: &Expr, known: &L) -> Result<u64, Fault>
    ensures { MeasuresTo (L.sees known.now) (out-Expr expr.now) result }
{
    let a = draft(alloc, expr, known)?;
    let value = own(&a);
    if value.is_known() {
        Ok(width_of(value))
    } else {
        Err(Fault::refused(Rule::T3, expr.at()))
    }
}

// The draft of an expression.
#[cycle(walk)]
pub(crate) fn draft<L: Lookup>(alloc: Global, expr: &Expr, known: &L) -> Result<Draft, Fault>
    ensures { Drafts (L.sees known.now) (out-Expr expr.now) result }
{
    match expr {
        Expr::Literal { value, .. } => Ok(literal_draft(*value)),
        Expr::Read { at, path } => read_draft(alloc, *at, path, known),
        Expr::Member { at, .. } => Err(Fault::refused(Rule::T1, *at)),
        Expr::Pattern { at, .. } => Err(Fault::refused(Rule::T1, *at)),
        Expr::Call { at, .. } => Err(Fault::refused(Rule::T1, *at)),
        Expr::Size { at, .. } => Err(Fault::refused(Rule::T1, *at)),
        Expr::Time { at } => Err(Fault::refused(Rule::T1, *at)),
        Expr::Item { of, index, .. } => {
            let a = draft(alloc, of.get(), known)?;
            let b = draft(alloc, index.get(), known)?;
            Ok(item_draft(a, b))
        }
        Expr::Part {
            at,
            of,
            left,
            right,
        } => {
            let a = draft(alloc, of.get(), known)?;
            let n = counted(alloc, left.get(), known)?;
            let m = counted(alloc, right.get(), known)?;
            part_draft(*at, a, n, m)
        }
        Expr::Indexed {
            at,
            of,
            base,
            width,
            up,
        } => {
            let a = draft(alloc, of.get(), known)?;
            let b = draft(alloc, base.get(), known)?;
            let n = measured(alloc, width.get(), known)?;
            indexed_draft(*at, *up, a, b, n)
        }
        Expr::Unary { op, of, .. } => {
            let a = draft(alloc, of.get(), known)?;
            unary_draft(alloc, *op, a)
        }
        Expr::Binary {
            op,
            left,
            right,
            ..
        } => {
            let a = draft(alloc, left.get(), known)?;
            let b = draft(alloc, right.get(), known)?;
            binary_draft(alloc, *op, a, b)
        }
        Expr::Choose { test, yes, no, .. } => {
            let q = draft(alloc, test.get(), known)?;
            let a = draft(alloc, yes.get(), known)?;
            let b = draft(alloc, no.get(), known)?;
            choose_draft(alloc, q, a, b)
        }
        Expr::Concat { at, parts } => {
            let all = all_of(alloc, parts.as_slice(), known)?;
            concat_draft(*at, all)
        }
        Expr::Repeat { at, count, parts } => {
            let times = counted(alloc, count.get(), known)?;
            let all = all_of(alloc, parts.as_slice(), known)?;
            repeat_draft(*at, times, all)
        }
        Expr::Sign { signed, of, .. } => {
            let a = draft(alloc, of.get(), known)?;
            Ok(sign_draft(*signed, a))
        }
    }
}

// Several operands, each by itself.
#[cycle(walk)]
fn all_of<L: Lookup>(alloc: Global, parts: &[Expr], known: &L) -> Result<Several, Fault>
    ensures { Severals (L.sees known.now) parts.now result }
{
    let mut all = Several {
        width: 0,
        four: false,
        value: None,
    };
    for part in parts {
        let a = draft(alloc, part, known)?;
        all = grow(all, &a);
    }
    Ok(all)
}
