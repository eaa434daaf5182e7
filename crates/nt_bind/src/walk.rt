// From an expression to its draft, in one walk.
ghost use Rattle.std.specs.Prelude.{◌≡◌, List, Some};
ghost use Rattle.nt_ast.specs.declared.expr.Expr.TheOpen.{Expr-F};
ghost use Rattle.nt_ast.specs.declared.expr.Expr.TheViews.{out-Expr};
ghost use Rattle.nt_ast.specs.declared.expr.Expr.{Expr as Operand};
ghost use Rattle.nt_forms.specs.Walks.{AllSent, Bases, Drafts, Leafs, Selves, Sends, Severals, SomeSent};
ghost use Rattle.nt_kinds.specs.declared.kind.Kind.TheViews.{out-Kind};
ghost use Rattle.nt_kinds.specs.declared.kind.Kind.{Kind as Form};
ghost use Rattle.nt_patterns.specs.Picks.{PicksFor};
ghost use Rattle.nt_things.specs.Usable.{AllUsable, IsUsable, UsableScope};
ghost use Rattle.nt_typing.specs.Tables.{given, planned, slots_of};

use crate::arms::{
    binary_arm, call_arm, choose_arm, concat_arm, indexed_arm, item_arm, literal_arm, member_arm,
    part_arm, repeat_arm, sign_arm, size_arm, unary_arm,
};
use crate::gather::{finished, join, kind_at, nothing, pattern_arm, plain_sent, slot_kind};
use crate::needs::{based, leafed, selfed};
use nt_ast::{Expr, Key, Path};
use nt_design::Tree;
use nt_diag::{Fault, Rule};
use nt_drafts::Draft;
use nt_forms::{
    Leafed, Selfed, Several, callee_at, counted, grow, measured, no_parts, read_form, time_form,
};
use nt_kinds::Kind;
use nt_patterns::picks;
use nt_typing::{Scope, Thing};
use nt_value::Place;
use sqlite_items::{Boxed, Items};
use std::alloc::Global;

/// The draft of an expression, or its least fault.
#[cycle(walk)]
pub(crate) fn draft(alloc: Global, scope: &Scope, expr: &Expr) -> Result<Boxed<Draft>, Fault>
    requires { UsableScope scope.now }
    ensures { Drafts scope.now (out-Expr expr.now) result }
{
    match expr {
        Expr::Literal { value, .. } => literal_arm(alloc, *value),
        Expr::Read { at, path } => read_form(alloc, scope, *at, path),
        Expr::Member {
            at,
            of,
            name_at,
            name,
        } => {
            let of = base(alloc, scope, of.get());
            member_arm(alloc, *at, of, *name_at, name)
        }
        Expr::Item { at, of, index } => {
            let of = base(alloc, scope, of.get());
            let index = own(alloc, scope, index.get());
            item_arm(alloc, *at, of, index)
        }
        Expr::Part {
            at,
            of,
            left,
            right,
        } => {
            let of = base(alloc, scope, of.get());
            let left = counted(alloc, scope, left.get());
            let right = counted(alloc, scope, right.get());
            part_arm(alloc, *at, of, left, right)
        }
        Expr::Indexed {
            at,
            of,
            base: from,
            width,
            up,
        } => {
            let of = base(alloc, scope, of.get());
            let from = own(alloc, scope, from.get());
            let width = measured(alloc, scope, width.get());
            indexed_arm(alloc, *at, of, *up, from, width)
        }
        Expr::Unary { op, of, .. } => {
            let of = integral(alloc, scope, of.get());
            unary_arm(alloc, *op, of)
        }
        Expr::Binary {
            op,
            left,
            right,
            ..
        } => {
            let left = integral(alloc, scope, left.get());
            let right = integral(alloc, scope, right.get());
            binary_arm(alloc, *op, left, right)
        }
        Expr::Choose { test, yes, no, .. } => {
            let test = own(alloc, scope, test.get());
            let yes = integral(alloc, scope, yes.get());
            let no = integral(alloc, scope, no.get());
            choose_arm(alloc, test, yes, no)
        }
        Expr::Concat { at, parts } => {
            let parts = several(alloc, scope, parts.as_slice());
            concat_arm(alloc, *at, parts)
        }
        Expr::Repeat { at, count, parts } => {
            let count = counted(alloc, scope, count.get());
            let parts = several(alloc, scope, parts.as_slice());
            repeat_arm(alloc, *at, count, parts)
        }
        Expr::Pattern { at, .. } => Err(Fault::refused(Rule::T8, *at)),
        Expr::Call { at, path, args } => called(alloc, scope, *at, path, args.as_slice()),
        Expr::Size { at, of } => {
            let of = base(alloc, scope, of.get());
            size_arm(alloc, *at, of)
        }
        Expr::Time { at } => time_form(alloc, scope, *at),
        Expr::Sign { signed, of, .. } => {
            let of = own(alloc, scope, of.get());
            sign_arm(alloc, *signed, of)
        }
    }
}

// What is selected from.
#[cycle(walk)]
pub(crate) fn base(alloc: Global, scope: &Scope, expr: &Expr) -> Result<Thing, Fault>
    requires { UsableScope scope.now }
    ensures { Bases scope.now (out-Expr expr.now) result }
{
    based(draft(alloc, scope, expr), expr.at())
}

// An integral operand before its context is known.
#[cycle(walk)]
pub(crate) fn integral(alloc: Global, scope: &Scope, expr: &Expr) -> Result<Leafed, Fault>
    requires { UsableScope scope.now }
    ensures { Leafs scope.now (out-Expr expr.now) result }
{
    leafed(draft(alloc, scope, expr), expr.at())
}

// An integral operand in its own leaf.
#[cycle(walk)]
pub(crate) fn own(alloc: Global, scope: &Scope, expr: &Expr) -> Result<Selfed, Fault>
    requires { UsableScope scope.now }
    ensures { Selves scope.now (out-Expr expr.now) result }
{
    selfed(alloc, integral(alloc, scope, expr))
}

// Several operands, each by itself.
#[cycle(walk)]
fn several(alloc: Global, scope: &Scope, parts: &[Expr]) -> Result<Several, Fault>
    requires { UsableScope scope.now }
    ensures { Severals scope.now parts.now result }
{
    let mut all = no_parts(alloc);
    for part in parts {
        let one = own(alloc, scope, part)?;
        all = grow(all, one)?;
    }
    Ok(all)
}

// A call: its function stands before its operands.
#[cycle(walk)]
fn called(
    alloc: Global,
    scope: &Scope,
    at: Place,
    path: &Path,
    args: &[Expr],
) -> Result<Boxed<Draft>, Fault>
    requires { UsableScope scope.now }
    ensures { Drafts scope.now (Expr-F.Call at path.now args.now) result }
{
    let function = callee_at(alloc, scope, at, path, args)?;
    let args = all_sent(alloc, scope, args, function.args.as_slice());
    call_arm(alloc, at, function, args)
}

// The operands of a call as assignments to the types of its arguments.
#[cycle(walk)]
pub(crate) fn all_sent(
    alloc: Global,
    scope: &Scope,
    args: &[Expr],
    kinds: &[Kind],
) -> Result<Items<Tree>, Fault>
    requires scope { UsableScope scope.now }
    requires kinds { AllUsable kinds.now }
    ensures { AllSent scope.now (given args.now kinds.now) result }
{
    let mut trees = Items::new(alloc);
    let mut index = 0;
    for arg in args {
        match kind_at(kinds, index) {
            None => return Ok(trees),
            Some(kind) => {
                let tree = sent_to(alloc, scope, arg, kind)?;
                trees.push(tree.into_inner())?;
            }
        }
        index += 1;
    }
    Ok(trees)
}

/// What is assigned to a type, or its least fault.
#[cycle(walk)]
pub(crate) fn sent_to(
    alloc: Global,
    scope: &Scope,
    expr: &Expr,
    kind: &Kind,
) -> Result<Boxed<Tree>, Fault>
    requires scope { UsableScope scope.now }
    requires kind { IsUsable kind.now }
    ensures { Sends scope.now (out-Expr expr.now) kind.now result }
{
    match expr {
        Expr::Pattern { at, items } => pattern(alloc, scope, *at, items.as_slice(), kind),
        _ => plain_sent(alloc, draft(alloc, scope, expr), expr.at(), kind),
    }
}

// A pattern, whose items go to the members or elements of its type.
#[cycle(walk)]
fn pattern(
    alloc: Global,
    scope: &Scope,
    at: Place,
    items: &[(Option<Key>, Expr)],
    kind: &Kind,
) -> Result<Boxed<Tree>, Fault>
    requires scope { UsableScope scope.now }
    requires kind { IsUsable kind.now }
    ensures { Sends scope.now (Expr-F.Pattern at items.now) kind.now result }
{
    match picks(alloc, kind, items)? {
        None => Err(Fault::refused(Rule::T8, at)),
        Some(numbers) => {
            let trees = picked(alloc, scope, items, numbers.as_slice(), kind);
            pattern_arm(alloc, trees)
        }
    }
}

// The items by their numbers, one for each member or element. They stand in any order, so the least fault of all is told.
#[cycle(walk)]
fn picked(
    alloc: Global,
    scope: &Scope,
    items: &[(Option<Key>, Expr)],
    numbers: &[usize],
    kind: &Kind,
) -> Result<Items<Tree>, Fault>
    requires scope { UsableScope scope.now }
    requires kind { IsUsable kind.now }
    requires picks { PicksFor (λ v. v) items.now (slots_of (out-Kind kind.now)) (Some numbers.now) }
    ensures { (plan : List (Operand × Form)) → planned kind.now items.now ≡ Some plan → SomeSent scope.now plan result }
{
    let mut all = nothing(alloc);
    let mut slot = 0;
    for number in numbers {
        if let Some(own) = slot_kind(kind, slot) {
            if let Some((_key, item)) = items.get(*number) {
                let tree = sent_to(alloc, scope, item, own);
                all = join(all, tree)?;
            }
        }
        slot += 1;
    }
    finished(all)
}
