// What stands by itself: names, members, selects, concatenations, `.size`, `$time`.
ghost use Rattle.std.specs.Prelude.{◌≡◌, ◌≤◌, List};
ghost use Rattle.nt_typing.specs.Tables.{member_place};
ghost use Rattle.nt_ast.specs.declared.expr.Expr.{Expr};
ghost use Rattle.nt_ast.specs.declared.expr.Expr.TheOpen.{Expr-F};
ghost use Rattle.nt_ast.specs.declared.expr.Expr.TheViews.{out-Expr};
ghost use Rattle.nt_drafts.specs.Gives.{FewElements};
ghost use Rattle.nt_forms.specs.Walks.{Counted, Drafts, Measured, Summed, member_fault};
ghost use Rattle.nt_things.specs.Usable.{UsableScope, UsableThing};
ghost use Rattle.nt_typing.specs.Typing.{Itself, Stands};
ghost use Rattle.nt_typing.specs.declared.scope.Scope.{Scope as Names};

use crate::finish::{finish, thing_draft};
use crate::operands::{Selfed, Several};
use nt_ast::Path;
use nt_diag::{Fault, Rule};
use nt_drafts::{Draft, Unfit, indexed_of, item_of, part_of};
use nt_things::{concat_of, member_of, read_of, repeat_of, size_of, time_of};
use nt_typing::{Scope, Thing};
use nt_value::{Name, Place};
use sqlite_items::Boxed;
use std::alloc::Global;

/// A name that is read (IEEE 1800-2017, 23.9).
///
/// # Errors
///
/// T4, T8 or T12 at the name, and `OutOfMemory`.
pub fn read_form(
    alloc: Global,
    scope: &Scope,
    at: Place,
    path: &Path,
) -> Result<Boxed<Draft>, Fault>
    requires { UsableScope scope.now }
    ensures { Drafts scope.now (Expr-F.Read at path.now) result }
{
    finish(alloc, at, read_of(alloc, scope, path))
}

// A member that a structure lacks is told at its name.
fn member_place(rule: Rule, at: Place, name_at: Place) -> Place
    ensures { result ≡ member_place rule at name_at }
{
    match rule {
        Rule::T4 => name_at,
        _ => at,
    }
}

fn member_fault(unfit: Unfit, at: Place, name_at: Place) -> Fault
    ensures { result ≡ member_fault unfit at name_at }
{
    match unfit {
        Unfit::Breaks(rule) => Fault::refused(rule, member_place(rule, at, name_at)),
        Unfit::OutOfMemory(refused) => Fault::OutOfMemory(refused),
    }
}

/// `of.name` (7.2).
///
/// # Errors
///
/// T4 at the member's name, T8 at the expression, and `OutOfMemory`.
pub fn member_form(
    alloc: Global,
    at: Place,
    of: Thing,
    name_at: Place,
    name: &Name,
) -> Result<Boxed<Draft>, Fault>
    requires { UsableThing of }
    ensures { (s : Names) (x : Expr) → Stands s (out-Expr x) of → Drafts s (Expr-F.Member at x name_at name.now) result }
{
    match member_of(alloc, of, name) {
        Ok(thing) => Ok(thing_draft(alloc, thing)?),
        Err(unfit) => Err(member_fault(unfit, at, name_at)),
    }
}

/// `of[index]` (7.4.6, 11.5.1).
///
/// # Errors
///
/// T8 at the expression, and `OutOfMemory`.
pub fn item_form(alloc: Global, at: Place, of: Thing, index: Selfed) -> Result<Boxed<Draft>, Fault>
    requires usable { UsableThing of }
    ensures { (s : Names) (x y : Expr) → Stands s (out-Expr x) of → Itself s (out-Expr y) index.size index.tree → Drafts s (Expr-F.Item at x y) result }
{
    let Selfed { size, tree } = index;
    finish(alloc, at, item_of(alloc, of, size, tree))
}

/// `of[left:right]` (11.5.1).
///
/// # Errors
///
/// T2 or T8 at the expression, and `OutOfMemory`.
pub fn part_form(
    alloc: Global,
    at: Place,
    of: Thing,
    left: u32,
    right: u32,
) -> Result<Boxed<Draft>, Fault>
    ensures { (s : Names) (x y z : Expr) → Stands s (out-Expr x) of → Counted s (out-Expr y) left → Counted s (out-Expr z) right → Drafts s (Expr-F.Part at x y z) result }
{
    finish(alloc, at, part_of(alloc, of, left, right))
}

/// `of[base +: width]`, and `of[base -: width]` where `up` is false (11.5.1).
///
/// # Errors
///
/// T2 or T8 at the expression, and `OutOfMemory`.
pub fn indexed_form(
    alloc: Global,
    at: Place,
    of: Thing,
    up: bool,
    base: Selfed,
    width: u64,
) -> Result<Boxed<Draft>, Fault>
    ensures { (s : Names) (x y z : Expr) → Stands s (out-Expr x) of → Itself s (out-Expr y) base.size base.tree → Measured s (out-Expr z) width
        → Drafts s (Expr-F.Indexed at x y z up) result }
{
    let Selfed { size, tree } = base;
    finish(alloc, at, indexed_of(alloc, of, up, size, tree, width))
}

/// `{parts}` (11.4.12).
///
/// # Errors
///
/// T2 at the expression, and `OutOfMemory`.
pub fn concat_form(alloc: Global, at: Place, all: Several) -> Result<Boxed<Draft>, Fault>
    requires { all.width ≤ 65 }
    ensures { (s : Names) (xs : List Expr) → Summed s xs all → Drafts s (Expr-F.Concat at xs) result }
{
    let Several { width, four, parts } = all;
    finish(alloc, at, concat_of(alloc, width, four, parts))
}

/// `{count{parts}}` (11.4.12.1).
///
/// # Errors
///
/// T2 at the expression, and `OutOfMemory`.
pub fn repeat_form(
    alloc: Global,
    at: Place,
    count: u32,
    all: Several,
) -> Result<Boxed<Draft>, Fault>
    requires { all.width ≤ 65 }
    ensures { (s : Names) (x : Expr) (xs : List Expr) → Counted s (out-Expr x) count → Summed s xs all → Drafts s (Expr-F.Repeat at x xs) result }
{
    let Several { width, four, parts } = all;
    finish(
        alloc,
        at,
        repeat_of(alloc, u64::from(count), width, four, parts),
    )
}

/// `of.size` (7.5.2).
///
/// # Errors
///
/// T8 at the expression, and `OutOfMemory`.
pub fn size_form(alloc: Global, at: Place, of: Thing) -> Result<Boxed<Draft>, Fault>
    ensures { (s : Names) (x : Expr) → Stands s (out-Expr x) of → Drafts s (Expr-F.Size at x) result }
{
    finish(alloc, at, size_of(alloc, &of))
}

/// `$time` (20.3.1).
///
/// # Errors
///
/// T16 at the expression, and `OutOfMemory`.
pub fn time_form(alloc: Global, scope: &Scope, at: Place) -> Result<Boxed<Draft>, Fault>
    ensures { Drafts scope.now (Expr-F.Time at) result }
{
    finish(alloc, at, time_of(alloc, &scope.inside))
}
