// The draft of each form from its operands, of which each is what is asked of it or has a fault.
ghost use Rattle.std.specs.Prelude.{◌≡◌, ◌≤◌, List, Ok, length};
ghost use Rattle.nt_ast.specs.declared.expr.Expr.TheOpen.{Expr-F};
ghost use Rattle.nt_ast.specs.declared.expr.Expr.TheViews.{out-Expr};
ghost use Rattle.nt_ast.specs.declared.expr.Expr.{Expr};
ghost use Rattle.nt_ast.specs.declared.path.Path.{Path as Named};
ghost use Rattle.nt_bind.specs.Binding.{IsNarrow};
ghost use Rattle.nt_forms.specs.Walks.{AllSent, Bases, CountsTo, Drafts, Leafs, MeasuresTo, Selves, Severals};
ghost use Rattle.nt_things.specs.Usable.{OnUsable, UsableFunction};
ghost use Rattle.nt_typing.specs.Names.{meaning_of};
ghost use Rattle.nt_typing.specs.Tables.{called, given};
ghost use Rattle.nt_typing.specs.declared.scope.Scope.{Scope};
ghost use Rattle.nt_value.specs.declared.place.Place.{Place as Spot};

use nt_design::Tree;
use nt_diag::Fault;
use nt_drafts::Draft;
use nt_forms::{
    Leafed, Selfed, Several, binary_form, call_form, choose_form, concat_form, indexed_form,
    item_form, literal_form, member_form, part_form, repeat_form, sign_form, size_form, unary_form,
};
use nt_typing::{Callable, Thing};
use nt_value::{Binary, Literal, Name, Place, Unary};
use sqlite_items::{Boxed, Items};
use std::alloc::Global;

pub(crate) fn literal_arm(alloc: Global, value: Literal) -> Result<Boxed<Draft>, Fault>
    ensures { (s : Scope) (at : Spot) → Drafts s (Expr-F.Literal at value) result }
{
    Ok(literal_form(alloc, value)?)
}

pub(crate) fn unary_arm(
    alloc: Global,
    op: Unary,
    of: Result<Leafed, Fault>,
) -> Result<Boxed<Draft>, Fault>
    ensures { (s : Scope) (at : Spot) (x : Expr) → Leafs s (out-Expr x) of → Drafts s (Expr-F.Unary at op x) result }
{
    let of = of?;
    Ok(unary_form(alloc, op, of)?)
}

pub(crate) fn binary_arm(
    alloc: Global,
    op: Binary,
    one: Result<Leafed, Fault>,
    other: Result<Leafed, Fault>,
) -> Result<Boxed<Draft>, Fault>
    ensures { (s : Scope) (at : Spot) (x y : Expr) → Leafs s (out-Expr x) one → Leafs s (out-Expr y) other → Drafts s (Expr-F.Binary at op x y) result }
{
    let one = one?;
    let other = other?;
    Ok(binary_form(alloc, op, one, other)?)
}

pub(crate) fn choose_arm(
    alloc: Global,
    test: Result<Selfed, Fault>,
    one: Result<Leafed, Fault>,
    other: Result<Leafed, Fault>,
) -> Result<Boxed<Draft>, Fault>
    ensures { (s : Scope) (at : Spot) (z x y : Expr) → Selves s (out-Expr z) test → Leafs s (out-Expr x) one → Leafs s (out-Expr y) other
        → Drafts s (Expr-F.Choose at z x y) result }
{
    let test = test?;
    let one = one?;
    let other = other?;
    Ok(choose_form(alloc, test, one, other)?)
}

pub(crate) fn sign_arm(
    alloc: Global,
    signed: bool,
    of: Result<Selfed, Fault>,
) -> Result<Boxed<Draft>, Fault>
    ensures { (s : Scope) (at : Spot) (x : Expr) → Selves s (out-Expr x) of → Drafts s (Expr-F.Sign at signed x) result }
{
    let of = of?;
    Ok(sign_form(alloc, signed, of)?)
}

pub(crate) fn member_arm(
    alloc: Global,
    at: Place,
    of: Result<Thing, Fault>,
    name_at: Place,
    name: &Name,
) -> Result<Boxed<Draft>, Fault>
    requires { OnUsable of }
    ensures { (s : Scope) (x : Expr) → Bases s (out-Expr x) of → Drafts s (Expr-F.Member at x name_at name.now) result }
{
    let of = of?;
    member_form(alloc, at, of, name_at, name)
}

pub(crate) fn item_arm(
    alloc: Global,
    at: Place,
    of: Result<Thing, Fault>,
    index: Result<Selfed, Fault>,
) -> Result<Boxed<Draft>, Fault>
    requires { OnUsable of }
    ensures { (s : Scope) (x y : Expr) → Bases s (out-Expr x) of → Selves s (out-Expr y) index → Drafts s (Expr-F.Item at x y) result }
{
    let of = of?;
    let index = index?;
    item_form(alloc, at, of, index)
}

pub(crate) fn part_arm(
    alloc: Global,
    at: Place,
    of: Result<Thing, Fault>,
    left: Result<u32, Fault>,
    right: Result<u32, Fault>,
) -> Result<Boxed<Draft>, Fault>
    ensures { (s : Scope) (x y z : Expr) → Bases s (out-Expr x) of → CountsTo s (out-Expr y) left → CountsTo s (out-Expr z) right → Drafts s (Expr-F.Part at x y z) result }
{
    let of = of?;
    let left = left?;
    let right = right?;
    part_form(alloc, at, of, left, right)
}

pub(crate) fn indexed_arm(
    alloc: Global,
    at: Place,
    of: Result<Thing, Fault>,
    up: bool,
    base: Result<Selfed, Fault>,
    width: Result<u64, Fault>,
) -> Result<Boxed<Draft>, Fault>
    ensures { (s : Scope) (x y z : Expr) → Bases s (out-Expr x) of → Selves s (out-Expr y) base → MeasuresTo s (out-Expr z) width
        → Drafts s (Expr-F.Indexed at x y z up) result }
{
    let of = of?;
    let base = base?;
    let width = width?;
    indexed_form(alloc, at, of, up, base, width)
}

pub(crate) fn size_arm(
    alloc: Global,
    at: Place,
    of: Result<Thing, Fault>,
) -> Result<Boxed<Draft>, Fault>
    ensures { (s : Scope) (x : Expr) → Bases s (out-Expr x) of → Drafts s (Expr-F.Size at x) result }
{
    let of = of?;
    size_form(alloc, at, of)
}

pub(crate) fn concat_arm(
    alloc: Global,
    at: Place,
    all: Result<Several, Fault>,
) -> Result<Boxed<Draft>, Fault>
    requires { IsNarrow all }
    ensures { (s : Scope) (xs : List Expr) → Severals s xs all → Drafts s (Expr-F.Concat at xs) result }
{
    let all = all?;
    concat_form(alloc, at, all)
}

pub(crate) fn repeat_arm(
    alloc: Global,
    at: Place,
    count: Result<u32, Fault>,
    all: Result<Several, Fault>,
) -> Result<Boxed<Draft>, Fault>
    requires { IsNarrow all }
    ensures { (s : Scope) (x : Expr) (xs : List Expr) → CountsTo s (out-Expr x) count → Severals s xs all → Drafts s (Expr-F.Repeat at x xs) result }
{
    let count = count?;
    let all = all?;
    repeat_form(alloc, at, count, all)
}

pub(crate) fn call_arm(
    alloc: Global,
    at: Place,
    function: &Callable,
    args: Result<Items<Tree>, Fault>,
) -> Result<Boxed<Draft>, Fault>
    requires { UsableFunction function.now }
    ensures { (s : Scope) (path : Named) (xs : List Expr) → called (meaning_of s path) (length xs) ≡ Ok function.now → AllSent s (given xs function.now.args) args
        → Drafts s (Expr-F.Call at path xs) result }
{
    let args = args?;
    call_form(alloc, at, function, args)
}
