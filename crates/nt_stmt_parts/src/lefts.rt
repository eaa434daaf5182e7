// Left sides of assignments (IEEE 1800-2017, 10.4).
ghost use Rattle.std.specs.Prelude.{◌≡◌, IfOk};
ghost use Rattle.nt_ast.specs.Places.{Node, place_of};
ghost use Rattle.nt_ast.specs.declared.expr.Expr.TheViews.{out-Expr};
ghost use Rattle.nt_design.specs.declared.tree.Tree.TheOpen.{Tree-F};
ghost use Rattle.nt_design.specs.declared.tree.Tree.TheViews.{out-Tree};
ghost use Rattle.nt_forms.specs.Walks.{fault_at};
ghost use Rattle.nt_stmt_parts.specs.Parts.{Leads, Lefts, OnUsableLeft};
ghost use Rattle.nt_things.specs.Usable.{UsableScope, UsableThing};
ghost use Rattle.nt_typed_stmts.specs.Lefts.{into};
ghost use Rattle.nt_typed_stmts.specs.Tables.{name_node};
ghost use Rattle.nt_typing.specs.Typing.{Stands};
ghost use Rattle.nt_typing.specs.declared.scope.Scope.{Scope as Names};

use nt_ast::{Expr, Path};
use nt_bind::bind_base;
use nt_design::{Object, Pick, Target, Tree};
use nt_diag::{Fault, Rule};
use nt_drafts::Unfit;
use nt_kinds::Kind;
use nt_things::read_of;
use nt_typing::{Scope, Thing};
use nt_value::{Name, Place};
use sqlite_items::{Boxed, Items};
use std::alloc::{AllocError, Global};

/// A left side: the type of what it writes, and where that is.
#[derive(Drop)]
pub struct Left {
    pub kind: Boxed<Kind>,
    pub target: Target,
}

// One step further into what is written.
fn step_into(target: Target, pick: Pick) -> Result<Target, AllocError>
    ensures { IfOk result (λ to. to ≡ into target pick) }
{
    match target {
        Target::Var { var, mut path } => {
            path.push(pick)?;
            Ok(Target::Var { var, path })
        }
        Target::Slot {
            net,
            slot,
            low,
            width,
        } => {
            Ok(Target::Slot {
                net,
                slot,
                low,
                width,
            })
        }
        Target::Local { local, mut path } => {
            path.push(pick)?;
            Ok(Target::Local { local, path })
        }
    }
}

// A variable as a target.
fn variable_of(alloc: Global, object: Object) -> Result<Target, Unfit>
    ensures { Leads (Tree-F.Read object) result }
{
    match object {
        Object::Net(_) => Err(Unfit::Breaks(Rule::T10)),
        Object::Var(var) => {
            Ok(Target::Var {
                var,
                path: Items::new(alloc),
            })
        }
    }
}

// Where a tree leads that is one of a variable or a local and a path into it: T10 where it is one of a net, T8 else.
fn reached(alloc: Global, tree: Boxed<Tree>) -> Result<Target, Unfit>
    ensures { Leads (out-Tree tree) result }
{
    match tree.into_inner() {
        Tree::Read(object) => variable_of(alloc, object),
        Tree::Local(local) => {
            Ok(Target::Local {
                local,
                path: Items::new(alloc),
            })
        }
        Tree::Leaves { of, first, count } => {
            let target = reached(alloc, of)?;
            Ok(step_into(target, Pick::Leaves { first, count })?)
        }
        Tree::Item {
            of,
            index,
            low,
            size,
            up,
        } => {
            let target = reached(alloc, of)?;
            let index = index.into_inner();
            Ok(step_into(
                target,
                Pick::Item {
                    index,
                    low,
                    size,
                    up,
                },
            )?)
        }
        Tree::Part { of, low, width } => {
            let target = reached(alloc, of)?;
            let low = low.into_inner();
            Ok(step_into(target, Pick::Part { low, width })?)
        }
        Tree::Const(_) => Err(Unfit::Breaks(Rule::T8)),
        Tree::Element { .. } => Err(Unfit::Breaks(Rule::T8)),
        Tree::Unary { .. } => Err(Unfit::Breaks(Rule::T8)),
        Tree::Binary { .. } => Err(Unfit::Breaks(Rule::T8)),
        Tree::Choose { .. } => Err(Unfit::Breaks(Rule::T8)),
        Tree::Concat { .. } => Err(Unfit::Breaks(Rule::T8)),
        Tree::Gather { .. } => Err(Unfit::Breaks(Rule::T8)),
        Tree::Resize { .. } => Err(Unfit::Breaks(Rule::T8)),
        Tree::Call { .. } => Err(Unfit::Breaks(Rule::T8)),
        Tree::Size => Err(Unfit::Breaks(Rule::T8)),
        Tree::Time => Err(Unfit::Breaks(Rule::T8)),
    }
}

// A broken rule as a fault at this place.
pub(crate) fn told_at(unfit: Unfit, at: Place) -> Fault
    ensures { result ≡ fault_at unfit at }
{
    match unfit {
        Unfit::Breaks(rule) => Fault::refused(rule, at),
        Unfit::OutOfMemory(refused) => Fault::OutOfMemory(refused),
    }
}

// A left side from what its expression stands for.
fn left_of(alloc: Global, thing: Thing, at: Place) -> Result<Left, Fault>
    requires usable { UsableThing thing }
    ensures usable { OnUsableLeft result }
    ensures left { (s : Names) (x : Node) → at ≡ place_of x → Stands s x thing → Lefts s x result }
{
    match thing {
        Thing::Many { .. } => Err(Fault::refused(Rule::T8, at)),
        Thing::Value { kind, tree } => match reached(alloc, tree) {
            Ok(target) => Ok(Left { kind, target }),
            Err(unfit) => Err(told_at(unfit, at)),
        },
    }
}

/// What an assignment writes (IEEE 1800-2017, 10.4, 11.5.1).
///
/// # Errors
///
/// The least fault of the expression, or T10 where it is of a net, T8 where it is of no variable; and `OutOfMemory`.
pub fn left_side(alloc: Global, scope: &Scope, expr: &Expr) -> Result<Left, Fault>
    requires scope { UsableScope scope.now }
    ensures usable { OnUsableLeft result }
    ensures left { Lefts scope.now (out-Expr expr.now) result }
{
    let thing = bind_base(alloc, scope, expr)?;
    left_of(alloc, thing, expr.at())
}

/// The variable of a `for` that a name means (12.7.1).
///
/// # Errors
///
/// T4, T8, T10 or T12 at the name, and `OutOfMemory`.
pub fn name_side(alloc: Global, scope: &Scope, at: Place, name: &Name) -> Result<Left, Fault>
    requires scope { UsableScope scope.now }
    ensures usable { OnUsableLeft result }
    ensures left { Lefts scope.now (name_node at name.now) result }
{
    let path = Path {
        at,
        scope: None,
        name: name.copy(alloc)?,
    };
    match read_of(alloc, scope, &path) {
        Ok(thing) => left_of(alloc, thing, at),
        Err(unfit) => Err(told_at(unfit, at)),
    }
}
