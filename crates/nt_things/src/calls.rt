// Functions that may be called.
ghost use Rattle.std.specs.Prelude.{◌≡◌, IfOk, Some};
ghost use Rattle.nt_design.specs.declared.tree.Tree.TheVariants as t;
ghost use Rattle.nt_drafts.specs.Gives.{Gives};
ghost use Rattle.nt_things.specs.Gives.{GivesCallable};
ghost use Rattle.nt_typing.specs.Names.{meaning_of as meaning};
ghost use Rattle.nt_typing.specs.Tables as spec;
ghost use Rattle.nt_typing.specs.declared.thing.Thing.TheVariants.{Value as Valued};

use crate::names::meaning_of;
use nt_ast::Path;
use nt_design::Tree;
use nt_diag::Rule;
use nt_drafts::Unfit;
use nt_kinds::{Kind, copy_kind};
use nt_typing::{Callable, Entity, Scope, Thing};
use sqlite_items::{Boxed, Items};
use std::alloc::{AllocError, Global};

fn callable<'a>(function: &'a Callable, count: usize) -> Result<&'a Callable, Unfit>
    ensures { GivesCallable (λ f. f.now) (spec.callable_of function.now count) result }
{
    if function.many || count != function.args.len() {
        return Err(Unfit::Breaks(Rule::T8));
    }
    if function.item.automatic && function.own {
        Ok(function)
    } else {
        Err(Unfit::Breaks(Rule::T16))
    }
}

fn called<'a>(entity: &'a Entity, count: usize) -> Result<&'a Callable, Unfit>
    ensures { GivesCallable (λ f. f.now) (spec.called (Some entity.now) count) result }
{
    match entity {
        Entity::Function(function) => callable(function, count),
        Entity::Interconnect => Err(Unfit::Breaks(Rule::T12)),
        _ => Err(Unfit::Breaks(Rule::T8)),
    }
}

/// The function that a path names, where it may be called with so many operands (IEEE 1800-2017, 13.4).
///
/// # Errors
///
/// `Breaks` with T4 where the path means nothing, with T12 where it means an interconnect net, with T8 where it means something else or the
/// number of operands is another, with T16 where the function is not automatic or uses what isn't its own; and `OutOfMemory`.
pub fn callee<'a>(
    alloc: Global,
    scope: &'a Scope,
    path: &Path,
    count: usize,
) -> Result<&'a Callable, Unfit>
    ensures { GivesCallable (λ f. f.now) (spec.called (meaning scope.now path.now) count) result }
{
    match meaning_of(alloc, scope, path)? {
        None => Err(Unfit::Breaks(Rule::T4)),
        Some(entity) => called(entity, count),
    }
}

fn call_of(
    alloc: Global,
    kind: &Kind,
    function: u32,
    args: Items<Tree>,
) -> Result<Thing, AllocError>
    ensures { IfOk result (λ h. h ≡ Valued kind.now (t.Call function args)) }
{
    let tree = Boxed::new(alloc, Tree::Call { function, args })?;
    let kind = Boxed::new(alloc, copy_kind(alloc, kind)?)?;
    Ok(Thing::Value { kind, tree })
}

/// What a call of the function of this number is worth (13.4.1).
///
/// # Errors
///
/// `Breaks` with T8 where the function is `void`, and `OutOfMemory`.
pub fn answer_of(
    alloc: Global,
    worth: &Option<Kind>,
    number: u32,
    args: Items<Tree>,
) -> Result<Thing, Unfit>
    ensures { Gives (spec.answer_of worth.now number args) result }
{
    match worth {
        None => Err(Unfit::Breaks(Rule::T8)),
        Some(kind) => Ok(call_of(alloc, kind, number, args)?),
    }
}
