// What names mean in a scope.
ghost use Rattle.std.specs.Prelude.{◌≡◌, IfOk, Some, option_map};
ghost use Rattle.std.specs.Str.{bytes_eq};
ghost use Rattle.nt_design.specs.declared.tree.Tree.TheVariants as t;
ghost use Rattle.nt_drafts.specs.Gives.{Gives};
ghost use Rattle.nt_typing.specs.Names.{constants, seen_of};
ghost use Rattle.nt_typing.specs.Names.{last_of as last, meaning_of as meaning};
ghost use Rattle.nt_typing.specs.Kinds.{plain};
ghost use Rattle.nt_typing.specs.Tables as spec;
ghost use Rattle.nt_typing.specs.declared.thing.Thing.TheVariants.{Many, Value as Valued};

use nt_ast::Path;
use nt_const::{Lookup, Seen, Size};
use nt_design::{Object, Tree};
use nt_diag::Rule;
use nt_drafts::{Unfit, constant_tree, plain_kind};
use nt_kinds::{Kind, copy_kind};
use nt_typing::{Entity, Inside, Scope, Thing};
use nt_value::{Bits, Name};
use sqlite_items::Boxed;
use std::alloc::{AllocError, Global};

fn is(name: &Name, other: &Name) -> bool
    ensures { result ≡ bytes_eq name.now other.now }
{
    name.items() == other.items()
}

// The last entry of a name.
fn last_of<'a>(names: &'a [(Name, Entity)], name: &Name) -> Option<&'a Entity>
    ensures { option_map (λ e. e.now) result ≡ last names.now name.now }
{
    let mut found = None;
    for (own, entity) in names {
        if is(own, name) {
            found = Some(entity);
        }
    }
    found
}

/// What a path means in a scope: its last entry, or `None` (IEEE 1800-2017, 23.9, 26.3).
///
/// # Errors
///
/// `AllocError` alone.
pub fn meaning_of<'a>(
    alloc: Global,
    scope: &'a Scope,
    path: &Path,
) -> Result<Option<&'a Entity>, AllocError>
    ensures { IfOk result (λ o. option_map (λ e. e.now) o ≡ meaning scope.now path.now) }
{
    let name = path.full_name(alloc)?;
    Ok(last_of(scope.names.as_slice(), &name))
}

fn seen(entity: Option<&Entity>) -> Seen
    ensures { result ≡ seen_of (option_map (λ e. e.now) entity.entry) }
{
    match entity {
        None => Seen::Unknown,
        Some(Entity::Constant(value)) => Seen::Value(*value),
        Some(_) => Seen::Other,
    }
}

/// The names of a scope, as constant expressions see them.
#[derive(Clone, Copy)]
pub struct ScopeNames<'a> {
    pub scope: &'a Scope,
}

impl<'a> Lookup for ScopeNames<'a> {
    ghost sees = { λ n. constants n.scope.now };

    fn look(&self, alloc: Global, path: &Path) -> Result<Seen, AllocError> {
        let entity = meaning_of(alloc, self.scope, path)?;
        Ok(seen(entity))
    }
}

// A value of a type.
fn value_of(alloc: Global, kind: &Kind, tree: Tree) -> Result<Thing, AllocError>
    ensures { IfOk result (λ h. h ≡ Valued kind.now tree) }
{
    let tree = Boxed::new(alloc, tree)?;
    let kind = Boxed::new(alloc, copy_kind(alloc, kind)?)?;
    Ok(Thing::Value { kind, tree })
}

fn many_of(alloc: Global, element: &Kind) -> Result<Thing, AllocError>
    ensures { IfOk result (λ h. h ≡ Many element.now) }
{
    let element = Boxed::new(alloc, copy_kind(alloc, element)?)?;
    Ok(Thing::Many { element })
}

fn constant_of(alloc: Global, value: Bits) -> Result<Thing, AllocError>
    ensures { IfOk result (λ h. h ≡ Valued (plain value.leaf) (spec.constant_tree value)) }
{
    let kind = plain_kind(alloc, Size::new(value.leaf()))?;
    let tree = constant_tree(alloc, value)?;
    Ok(Thing::Value { kind, tree })
}

// What is read where a name means this.
fn entity_of(alloc: Global, entity: &Entity) -> Result<Thing, Unfit>
    ensures { Gives (spec.thing_of (Some entity.now)) result }
{
    match entity {
        Entity::Net { net, kind, .. } => {
            Ok(value_of(alloc, kind, Tree::Read(Object::Net(*net)))?)
        }
        Entity::Interconnect => Err(Unfit::Breaks(Rule::T12)),
        Entity::Var { var, kind } => { Ok(value_of(alloc, kind, Tree::Read(Object::Var(*var)))?) }
        Entity::Local { local, kind } => Ok(value_of(alloc, kind, Tree::Local(*local))?),
        Entity::Array { element } => Ok(many_of(alloc, element)?),
        Entity::Constant(value) => Ok(constant_of(alloc, *value)?),
        Entity::Function(_) => Err(Unfit::Breaks(Rule::T8)),
    }
}

/// What is read by a path: a net, a variable, a local, a resolver's argument or a constant (IEEE 1800-2017, 6.6.7, 23.9).
///
/// # Errors
///
/// `Breaks` with T4 where the path means nothing, with T12 where it means an interconnect net, with T8 where it means a function; and
/// `OutOfMemory`.
pub fn read_of(alloc: Global, scope: &Scope, path: &Path) -> Result<Thing, Unfit>
    ensures { Gives (spec.thing_of (meaning scope.now path.now)) result }
{
    match meaning_of(alloc, scope, path)? {
        None => Err(Unfit::Breaks(Rule::T4)),
        Some(entity) => entity_of(alloc, entity),
    }
}

fn plain_thing(alloc: Global, size: Size, tree: Tree) -> Result<Thing, AllocError>
    ensures { IfOk result (λ h. h ≡ Valued (plain size) tree) }
{
    let tree = Boxed::new(alloc, tree)?;
    let kind = plain_kind(alloc, size)?;
    Ok(Thing::Value { kind, tree })
}

/// `of.size`, an `int`, where it is a resolver's argument (7.5.2).
///
/// # Errors
///
/// `Breaks` with T8 where it is a value, and `OutOfMemory`.
pub fn size_of(alloc: Global, of: &Thing) -> Result<Thing, Unfit>
    ensures { Gives (spec.size_of of.now) result }
{
    match of {
        Thing::Value { .. } => Err(Unfit::Breaks(Rule::T8)),
        Thing::Many { .. } => Ok(plain_thing(alloc, Size::of(32, true, false), Tree::Size)?),
    }
}

/// `$time`, a `time`, in a procedure (20.3.1).
///
/// # Errors
///
/// `Breaks` with T16 elsewhere, and `OutOfMemory`.
pub fn time_of(alloc: Global, inside: &Inside) -> Result<Thing, Unfit>
    ensures { Gives (spec.time_in inside.now) result }
{
    match inside {
        Inside::Procedure => Ok(plain_thing(alloc, Size::of(64, false, true), Tree::Time)?),
        _ => Err(Unfit::Breaks(Rule::T16)),
    }
}
