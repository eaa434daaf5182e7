// What the names of the cases mean.
ghost use Rattle.std.specs.Prelude.{All, IfOk};
ghost use Rattle.nt_show_bound.specs.Usable.{AllEntities, MaybeUsable};
ghost use Rattle.nt_things.specs.Usable.{IsUsable, UsableEntity, UsableFunction, UsableResult, UsableScope};

use crate::kinds::{byte, int, ints, logic, pair, pairs};
use nt_ast::TypeTree;
use nt_items::FunctionItem;
use nt_kinds::Kind;
use nt_typing::{Callable, Entity, Inside, Scope};
use nt_value::{Bits, Leaf, Name, Place};
use sqlite_items::{Boxed, Items};
use std::alloc::{AllocError, Global};

// One name more.
fn with(
    names: Items<(Name, Entity)>,
    name: Name,
    entity: Entity,
) -> Result<Items<(Name, Entity)>, AllocError>
    requires names { AllEntities names }
    requires entity { UsableEntity entity }
    ensures { IfOk result (λ ns. AllEntities ns) }
{
    let mut names = names;
    names.push((name, entity))?;
    Ok(names)
}

// A variable, where there is a type for it.
fn with_var(
    names: Items<(Name, Entity)>,
    name: Name,
    var: u32,
    kind: Option<Kind>,
) -> Result<Items<(Name, Entity)>, AllocError>
    requires names { AllEntities names }
    requires kind { MaybeUsable kind }
    ensures { IfOk result (λ ns. AllEntities ns) }
{
    match kind {
        None => Ok(names),
        Some(kind) => with(names, name, Entity::Var { var, kind }),
    }
}

fn no_place() -> Place {
    Place {
        file: 0,
        offset: 0,
        line: 1,
        column: 1,
    }
}

// A function as it is declared, without its text.
fn declared(alloc: Global, automatic: bool) -> Result<FunctionItem, AllocError> {
    let result = Boxed::new(alloc, TypeTree::Void { at: no_place() })?;
    let name = Name::from_slice(alloc, b"f")?;
    Ok(FunctionItem {
        at: no_place(),
        automatic,
        result,
        name,
        args: Items::new(alloc),
        locals: Items::new(alloc),
        body: Items::new(alloc),
    })
}

// One argument more.
fn with_kind(kinds: Items<Kind>, kind: Kind) -> Result<Items<Kind>, AllocError>
    requires kinds { All IsUsable kinds }
    requires kind { IsUsable kind }
    ensures { IfOk result (λ ks. All IsUsable ks) }
{
    let mut kinds = kinds;
    kinds.push(kind)?;
    Ok(kinds)
}

// `function automatic int f0(int x, byte y)`, and the like with other words.
fn function(
    alloc: Global,
    number: u32,
    automatic: bool,
    gives: Option<Kind>,
    own: bool,
) -> Result<Boxed<Callable>, AllocError>
    requires { UsableResult gives }
    ensures { IfOk result (λ f. UsableFunction f) }
{
    let args = with_kind(Items::new(alloc), int())?;
    let args = with_kind(args, byte())?;
    let item = declared(alloc, automatic)?;
    let function = Boxed::new(
        alloc,
        Callable {
            item,
            number,
            args,
            many: false,
            result: gives,
            own,
        },
    )?;
    Ok(function)
}

fn with_function(
    names: Items<(Name, Entity)>,
    name: Name,
    function: Boxed<Callable>,
) -> Result<Items<(Name, Entity)>, AllocError>
    requires names { AllEntities names }
    requires function { UsableFunction function }
    ensures { IfOk result (λ ns. AllEntities ns) }
{
    with(names, name, Entity::Function(function.into_inner()))
}

fn named(alloc: Global, name: &[u8]) -> Result<Name, AllocError> {
    Name::from_slice(alloc, name)
}

// Names of integral types.
fn integral(alloc: Global) -> Result<Items<(Name, Entity)>, AllocError>
    ensures { IfOk result (λ ns. AllEntities ns) }
{
    let ns = Items::new(alloc);
    let ns = with_var(ns, named(alloc, b"i")?, 0, Some(int()))?;
    let ns = with_var(ns, named(alloc, b"b")?, 1, Some(byte()))?;
    let ns = with_var(ns, named(alloc, b"w")?, 2, Some(logic(8, 7, 0)))?;
    let ns = with_var(ns, named(alloc, b"r")?, 3, Some(logic(8, 0, 7)))?;
    let ns = with_var(ns, named(alloc, b"h")?, 4, Some(logic(4, 7, 4)))?;
    let ns = with_var(ns, named(alloc, b"t")?, 5, Some(logic(1, 0, 0)))?;
    let ns = with_var(ns, named(alloc, b"q")?, 6, Some(logic(64, 63, 0)))?;
    Ok(ns)
}

// And of structures and arrays.
fn composed(alloc: Global) -> Result<Items<(Name, Entity)>, AllocError>
    ensures { IfOk result (λ ns. AllEntities ns) }
{
    let ns = integral(alloc)?;
    let ns = with_var(ns, named(alloc, b"p")?, 10, pair(alloc)?)?;
    let ns = with_var(ns, named(alloc, b"a")?, 11, ints(alloc, 0, 2)?)?;
    let ns = with_var(ns, named(alloc, b"d")?, 12, ints(alloc, 3, 1)?)?;
    let ns = with_var(ns, named(alloc, b"s")?, 13, pairs(alloc, 0, 1)?)?;
    Ok(ns)
}

// And what is no variable.
fn others(alloc: Global) -> Result<Items<(Name, Entity)>, AllocError>
    ensures { IfOk result (λ ns. AllEntities ns) }
{
    let leaf = Leaf {
        width: 32,
        signed: true,
        four: false,
    };
    let ns = composed(alloc)?;
    let ns = with(
        ns,
        named(alloc, b"n")?,
        Entity::Net {
            net: 0,
            kind: int(),
            user: true,
        },
    )?;
    let ns = with(ns, named(alloc, b"x")?, Entity::Interconnect)?;
    let ns = with(
        ns,
        named(alloc, b"l")?,
        Entity::Local {
            local: 0,
            kind: byte(),
        },
    )?;
    let ns = with(ns, named(alloc, b"m")?, Entity::Array { element: int() })?;
    let ns = with(
        ns,
        named(alloc, b"k")?,
        Entity::Constant(Bits::number(leaf, 3)),
    )?;
    Ok(ns)
}

// And functions.
fn all(alloc: Global) -> Result<Items<(Name, Entity)>, AllocError>
    ensures { IfOk result (λ ns. AllEntities ns) }
{
    let ns = others(alloc)?;
    let ns = with_function(
        ns,
        named(alloc, b"f")?,
        function(alloc, 0, true, Some(int()), true)?,
    )?;
    let ns = with_function(
        ns,
        named(alloc, b"g")?,
        function(alloc, 1, true, None, true)?,
    )?;
    let ns = with_function(
        ns,
        named(alloc, b"e")?,
        function(alloc, 2, false, Some(int()), true)?,
    )?;
    let ns = with_function(
        ns,
        named(alloc, b"o")?,
        function(alloc, 3, true, Some(int()), false)?,
    )?;
    Ok(ns)
}

/// The names of the cases, in a procedure or elsewhere.
pub(crate) fn scope(alloc: Global, procedure: bool) -> Result<Scope, AllocError>
    ensures { IfOk result (λ s. UsableScope s) }
{
    let names = all(alloc)?;
    let inside = if procedure {
        Inside::Procedure
    } else {
        Inside::Other
    };
    Ok(Scope { names, inside })
}
