// Nettypes.
ghost use Rattle.std.specs.Prelude.{◌≡◌, ◌≤◌, All, IfOk, None, length, option_map};
ghost use Rattle.nt_ast.specs.declared.types.TypeTree.TheViews.{out-TypeTree};
ghost use Rattle.nt_kinds.specs.Kinds.{leaves};
ghost use Rattle.nt_type_trees.specs.Types.{type_place};
ghost use Rattle.nt_types.specs.Opened.{view_of};
ghost use Rattle.nt_nettype.specs.Resolvers.{IsWithin};
ghost use Rattle.nt_nettype.specs.Nettypes.{ChosenTells, NettypeTells, RenamedTells, is_nettype_before, nettype_at, nettype_look, number_at, renamed, world};

use crate::resolver::{resolver_of, same_place};
use nt_ast::{Path, TypeTree};
use nt_diag::{Fault, Refusal, Rule};
use nt_items::NettypeItem;
use nt_kinds::Kind;
use nt_named_types::TypeView;
use nt_scopes::Look;
use nt_types::{Scopes, What};
use nt_typing::Callable;
use nt_value::Place;
use std::alloc::{AllocError, Global};

/// A nettype: its number among all nettypes by file and offset, where another name of one has the number of the first (IEEE 1800-2017, 6.22.6), its data
/// type, and the number of the function that resolves it, or `None` where it is unresolved (6.6.7).
#[derive(Drop)]
pub struct Nettype {
    pub number: usize,
    pub kind: Kind,
    pub resolver: Option<u32>,
}

/// What is seen of the declaration of a nettype: the nettype, or the least fault in it.
#[derive(Drop)]
pub enum NettypeSeen {
    Known(Nettype),
    Faulty(Refusal),
}

/// A nettype that stands before, by the place of its declaration.
#[derive(Drop)]
pub struct Before {
    pub at: Place,
    pub seen: NettypeSeen,
}

fn is_before(what: &What, at: Place) -> bool
    ensures { result ≡ is_nettype_before at what.now }
{
    match what {
        What::Nettype(own) => {
            own.file < at.file || (own.file == at.file && own.offset < at.offset)
        }
        _ => false,
    }
}

// How many nettypes stand before a place.
fn number(whats: &[What], at: Place) -> usize
    ensures { result ≡ number_at whats.now at }
{
    let mut count = 0;
    for what in whats {
        if is_before(what, at) {
            count += 1;
        }
    }
    count
}

fn find(before: &[Before], at: Place) -> Option<&NettypeSeen>
    ensures { option_map (λ n. n.now) result ≡ nettype_at before.now at }
{
    for one in before {
        if same_place(one.at, at) {
            return Some(&one.seen);
        }
    }
    None
}

// The nettype that is meant by a name.
fn named<'a>(scopes: &Scopes, before: &'a [Before], look: Look) -> Option<&'a NettypeSeen>
    ensures { option_map (λ n. n.now) result ≡ nettype_look (view_of scopes.now).whats before.now look }
{
    match look {
        Look::One(number) => match scopes.what(number) {
            Some(What::Nettype(at)) => find(before, *at),
            _ => None,
        },
        _ => None,
    }
}

// The nettype that a declaration renames.
fn renamed_by<'a>(
    types: &TypeView,
    functions: &[Callable],
    before: &'a [Before],
    base: &TypeTree,
) -> Option<&'a NettypeSeen>
    ensures { option_map (λ n. n.now) result ≡ renamed (world (view_of types.now.names.scopes.now) types.now.names.known.now types.now.table.now functions.now before.now) (out-TypeTree base.now) }
{
    match base {
        TypeTree::Named { path, .. } => {
            named(types.names.scopes, before, types.names.scopes.meaning(path))
        }
        _ => None,
    }
}

fn base_place(tree: &TypeTree) -> Place
    ensures { result ≡ type_place (out-TypeTree tree.now) }
{
    match tree {
        TypeTree::Integral { at, .. } => *at,
        TypeTree::Struct { at, .. } => *at,
        TypeTree::Named { at, .. } => *at,
        TypeTree::Void { at } => *at,
    }
}

fn copy(alloc: Global, nettype: &Nettype) -> Result<Nettype, AllocError>
    ensures { IfOk result (λ n. n ≡ nettype.now) }
{
    Ok(Nettype {
        number: nettype.number,
        kind: nettype.kind.copy(alloc)?,
        resolver: nettype.resolver,
    })
}

// The function after `with`, if there is one.
fn resolver_if_there(
    alloc: Global,
    scopes: &Scopes,
    path: &Option<Path>,
    kind: &Kind,
    functions: &[Callable],
) -> Result<Option<u32>, Fault>
    requires functions { All IsWithin functions.now }
    requires kind { length (leaves kind.now) ≤ 64 }
    ensures { ChosenTells (view_of scopes.now) functions.now path.now kind.now result }
{
    match path {
        None => Ok(None),
        Some(path) => {
            let number = resolver_of(alloc, scopes, path, kind, functions)?;
            Ok(Some(number))
        }
    }
}

// A nettype of its own.
fn own_nettype(
    alloc: Global,
    types: &TypeView,
    before: &[Before],
    item: &NettypeItem,
    functions: &[Callable],
) -> Result<Nettype, Fault>
    requires functions { All IsWithin functions.now }
    requires own { renamed (world (view_of types.now.names.scopes.now) types.now.names.known.now types.now.table.now functions.now before.now) (out-TypeTree item.now.base) ≡ None }
    ensures { NettypeTells (world (view_of types.now.names.scopes.now) types.now.names.known.now types.now.table.now functions.now before.now) item.now result }
{
    let scopes = types.names.scopes;
    let kind = types.kind_of(alloc, item.base.get())?;
    let resolver = resolver_if_there(alloc, scopes, &item.resolver, &kind, functions)?;
    Ok(Nettype {
        number: number(scopes.whats.as_slice(), item.at),
        kind,
        resolver,
    })
}

// Another name of a nettype.
fn other_name(alloc: Global, item: &NettypeItem, seen: &NettypeSeen) -> Result<Nettype, Fault>
    ensures { RenamedTells item.now seen.now result }
{
    match seen {
        NettypeSeen::Faulty(refusal) => Err(Fault::Refused(*refusal)),
        NettypeSeen::Known(nettype) => match &item.resolver {
            Some(_path) => Err(Fault::refused(Rule::N7, base_place(item.base.get()))),
            None => {
                let same = copy(alloc, nettype)?;
                Ok(same)
            }
        },
    }
}

/// The nettype of a declaration (IEEE 1800-2017, 6.6.7): one of its own, or another name of one of `before`, which has that one's number (6.22.6). Names are
/// looked up from where they stand, and functions are those of `functions`.
///
/// # Errors
///
/// `Refused` with the least fault by file, offset and rule: of its data type T1 to T4, T6, T7 and T9; of its resolver T4, T9 and N1 to N6, which rest on
/// the data type; N7 at the data type where a resolver is given to another name of a nettype; what is wrong with the nettype that is renamed.
/// `OutOfMemory`.
pub fn nettype_of(
    alloc: Global,
    types: &TypeView,
    before: &[Before],
    item: &NettypeItem,
    functions: &[Callable],
) -> Result<Nettype, Fault>
    requires functions { All IsWithin functions.now }
    ensures { NettypeTells (world (view_of types.now.names.scopes.now) types.now.names.known.now types.now.table.now functions.now before.now) item.now result }
{
    match renamed_by(types, functions, before, item.base.get()) {
        None => own_nettype(alloc, types, before, item, functions),
        Some(seen) => other_name(alloc, item, seen),
    }
}
