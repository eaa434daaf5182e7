// Functions that use what is not their own, also through functions that they name.
ghost use Rattle.std.specs.Prelude.{◌≡◌, ◌++◌, IfOk, OnOk, false, get_or, map};
ghost use Rattle.std.specs.List.{flat_map, list_any};
ghost use Rattle.nt_types.specs.Opened.{view_of};
ghost use Rattle.nt_uses.specs.Functions.{call_to, function_used, function_uses, index_from, node_of, rounds};
ghost use Rattle.nt_uses.specs.Functions.{is_flagged as is_flagged_by, same_place as same_place_of, uses_others as uses_others_in};

use crate::Used;
use crate::functions::{function_of, has_foreign, uses_of};
use nt_items::FunctionItem;
use nt_types::Scopes;
use nt_value::Place;
use sqlite_items::Items;
use std::alloc::{AllocError, Global};

/// A chain of calls that a function begins has at most this many: more is refused where functions are elaborated.
pub const MOST_CALLS: usize = 16;

/// One function of several: whether its own body uses what is foreign, and which of them it names.
#[derive(Drop)]
pub struct Node {
    foreign: bool,
    calls: Items<usize>,
}

fn same_place(a: Place, b: Place) -> bool
    ensures { result ≡ same_place_of a b }
{
    a.file == b.file && a.offset == b.offset
}

// The number of the function that is declared at a place.
fn index_of(functions: &[&FunctionItem], at: Place) -> Option<usize>
    ensures { result ≡ index_from (map (λ f. f.now) functions.now) at 0 }
{
    for k in 0..functions.len() {
        if same_place(functions[k].at, at) {
            return Some(k);
        }
    }
    None
}

fn add_call(
    scopes: &Scopes,
    functions: &[&FunctionItem],
    used: Used,
    all: &mut Items<usize>,
) -> Result<(), AllocError>
    ensures { OnOk result (all.new ≡ all.old ++ call_to (map (λ f. f.now) functions.now) (function_used (view_of scopes.now).whats used)) }
{
    let Some(at) = function_of(scopes, used) else {
        return Ok(());
    };
    match index_of(functions, at) {
        None => Ok(()),
        Some(number) => all.push(number),
    }
}

fn add_calls(
    scopes: &Scopes,
    functions: &[&FunctionItem],
    uses: &[Used],
    all: &mut Items<usize>,
) -> Result<(), AllocError>
    ensures { OnOk result (all.new ≡ all.old ++ flat_map (λ u. call_to (map (λ f. f.now) functions.now) (function_used (view_of scopes.now).whats u)) uses.now) }
{
    for used in uses {
        add_call(scopes, functions, *used, all)?;
    }
    Ok(())
}

fn node_for(
    alloc: Global,
    scopes: &Scopes,
    functions: &[&FunctionItem],
    item: &FunctionItem,
) -> Result<Node, AllocError>
    ensures { IfOk result (λ n. n ≡ node_of (view_of scopes.now) (map (λ f. f.now) functions.now) item.now) }
{
    let uses = uses_of(alloc, scopes, item)?;
    let mut calls = Items::new(alloc);
    add_calls(scopes, functions, uses.as_slice(), &mut calls)?;
    Ok(Node {
        foreign: has_foreign(scopes, uses.as_slice()),
        calls,
    })
}

fn nodes_for(
    alloc: Global,
    scopes: &Scopes,
    functions: &[&FunctionItem],
) -> Result<Items<Node>, AllocError>
    ensures { IfOk result (λ all. all ≡ map (node_of (view_of scopes.now) (map (λ f. f.now) functions.now)) (map (λ f. f.now) functions.now)) }
{
    let mut all = Items::new(alloc);
    for item in functions {
        let one = node_for(alloc, scopes, functions, item)?;
        all.push(one)?;
    }
    Ok(all)
}

fn has_flagged(flags: &[bool], calls: &[usize]) -> bool
    ensures { result ≡ list_any (λ j. get_or flags.now j false) calls.now }
{
    for number in calls {
        if flags.get(*number) == Some(&true) {
            return true;
        }
    }
    false
}

fn is_flagged(flags: &[bool], node: &Node) -> bool
    ensures { result ≡ is_flagged_by flags.now node.now }
{
    node.foreign || has_flagged(flags, node.calls.as_slice())
}

// One call more.
fn further(alloc: Global, nodes: &[Node], flags: &[bool]) -> Result<Items<bool>, AllocError>
    ensures { IfOk result (λ all. all ≡ map (is_flagged_by flags.now) nodes.now) }
{
    let mut all = Items::new(alloc);
    for node in nodes {
        all.push(is_flagged(flags, node))?;
    }
    Ok(all)
}

fn foreign(alloc: Global, nodes: &[Node]) -> Result<Items<bool>, AllocError>
    ensures { IfOk result (λ all. all ≡ map (λ n. n.foreign) nodes.now) }
{
    let mut all = Items::new(alloc);
    for node in nodes {
        all.push(node.foreign)?;
    }
    Ok(all)
}

fn spread(alloc: Global, nodes: &[Node], first: Items<bool>) -> Result<Items<bool>, AllocError>
    ensures { IfOk result (λ all. all ≡ rounds 16 nodes.now first) }
{
    let mut flags = first;
    for _k in 0..MOST_CALLS {
        flags = further(alloc, nodes, flags.as_slice())?;
    }
    Ok(flags)
}

/// For each of several functions whether it uses what is not its own (IEEE 1800-2017, 13.4), itself or through a chain of at most `MOST_CALLS` calls of others of
/// them. Each body is looked at once.
///
/// # Errors
///
/// `AllocError` alone.
pub fn use_others(
    alloc: Global,
    scopes: &Scopes,
    functions: &[&FunctionItem],
) -> Result<Items<bool>, AllocError>
    ensures { IfOk result (λ all. all ≡ map (uses_others_in 16 (view_of scopes.now) (map (λ f. f.now) functions.now)) (map (λ f. f.now) functions.now)) }
{
    let nodes = nodes_for(alloc, scopes, functions)?;
    let first = foreign(alloc, nodes.as_slice())?;
    let all = spread(alloc, nodes.as_slice(), first)?;
    Ok(all)
}
