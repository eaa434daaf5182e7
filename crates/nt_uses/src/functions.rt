// Functions that use what is not their own, or write an argument.
ghost use Rattle.std.specs.Prelude.{◌≡◌, IfOk, length, option_map, slice_get, Option};
ghost use Rattle.std.specs.List.{list_any};
ghost use Rattle.nt_types.specs.Opened.{view_of};
ghost use Rattle.nt_uses.specs.Functions.{function_used, function_uses, function_what, is_foreign_what};
ghost use Rattle.nt_uses.specs.Functions.{is_argument as is_argument_of, is_foreign as is_foreign_to, is_write as is_write_of, writes_argument as writes};

use crate::Used;
use crate::stmts::{add_starts, add_stmts};
use nt_bodies::{Body, Inside, own_scope};
use nt_items::FunctionItem;
use nt_scopes::Look;
use nt_types::{Scopes, What};
use nt_value::Place;
use sqlite_items::Items;
use std::alloc::{AllocError, Global};

/// What a function uses, in the order of its source: in the initial values of its locals, and in its body. The time is linear in its size, where each look-up
/// of a name takes the time of `Body::meaning`.
///
/// # Errors
///
/// `AllocError` alone.
pub fn uses_of(
    alloc: Global,
    scopes: &Scopes,
    item: &FunctionItem,
) -> Result<Items<Used>, AllocError>
    ensures { IfOk result (λ all. all ≡ function_uses (view_of scopes.now) item.now) }
{
    let own = own_scope(alloc, item)?;
    let body = Body::new(alloc, &own);
    let mut all = Items::new(alloc);
    add_starts(scopes, &body, item.locals.as_slice(), &mut all)?;
    add_stmts(alloc, scopes, &body, item.body.as_slice(), &mut all)?;
    Ok(all)
}

fn is_foreign_kind(what: Option<&What>) -> bool
    ensures { result ≡ is_foreign_what (option_map (λ w. w.now) what.entry) }
{
    match what {
        None => false,
        Some(What::Type { .. }) => true,
        Some(What::Constant(_path)) => false,
        Some(What::Function(_at)) => false,
        Some(What::Nettype(_at)) => true,
        Some(What::Other) => true,
    }
}

fn place_of(what: Option<&What>) -> Option<Place>
    ensures { result ≡ function_what (option_map (λ w. w.now) what.entry) }
{
    match what {
        Some(What::Function(at)) => Some(*at),
        _ => None,
    }
}

/// Whether a use is of something that is not the function's own (IEEE 1800-2017, 13.4): of what is declared outside it, but for constants and functions, or
/// of the system. It takes no memory.
pub fn is_foreign(scopes: &Scopes, used: Used) -> bool
    ensures { result ≡ is_foreign_to (view_of scopes.now).whats used }
{
    match used {
        Used::System => true,
        Used::Name(Inside::Outside(Look::One(number))) => is_foreign_kind(scopes.what(number)),
        Used::Written(Inside::Outside(Look::One(number))) => is_foreign_kind(scopes.what(number)),
        _ => false,
    }
}

/// The function outside that a use names, by its place. It takes no memory.
pub fn function_of(scopes: &Scopes, used: Used) -> Option<Place>
    ensures { result ≡ function_used (view_of scopes.now).whats used }
{
    match used {
        Used::Name(Inside::Outside(Look::One(number))) => place_of(scopes.what(number)),
        Used::Written(Inside::Outside(Look::One(number))) => place_of(scopes.what(number)),
        _ => None,
    }
}

fn is_argument(item: &FunctionItem, inside: Inside) -> bool
    ensures { result ≡ is_argument_of item.now inside }
{
    match inside {
        Inside::Own(number) => 1 <= number && number <= item.args.as_slice().len(),
        _ => false,
    }
}

fn is_write(item: &FunctionItem, used: Used) -> bool
    ensures { result ≡ is_write_of item.now used }
{
    match used {
        Used::Written(inside) => is_argument(item, inside),
        _ => false,
    }
}

fn has_write(item: &FunctionItem, uses: &[Used]) -> bool
    ensures { result ≡ list_any (is_write_of item.now) uses.now }
{
    for used in uses {
        if is_write(item, *used) {
            return true;
        }
    }
    false
}

/// Whether a function writes or resizes an argument (IEEE 1800-2017, 6.6.7): by an assignment to it, or to a member, an element or a part of it, anywhere
/// in its body. The time is that of `uses_of`.
///
/// # Errors
///
/// `AllocError` alone.
pub fn writes_argument(
    alloc: Global,
    scopes: &Scopes,
    item: &FunctionItem,
) -> Result<bool, AllocError>
    ensures { IfOk result (λ b. b ≡ writes (view_of scopes.now) item.now) }
{
    let uses = uses_of(alloc, scopes, item)?;
    Ok(has_write(item, uses.as_slice()))
}

pub(crate) fn has_foreign(scopes: &Scopes, uses: &[Used]) -> bool
    ensures { result ≡ list_any (is_foreign_to (view_of scopes.now).whats) uses.now }
{
    for used in uses {
        if is_foreign(scopes, *used) {
            return true;
        }
    }
    false
}
