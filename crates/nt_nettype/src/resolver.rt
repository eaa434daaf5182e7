// The functions that resolve nets.
ghost use Rattle.std.specs.Prelude.{◌≡◌, ◌≤◌, ◌↔◌, IsTrue, All, Some, length, option_map};
ghost use Rattle.nt_kinds.specs.Kinds.{leaves};
ghost use Rattle.nt_types.specs.Opened.{view_of};
ghost use Rattle.nt_types.specs.Looks.{look_at};
ghost use Rattle.nt_nettype.specs.Resolvers.{IsWithin, ResolverTells, Returns, Takes, function_at, function_look, function_named};
ghost use Rattle.nt_nettype.specs.Resolvers.{same_place as same_place_of};

use nt_ast::Path;
use nt_diag::{Fault, Rule};
use nt_kinds::Kind;
use nt_scopes::Look;
use nt_types::{Scopes, What};
use nt_typing::Callable;
use nt_uses::writes_argument;
use nt_value::Place;
use std::alloc::Global;

pub(crate) fn same_place(a: Place, b: Place) -> bool
    ensures { result ≡ same_place_of a b }
{
    a.file == b.file && a.offset == b.offset
}

// The function that is declared at a place.
fn find(functions: &[Callable], at: Place) -> Option<&Callable>
    ensures { option_map (λ f. f.now) result ≡ function_at functions.now at }
{
    for function in functions {
        if same_place(function.item.at, at) {
            return Some(function);
        }
    }
    None
}

// The function that is meant by a name.
fn named<'a>(scopes: &Scopes, functions: &'a [Callable], look: Look) -> Option<&'a Callable>
    ensures { option_map (λ f. f.now) result ≡ function_look (view_of scopes.now).whats functions.now look }
{
    match look {
        Look::One(number) => match scopes.what(number) {
            Some(What::Function(at)) => find(functions, *at),
            _ => None,
        },
        _ => None,
    }
}

fn returns(function: &Callable, kind: &Kind) -> bool
    requires function { IsWithin function.now }
    requires kind { length (leaves kind.now) ≤ 64 }
    ensures { IsTrue result ↔ Returns function.now kind.now }
{
    match &function.result {
        None => false,
        Some(own) => own.equivalent(kind),
    }
}

fn takes(function: &Callable, kind: &Kind) -> bool
    requires function { IsWithin function.now }
    requires kind { length (leaves kind.now) ≤ 64 }
    ensures { IsTrue result ↔ Takes function.now kind.now }
{
    match function.args.as_slice() {
        [own] => function.many && own.equivalent(kind),
        _ => false,
    }
}

// A function that is named as a resolver.
fn judged(
    alloc: Global,
    scopes: &Scopes,
    functions: &[Callable],
    path: &Path,
    kind: &Kind,
    function: &Callable,
) -> Result<u32, Fault>
    requires named { function_named (view_of scopes.now) functions.now path.now ≡ Some function.now }
    requires within { IsWithin function.now }
    requires kind { length (leaves kind.now) ≤ 64 }
    ensures { ResolverTells (view_of scopes.now) functions.now path.now kind.now result }
{
    if !returns(function, kind) {
        return Err(Fault::refused(Rule::N2, path.at));
    }
    if !takes(function, kind) {
        return Err(Fault::refused(Rule::N3, path.at));
    }
    if !function.item.automatic {
        return Err(Fault::refused(Rule::N4, path.at));
    }
    if !function.own {
        return Err(Fault::refused(Rule::N5, path.at));
    }
    if writes_argument(alloc, scopes, &function.item)? {
        return Err(Fault::refused(Rule::N6, path.at));
    }
    Ok(function.number)
}

/// The number of the function that a path names, where it resolves nets of a data type (IEEE 1800-2017, 6.6.7): it returns the type, has one argument, which
/// is a dynamic array of the type, is automatic, uses only its own, and neither writes nor resizes its argument. The path is looked up from
/// where it stands, and the function is the one of `functions` that is declared there.
///
/// # Errors
///
/// `Refused` at the path, with the least of T4, T9 and N1 to N6 that it breaks. `OutOfMemory`.
pub fn resolver_of(
    alloc: Global,
    scopes: &Scopes,
    path: &Path,
    kind: &Kind,
    functions: &[Callable],
) -> Result<u32, Fault>
    requires functions { All IsWithin functions.now }
    requires kind { length (leaves kind.now) ≤ 64 }
    ensures { ResolverTells (view_of scopes.now) functions.now path.now kind.now result }
{
    let look = scopes.meaning(path);
    match named(scopes, functions, look) {
        Some(function) => judged(alloc, scopes, functions, path, kind, function),
        None => match look {
            Look::Unknown => Err(Fault::refused(Rule::T4, path.at)),
            Look::Ambiguous => Err(Fault::refused(Rule::T9, path.at)),
            Look::One(_number) => Err(Fault::refused(Rule::N1, path.at)),
        },
    }
}
