// What a name means at a place.
ghost use Rattle.std.specs.Prelude.{◌≡◌, true, false, length, map};
ghost use Rattle.std.specs.Str.{bytes_eq};
ghost use Rattle.nt_scopes.specs.Choices.{Among, Choice, IsFound};
ghost use Rattle.nt_scopes.specs.Choices.{both as both_of};
ghost use Rattle.nt_scopes.specs.Means.{Declares, Gives, Means, MeansIn, MeansOf, is_import_of};
ghost use Rattle.nt_scopes.specs.Means.{counts as counts_at, is_before as before};

use crate::{Import, Look, Scope};
use nt_value::{Name, Place};

fn is_before(a: Place, b: Place) -> bool
    ensures { result ≡ before a b }
{
    a.file < b.file || (a.file == b.file && a.offset < b.offset)
}

fn counts(from: Option<Place>, at: Place) -> bool
    ensures { result ≡ counts_at from at }
{
    match from {
        None => true,
        Some(from) => is_before(from, at),
    }
}

fn same(a: &[u8], b: &[u8]) -> bool
    ensures { result ≡ bytes_eq a.now b.now }
{
    a == b
}

// What a scope declares under a name.
fn held(scope: &Scope, at: Place, name: &Name) -> Option<usize>
    ensures { IsFound (Declares scope.now.names at name.now) result }
{
    match scope.find(name) {
        None => None,
        Some(entry) => {
            if counts(entry.from, at) {
                Some(entry.number)
            } else {
                None
            }
        }
    }
}

fn both(a: Look, b: Look) -> Look
    ensures { result ≡ both_of a b }
{
    match (a, b) {
        (Look::Unknown, b) => b,
        (a, Look::Unknown) => a,
        (Look::One(t), Look::One(u)) => {
            if t == u {
                Look::One(t)
            } else {
                Look::Ambiguous
            }
        }
        _ => Look::Ambiguous,
    }
}

// Whether an import is one by this name, or a wildcard import.
fn is_of(wildcard: bool, name: &Name, import: &Import) -> bool
    ensures { result ≡ is_import_of wildcard name.now import.now.name }
{
    match &import.name {
        None => wildcard,
        Some(own) => {
            if wildcard {
                false
            } else {
                same(name.items(), own.items())
            }
        }
    }
}

// What one import gives.
fn import_look(scopes: &[Scope], at: Place, name: &Name, wildcard: bool, import: &Import) -> Look
    ensures { Choice (Gives scopes.now at name.now wildcard import.now) result }
{
    if !is_of(wildcard, name, import) {
        return Look::Unknown;
    }
    if !is_before(import.at, at) {
        return Look::Unknown;
    }
    let Some(package) = scopes.get(import.package) else {
        return Look::Unknown;
    };
    match held(package, at, name) {
        Some(number) => Look::One(number),
        None => Look::Unknown,
    }
}

// What imports give.
fn imports_look(
    scopes: &[Scope],
    at: Place,
    name: &Name,
    wildcard: bool,
    imports: &[Import],
) -> Look
    ensures { Choice (Among (Gives scopes.now at name.now wildcard) (length imports.now) imports.now) result }
{
    let mut found = Look::Unknown;
    for import in imports {
        found = both(found, import_look(scopes, at, name, wildcard, import));
    }
    found
}

// What a name means in one scope.
fn look_in(scopes: &[Scope], at: Place, name: &Name, scope: &Scope) -> Look
    ensures { MeansIn scopes.now at name.now scope.now result }
{
    if let Some(number) = held(scope, at, name) {
        return Look::One(number);
    }
    match imports_look(scopes, at, name, false, scope.imports()) {
        Look::Unknown => imports_look(scopes, at, name, true, scope.imports()),
        found => found,
    }
}

/// What a name means at a place, in the scopes of `chain` from the innermost one on (IEEE 1800-2017, 23.9, 26.3): in the first scope
/// that gives it, its declaration there, or what is imported by name, or by wildcard. `scopes` are all scopes, by whose numbers imports name
/// packages. It takes no memory. The time is that of the imports of the scopes that are looked at.
pub fn meaning(scopes: &[Scope], chain: &[&Scope], at: Place, name: &Name) -> Look
    ensures { Means scopes.now at name.now (map (λ s. s.now) chain.now) result }
{
    for scope in chain {
        match look_in(scopes, at, name, scope) {
            Look::Unknown => {}
            found => return found,
        }
    }
    Look::Unknown
}

/// What `p::name` means at a place: what the package p, told by the number of its scope, declares under the name, where that counts (IEEE
/// 1800-2017, 26.3). It takes no memory.
pub fn meaning_of(scopes: &[Scope], number: usize, at: Place, name: &Name) -> Look
    ensures { MeansOf scopes.now at name.now number result }
{
    let Some(package) = scopes.get(number) else {
        return Look::Unknown;
    };
    match held(package, at, name) {
        Some(number) => Look::One(number),
        None => Look::Unknown,
    }
}
