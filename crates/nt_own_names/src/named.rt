// Declared names, and the first fault of a scope of them.
ghost use Rattle.std.specs.Prelude.{◌≡◌, ◌++◌, ◌∷◌, [], is_some, IfOk, OnOk, None};
ghost use Rattle.std.specs.Map.{lookup};
ghost use Rattle.std.specs.Str.{bytes_eq};
ghost use Rattle.nt_diag.specs.Order.{IsLeastOf};
ghost use Rattle.nt_scopes.specs.Means.{added};
ghost use Rattle.nt_own_names.specs.Twice.{Twice, fault_if};
ghost use Rattle.nt_own_names.specs.Twice.{named as named_of};

use nt_ast::Declared;
use nt_diag::{Refusal, Rule, earlier};
use nt_scopes::{Entry, Scope};
use nt_value::{Name, Place};
use sqlite_items::Items;
use std::alloc::{AllocError, Global};

/// A name that is declared, and where it stands.
#[derive(Drop)]
pub struct Named {
    pub name: Name,
    pub at: Place,
}

// Only the name counts here.
const ENTRY: Entry = Entry {
    from: None,
    number: 0,
};

pub(crate) fn add(
    alloc: Global,
    all: &mut Items<Named>,
    name: &Name,
    at: Place,
) -> Result<(), AllocError>
    ensures { OnOk result (all.new ≡ all.old ++ record { name = name.now; at = at } ∷ []) }
{
    let name = name.copy(alloc)?;
    all.push(Named { name, at })
}

pub(crate) fn add_declared(
    alloc: Global,
    all: &mut Items<Named>,
    what: &Declared,
) -> Result<(), AllocError>
    ensures { OnOk result (all.new ≡ all.old ++ named_of what.now ∷ []) }
{
    add(alloc, all, &what.name, what.at)
}

// A name more in a scope: whether it is declared for the second time.
fn again(alloc: Global, scope: &mut Scope, name: &Name) -> Result<bool, AllocError>
    ensures is { IfOk result (λ b. b ≡ is_some (lookup (bytes_eq name.now) scope.old.names)) }
    ensures names { OnOk result (scope.new.names ≡ added scope.old.names name.now (record { from = None; number = 0 })) }
{
    let name = name.copy(alloc)?;
    let is_new = scope.declare(name, ENTRY)?;
    Ok(!is_new)
}

// The fault of a name that stands there before.
fn fault(is_again: bool, at: Place) -> Option<Refusal>
    ensures { result ≡ fault_if is_again at }
{
    if is_again {
        Some(Refusal {
            rule: Rule::T5,
            place: at,
        })
    } else {
        None
    }
}

/// The least fault of the declarations of one scope, which stand in their order: T5 at a name that stands there before (IEEE 1800-2017,
/// 3.13, 23.9). The time is linear in their number.
///
/// # Errors
///
/// `AllocError` alone.
pub fn twice(alloc: Global, names: &[Named]) -> Result<Option<Refusal>, AllocError>
    ensures { IfOk result (λ r. IsLeastOf (Twice names.now) r) }
{
    let mut scope = Scope::new(alloc);
    let mut least = None;
    for name in names {
        let is_again = again(alloc, &mut scope, &name.name)?;
        least = earlier(least, fault(is_again, name.at));
    }
    Ok(least)
}
