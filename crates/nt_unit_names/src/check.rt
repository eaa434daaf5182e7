// The least fault of names.
ghost use Rattle.std.specs.Prelude.{◌≡◌, IfOk};
ghost use Rattle.nt_diag.specs.Order.{AmongAll, IsLeastOf};
ghost use Rattle.nt_items.specs.declared.item.Item.TheViews.{out-Item};
ghost use Rattle.nt_unit_names.specs.Answers.{TellsAgain, TellsItem, TellsScope};
ghost use Rattle.nt_unit_names.specs.Faults.{Checks, FileFault, ItemFault, NameFault, PackageFault, PackagesFault, unit_of};

use crate::parts::{is_there, name_of, place};
use nt_diag::{Fault, Refusal, Rule, earlier};
use nt_items::{Item, Units};
use nt_scopes::{Entry, Scope};
use nt_value::{Name, Place};
use std::alloc::{AllocError, Global};

// Only the name counts here.
const ENTRY: Entry = Entry {
    from: None,
    number: 0,
};

fn refused(rule: Rule, place: Place) -> Refusal
    ensures { result ≡ record { rule = rule; place = place } }
{
    Refusal { rule, place }
}

// A name more in a scope: whether it is declared for the second time.
fn again(alloc: Global, names: &mut Scope, item: &Item) -> Result<bool, AllocError>
    ensures { IfOk result (λ b. TellsAgain names.old item.now names.new b) }
{
    match name_of(item) {
        None => Ok(false),
        Some(name) => {
            let name = name.copy(alloc)?;
            let is_new = names.declare(name, ENTRY)?;
            Ok(!is_new)
        }
    }
}

// The fault of an item in its scope.
fn item_fault(
    alloc: Global,
    units: &[Units],
    names: &mut Scope,
    item: &Item,
) -> Result<Option<Refusal>, AllocError>
    ensures { IfOk result (λ r. TellsItem (unit_of units.now) names.old item.now names.new r) }
{
    let again = again(alloc, names, item)?;
    if again {
        return Ok(Some(refused(Rule::T5, place(item))));
    }
    match item {
        Item::Import { at, scope, name } => {
            if is_there(units, *at, scope, name) {
                Ok(None)
            } else {
                Ok(Some(refused(Rule::T4, *at)))
            }
        }
        _ => Ok(None),
    }
}

// The least fault of the items of one scope.
fn scope_fault(
    alloc: Global,
    units: &[Units],
    names: &mut Scope,
    items: &[Item],
) -> Result<Option<Refusal>, AllocError>
    ensures { IfOk result (λ r. TellsScope (unit_of units.now) names.old items.now names.new r) }
{
    let mut least = None;
    for item in items {
        let fault = item_fault(alloc, units, names, item)?;
        least = earlier(least, fault);
    }
    Ok(least)
}

fn package_fault(alloc: Global, units: &[Units], item: &Item) -> Result<Option<Refusal>, AllocError>
    ensures { IfOk result (λ r. IsLeastOf (PackageFault (unit_of units.now) (out-Item item.now)) r) }
{
    match item {
        Item::Package { items, .. } => {
            let mut names = Scope::new(alloc);
            let fault = scope_fault(alloc, units, &mut names, items.as_slice())?;
            Ok(fault)
        }
        _ => Ok(None),
    }
}

// The least fault in the packages of a file.
fn packages_fault(
    alloc: Global,
    units: &[Units],
    items: &[Item],
) -> Result<Option<Refusal>, AllocError>
    ensures { IfOk result (λ r. IsLeastOf (AmongAll (λ k x r. PackageFault (unit_of units.now) (out-Item x) r) items.now) r) }
{
    let mut least = None;
    for item in items {
        let fault = package_fault(alloc, units, item)?;
        least = earlier(least, fault);
    }
    Ok(least)
}

// The least fault of the names of the unit.
fn unit_fault(alloc: Global, units: &[Units]) -> Result<Option<Refusal>, AllocError>
    ensures { IfOk result (λ r. IsLeastOf (AmongAll (FileFault (unit_of units.now) units.now) units.now) r) }
{
    let mut names = Scope::new(alloc);
    let mut least = None;
    for file in units {
        let fault = scope_fault(alloc, units, &mut names, file.items.as_slice())?;
        least = earlier(least, fault);
    }
    Ok(least)
}

// The least fault in packages.
fn all_packages_fault(alloc: Global, units: &[Units]) -> Result<Option<Refusal>, AllocError>
    ensures { IfOk result (λ r. IsLeastOf (AmongAll (PackagesFault (unit_of units.now)) units.now) r) }
{
    let mut least = None;
    for file in units {
        let fault = packages_fault(alloc, units, file.items.as_slice())?;
        least = earlier(least, fault);
    }
    Ok(least)
}

fn least_fault(alloc: Global, units: &[Units]) -> Result<Option<Refusal>, AllocError>
    ensures { IfOk result (λ r. IsLeastOf (NameFault units.now) r) }
{
    let unit = unit_fault(alloc, units)?;
    let packages = all_packages_fault(alloc, units)?;
    Ok(earlier(unit, packages))
}

/// Whether the names of packages, of the unit and of modules are declared once, and what is imported into packages and the unit is there (IEEE
/// 1800-2017, 3.13, 26.3). Modules, packages and items of the unit share one scope, over all files; each package has a scope of its
/// own. What a module declares and imports is not looked at.
///
/// A refusal is the least fault by file, offset and rule: T5 at the second of two equal names in one scope; T4 at an import of a
/// package that does not stand before it, or of a name that the package does not declare. Want of memory is the only other failure.
pub fn check_names(alloc: Global, units: &[Units]) -> Result<(), Fault>
    ensures { Checks units.now result }
{
    match least_fault(alloc, units)? {
        None => Ok(()),
        Some(refusal) => Err(Fault::Refused(refusal)),
    }
}
