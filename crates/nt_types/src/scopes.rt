// The scopes of units, opened.
ghost use Rattle.std.specs.Prelude.{◌≡◌, ◌++◌, IfOk, OnOk, None, option_map, slice_get};
ghost use Rattle.nt_scopes.specs.Means.{Means};
ghost use Rattle.nt_types.specs.Units.{MeansAt, begins, chain_at, home_in, scope_by, scope_number, scopes_of};
ghost use Rattle.nt_types.specs.Opened.{Opens, view_of};
ghost use Rattle.nt_unit_names.specs.Faults.{unit_of};

use crate::parts::What;
use crate::units::{Home, counts, homes, items_of, packages, unit_scope};
use nt_ast::Path;
use nt_diag::Fault;
use nt_items::Units;
use nt_scopes::{Look, Scope, meaning, meaning_of};
use nt_unit_names::check_names;
use nt_value::Place;
use sqlite_items::Items;
use std::alloc::{AllocError, Global};

/// The scopes of units: of the unit itself, and of its packages and modules, with what is declared in them (IEEE 1800-2017, 3.12.1, 23.9,
/// 26.2). Contracts see the scopes, the packages by name, what is declared by its number, and where the items of the unit begin.
#[derive(Drop)]
pub struct Scopes {
    pub scopes: Vec<Scope>,
    /// The packages by name, with the numbers of their scopes.
    pub packages: Scope,
    /// What is declared, by its number.
    pub whats: Items<What>,
    /// Where the items of the unit begin.
    pub homes: Items<Home>,
}

fn add_all(all: &mut Vec<Scope>, more: &mut Vec<Scope>) -> Result<(), AllocError>
    ensures { OnOk result (all.new.items ≡ all.old.items ++ more.old.items) }
{
    all.append(more)
}

fn built(alloc: Global, units: &[Units]) -> Result<Scopes, AllocError>
    ensures { IfOk result (λ s. view_of s ≡ scopes_of (unit_of units.now)) }
{
    let unit = items_of(alloc, units)?;
    let home = homes(alloc, &unit)?;
    let package = packages(alloc, &unit)?;
    let mut what = Items::new(alloc);
    let mut inner = Vec::new(alloc);
    let first = unit_scope(alloc, &package, &mut inner, &mut what, &unit)?;
    let mut all = Vec::new(alloc);
    all.push(first)?;
    add_all(&mut all, &mut inner)?;
    Ok(Scopes {
        scopes: all,
        packages: package,
        whats: what,
        homes: home,
    })
}

fn begins_at(start: Place, at: Place) -> bool
    ensures { result ≡ begins start at }
{
    start.file == at.file && start.offset <= at.offset
}

impl Scopes {
    /// The scopes of units. The unit is that of all files in order.
    ///
    /// # Errors
    ///
    /// `Refused` with the least fault of the names of packages, of the unit and of modules: T5 at the second of two equal names in one scope,
    /// T4 at an import of a package that does not stand before it, or of a name that the package does not declare. `OutOfMemory`.
    pub fn open(alloc: Global, units: &[Units]) -> Result<Scopes, Fault>
        ensures { Opens units.now result }
    {
        check_names(alloc, units)?;
        let scopes = built(alloc, units)?;
        Ok(scopes)
    }

    // The scope that a place stands in, beside the unit's own.
    fn home_at(&self, at: Place) -> Option<usize>
        ensures { result ≡ home_in (view_of self.now).homes at None }
    {
        let mut found = None;
        for home in self.homes.as_slice() {
            if begins_at(home.start, at) {
                found = home.scope;
            }
        }
        found
    }

    fn scope_at(&self, number: Option<usize>) -> Option<&Scope>
        ensures { scope_by (option_map (λ s. s.now) result) ≡ scope_number (view_of self.now).scopes number }
    {
        match number {
            None => None,
            Some(number) => self.scopes.get(number),
        }
    }

    // What a name means at a place.
    fn named(&self, at: Place, path: &Path) -> Look
        ensures { Means (view_of self.now).scopes at path.now.name (chain_at (view_of self.now) at) result }
    {
        let inner = self.scope_at(self.home_at(at));
        let unit = self.scope_at(Some(0));
        match (inner, unit) {
            (Some(inner), Some(unit)) => meaning(&self.scopes, &[inner, unit], at, &path.name),
            (None, Some(unit)) => meaning(&self.scopes, &[unit], at, &path.name),
            (Some(inner), None) => meaning(&self.scopes, &[inner], at, &path.name),
            (None, None) => Look::Unknown,
        }
    }

    /// What a path means at its place: the number of a declaration, nothing (T4), or what two imports give (T9). It takes no memory. The time is that of the items
    /// of the unit, and of the imports of the scopes that are looked at.
    pub fn meaning(&self, path: &Path) -> Look
        ensures { MeansAt (view_of self.now) path.now result }
    {
        match &path.scope {
            None => self.named(path.at, path),
            Some(scope) => match self.packages.find(scope) {
                None => Look::Unknown,
                Some(entry) => {
                    if counts(entry.from, path.at) {
                        meaning_of(&self.scopes, entry.number, path.at, &path.name)
                    } else {
                        Look::Unknown
                    }
                }
            },
        }
    }

    /// What is declared under a number. It takes no memory.
    pub fn what(&self, number: usize) -> Option<&What>
        ensures { option_map (λ w. w.now) result ≡ slice_get (view_of self.now).whats number }
    {
        self.whats.as_slice().get(number)
    }
}
