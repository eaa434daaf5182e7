// Scopes: what is declared and imported.
ghost use Rattle.std.specs.Prelude.{◌≡◌, ◌++◌, ◌∷◌, not, is_some, IfOk, OnOk, OnErr, []};
ghost use Rattle.std.specs.Map.{lookup};
ghost use Rattle.std.specs.Str.{bytes_eq};
ghost use Rattle.nt_scopes.specs.Means.{added};

use indexmap::IndexMap;
use nt_value::{Name, Place};
use sqlite_items::Items;
use std::alloc::{AllocError, Global};
use std::marker::Model;

/// A declaration: the place after which it counts, or `None` where it counts everywhere as the names of modules, functions and tasks
/// do, and its number among all.
#[derive(Clone, Copy, Debug)]
pub struct Entry {
    pub from: Option<Place>,
    pub number: usize,
}

/// `import package::name;`, and `import package::*;` without a name (IEEE 1800-2017, 26.3). The package is told by the number of its
/// scope. The import counts after its place.
#[derive(Drop)]
pub struct Import {
    pub at: Place,
    pub package: usize,
    pub name: Option<Name>,
}

/// What is found under a name.
#[derive(Clone, Copy, Debug, PartialEq, Eq)]
pub enum Look {
    /// Nothing: T4 (IEEE 1800-2017, 23.9).
    Unknown,
    /// One declaration, by its number.
    One(usize),
    /// What two imports give: T9 (26.3).
    Ambiguous,
}

/// The names of a package, a module, a function or the unit, and what is imported into it. Contracts see the names, each with its
/// first declaration, and the imports in order. A look-up of a name takes a time that does not grow with their number.
#[derive(Drop)]
pub struct Scope {
    entries: IndexMap<Name, Entry>,
    imported: Items<Import>,
}

impl Model for Scope {
    ghost use Rattle.nt_scopes.specs.Means.{Names};

    ghost Value = { Names };

    ghost view = { λ s. record { names = s.entries.entries; imports = s.imported } };
}

impl Scope {
    /// A scope without names. It takes no memory.
    pub fn new(alloc: Global) -> Scope
        ensures names { result.names ≡ [] }
        ensures imports { result.imports ≡ [] }
    {
        Scope {
            entries: IndexMap::new(alloc),
            imported: Items::new(alloc),
        }
    }

    /// Adds a declaration, and says whether the name is a new one: one that the scope has keeps its first declaration. Without memory all
    /// stays as it was.
    pub fn declare(&mut self, name: Name, entry: Entry) -> Result<bool, AllocError>
        ensures names { OnOk result (self.new.names ≡ added self.old.names name entry) }
        ensures is_new { IfOk result (λ b. b ≡ not (is_some (lookup (bytes_eq name) self.old.names))) }
        ensures imports { self.new.imports ≡ self.old.imports }
        ensures err { OnErr result (self.new.names ≡ self.old.names) }
    {
        if self.entries.contains_key(&name) {
            return Ok(false);
        }
        self.entries.insert(name, entry)?;
        Ok(true)
    }

    /// Adds an import. Without memory all stays as it was.
    pub fn import(&mut self, import: Import) -> Result<(), AllocError>
        ensures imports { OnOk result (self.new.imports ≡ self.old.imports ++ import ∷ []) }
        ensures names { self.new.names ≡ self.old.names }
        ensures err { OnErr result (self.new.imports ≡ self.old.imports) }
    {
        self.imported.push(import)?;
        Ok(())
    }

    /// The first declaration of a name. It takes no memory.
    pub fn find(&self, name: &Name) -> Option<Entry>
        ensures { result ≡ lookup (bytes_eq name.now) self.now.names }
    {
        self.entries.get(name).copied()
    }

    /// What is imported, in order.
    pub fn imports(&self) -> &[Import]
        ensures { result.now ≡ self.now.imports }
    {
        self.imported.as_slice()
    }
}
