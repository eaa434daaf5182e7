// Names of constants with their values.
ghost use Rattle.std.specs.Prelude.{◌≡◌, List, ℕ, OnOk, OnErr, []};
ghost use Rattle.nt_const.specs.Tables.{inserted, named, names_in};

use crate::{Lookup, Seen};
use indexmap::IndexMap;
use nt_ast::Path;
use nt_value::{Bits, Name};
use std::alloc::{AllocError, Global};
use std::marker::Model;

/// The values of known constants: a map from names to leaves with their digits. A constant `x` of a package `p` stands
/// under the name `p::x` (IEEE 1800-2017, 26.3). Contracts see its entries in the order in which their names were first
/// inserted, and ask by `named` for the value of a name. A look-up takes a time that does not grow with the number of names.
#[derive(Drop)]
pub struct Constants {
    items: IndexMap<Name, Bits>,
}

impl Model for Constants {
    ghost use Rattle.nt_const.specs.Tables.{Known};

    ghost Value = { Known };

    ghost view = { λ c. c.items.entries };
}

impl Constants {
    /// No names. It takes no memory.
    pub fn new(alloc: Global) -> Constants
        ensures empty { result ≡ [] }
    {
        Constants {
            items: IndexMap::new(alloc),
        }
    }

    /// Gives a name a value, in place of the one that it had. All other names keep theirs. Without memory all stays as it
    /// was.
    pub fn insert(&mut self, name: Name, bits: Bits) -> Result<(), AllocError>
        ensures ok { OnOk result ((other : List ℕ) → named self.new other ≡ inserted name bits (named self.old) other) }
        ensures err { OnErr result (self.new ≡ self.old) }
    {
        self.items.insert(name, bits)?;
        Ok(())
    }

    /// The value that was last inserted for a name, or `None` where none was. It takes no memory.
    pub fn get(&self, name: &Name) -> Option<Bits>
        ensures value { result ≡ named self.now name.now }
    {
        self.items.get(name).copied()
    }
}

impl Lookup for Constants {
    ghost sees = { names_in };

    fn look(&self, alloc: Global, path: &Path) -> Result<Seen, AllocError> {
        let name = path.full_name(alloc)?;
        match self.get(&name) {
            Some(value) => Ok(Seen::Value(value)),
            None => Ok(Seen::Unknown),
        }
    }
}
