// Segments that are joined, and the classes that they make.
ghost use Rattle.std.specs.Prelude.{◌≡◌};
ghost use Rattle.nt_merge.specs.Classes.{IsNaming};

use std::marker::Model;

/// Two segments that a port joins into one net (IEEE 1800-2017, 23.3.3).
#[derive(Clone, Copy, Debug, PartialEq, Eq)]
pub struct Link {
    pub a: u32,
    pub b: u32,
}

/// The classes of joined segments. Contracts see the list that gives each segment the least one of its class.
#[derive(Debug, Drop)]
pub struct Classes {
    least: Vec<u32>,
}

impl Model for Classes {
    ghost use Rattle.std.specs.Prelude.{List, ℕ};

    ghost Value = { List ℕ };

    ghost use Rattle.nt_merge.specs.Classes.{IsNaming};

    ghost view = { λ c. c.least.items };

    ghost invariant = { λ c. IsNaming c.least.items };
}

impl Classes {
    /// The classes that this list names.
    pub(crate) fn new(least: Vec<u32>) -> Classes
        requires { IsNaming least.items }
        ensures { result ≡ least.items }
    {
        Classes { least }
    }

    /// Each segment's least one of its class. It takes no memory.
    pub fn items(&self) -> &[u32]
        ensures value { result.now ≡ self.now }
        ensures naming { IsNaming self.now }
    {
        &self.least
    }
}
