// The queues.
ghost use Rattle.std.specs.Prelude.{◌≡◌, ◌<◌, [], OnOk, OnErr, IfOk};
ghost use Rattle.nt_design.specs.declared.put.Put.{Put as PutValue};
ghost use Rattle.nt_queue.specs.Lists.{TakesNext, with_inactive, with_moment, with_update};

use nt_design::Put;
use std::alloc::{AllocError, Global};
use std::collections::BTreeMap;
use std::marker::Model;
use std::mem;

/// The procedures in the Inactive region (IEEE 1800-2017, 4.4.2.3) and in later slots (9.4.1), and the updates in the NBA
/// region (4.4.2.4), each list in the order in which it was filled.
#[derive(Drop)]
pub struct Queues {
    alloc: Global,
    inactive: Vec<u32>,
    updates: Vec<Put>,
    later: BTreeMap<u64, Vec<u32>>,
}

impl Model for Queues {
    ghost use Rattle.nt_queue.specs.Lists.{Waiting, lists_of};

    ghost Value = { Waiting };

    ghost view = { λ q. record { inactive = q.inactive.items; updates = q.updates.items; later = lists_of q.later.entries } };
}

impl Queues {
    /// Empty queues.
    pub fn new(alloc: Global) -> Queues
        ensures { result ≡ record { inactive = []; updates = []; later = [] } }
    {
        Queues {
            alloc,
            inactive: Vec::new(alloc),
            updates: Vec::new(alloc),
            later: BTreeMap::new(alloc),
        }
    }

    /// Puts a procedure into Inactive.
    ///
    /// # Errors
    ///
    /// Where memory is refused. Nothing changes then.
    pub fn inactive(&mut self, proc: u32) -> Result<(), AllocError>
        ensures put { OnOk result (self.new ≡ with_inactive proc self.old) }
        ensures same { OnErr result (self.new ≡ self.old) }
    {
        self.inactive.push(proc)?;
        Ok(())
    }

    /// Puts an update into NBA.
    ///
    /// # Errors
    ///
    /// Where memory is refused. Nothing changes then.
    pub fn nonblocking(&mut self, put: Put) -> Result<(), AllocError>
        ensures put { OnOk result (self.new ≡ with_update put self.old) }
        ensures same { OnErr result (self.new ≡ self.old) }
    {
        self.updates.push(put)?;
        Ok(())
    }

    /// Puts a procedure into the slot of a moment, in units of the design's time unit.
    ///
    /// # Errors
    ///
    /// Where memory is refused. Nothing changes then.
    pub fn later(&mut self, at: u64, proc: u32) -> Result<(), AllocError>
        ensures put { OnOk result (self.new ≡ with_moment at proc self.old) }
        ensures same { OnErr result (self.new ≡ self.old) }
    {
        if let Some(list) = self.later.get_mut(&at) {
            list.push(proc)?;
            return Ok(());
        }
        let mut list = Vec::new(self.alloc);
        list.push(proc)?;
        self.later.insert(at, list)?;
        Ok(())
    }

    /// Takes the Inactive list. It takes no memory.
    pub fn take_inactive(&mut self) -> Vec<u32>
        ensures taken { result.items ≡ self.old.inactive }
        ensures left { self.new ≡ record self.old { inactive = [] } }
    {
        mem::replace(&mut self.inactive, Vec::new(self.alloc))
    }

    /// Takes the NBA list. It takes no memory.
    pub fn take_nonblocking(&mut self) -> Vec<Put>
        ensures taken { result.items ≡ self.old.updates }
        ensures left { self.new ≡ record self.old { updates = [] } }
    {
        mem::replace(&mut self.updates, Vec::new(self.alloc))
    }

    /// Takes the list of the least moment, where that is at most `until`. It takes no memory.
    pub fn take_next(&mut self, until: u64) -> Option<(u64, Vec<u32>)>
        ensures { TakesNext until self.old self.new result }
    {
        let first = *self.later.first_key_value()?.0;
        if first > until {
            return None;
        }
        self.later.pop_first()
    }
}
