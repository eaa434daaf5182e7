// Events, and the entries that stand for several of them.
ghost use Rattle.std.specs.Prelude.{◌≡◌};

use std::marker::Model;

/// The slots of a net, in the order in which a resolution takes them.
#[derive(Debug, Drop)]
pub struct Order {
    slots: Vec<u32>,
}

impl Model for Order {
    ghost use Rattle.std.specs.Prelude.{List, ℕ};

    ghost Value = { List ℕ };

    ghost view = { λ o. o.slots.items };
}

impl Order {
    /// The order of these slot numbers.
    pub fn new(slots: Vec<u32>) -> Order
        ensures { result ≡ slots.items }
    {
        Order { slots }
    }

    /// The slot numbers, in order.
    pub fn items(&self) -> &[u32]
        ensures { result.now ≡ self.now }
    {
        &self.slots
    }
}

/// One event of the Active region (IEEE 1800-2017, 4.4.2.2, 4.5).
#[derive(Debug, Drop)]
pub enum Event {
    /// One statement step of a procedure (9.2).
    Stmt { proc: u32 },
    /// One evaluation of a continuous assignment, with its write (4.9.1).
    Assign { assign: u32 },
    /// The first of the nonblocking updates that were moved to Active (4.9.4).
    Update,
    /// One resolution of a net, with its slots in an order, and its publication (6.6.7).
    Resolve { net: u32, order: Order },
}

/// An event, `count` times in a row.
#[derive(Debug, Drop)]
pub struct Entry {
    pub event: Event,
    pub count: u64,
}
