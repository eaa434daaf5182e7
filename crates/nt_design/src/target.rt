// What assignments write.
use crate::Tree;
use sqlite_items::Items;

/// One step from a value into a part of it.
#[derive(Drop)]
pub enum Pick {
    /// The `count` leaves from `first` on (IEEE 1800-2017, 7.2).
    Leaves {
        first: u8,
        count: u8,
    },
    /// An element of an unpacked array of `size` elements, whose least index is `low` (7.4.6). With `up` the leftmost
    /// element has the least index, else the greatest.
    Item {
        index: Tree,
        low: u32,
        size: u32,
        up: bool,
    },
    /// `width` digits of one leaf, from the digit `low` on, counted from the least significant one as 0 (11.5.1).
    Part {
        low: Tree,
        width: u8,
    },
}

/// What an assignment writes.
#[derive(Drop)]
pub enum Target {
    /// The part of a variable to which the path leads.
    Var {
        var: u32,
        path: Items<Pick>,
    },
    /// A slot of a net: `width` digits from `low` on, or the whole net where both are 0.
    Slot {
        net: u32,
        slot: u32,
        low: u8,
        width: u8,
    },
    /// The part of a local to which the path leads.
    Local {
        local: u32,
        path: Items<Pick>,
    },
}
