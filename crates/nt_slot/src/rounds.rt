// Runs that are made round by round.
ghost use Rattle.std.specs.Prelude.{◌≡◌, ◌<◌, ◌-◌, ◌^◌, not, false, true, slice_get, length, map, List, Bool, Option, Some, IfOk, OnOk, OnErr, IfSome};
ghost use Rattle.nt_semantics.specs.Execution.{is_active, is_over};
ghost use Rattle.nt_semantics.specs.Rounds.{RoundState};
ghost use Rattle.nt_semantics.specs.declared.event.Entry.{Entry as EntryValue};
ghost use Rattle.nt_semantics.specs.declared.event.Event.{Event as EventValue};
ghost use Rattle.nt_semantics.specs.Slots.{Few};
ghost use Rattle.nt_slot.specs.Calls.{Setting};
ghost use Rattle.nt_slot.specs.Leaving.{RoundLeaves, RegionLeaves, TimeLeaves};

use nt_semantics::{Entry, Event};
use nt_value::{Text, Value};
use sqlite_items::Items;
use std::alloc::AllocError;

/// What a round has done: its entries, and the event that was too long, if it met one.
#[derive(Debug, Drop)]
pub struct RoundEnd {
    pub entries: Items<Entry>,
    pub too_long: Option<Event>,
}

/// A run of a design that is made by rounds, from time slot to time slot.
pub trait Rounds {
    /// What no call changes: the design, and whether resolutions take slots in ascending order.
    ghost setting: { Self → Setting };

    /// The state, the ready lists, the order of what moves, and whether a round was made.
    ghost meaning: { Self → RoundState };

    /// Whether calls may be made that change it: so at the start, and after each that did not end for want of memory.
    ghost usable: { Self → Type 0 };

    /// What calls make of such a meaning, with these entries and this event that is too long.
    ghost made: { Setting → RoundState → List EntryValue → Option EventValue → RoundState → Type 0 };

    /// The moment.
    fn time(&self) -> u64
        ensures { result ≡ (meaning self.now).state.moment };

    /// The value of a variable.
    fn var(&self, var: u32) -> &Value
        requires { var < length (meaning self.now).state.vars }
        ensures { slice_get (meaning self.now).state.vars var ≡ Some result.now };

    /// The value of a net.
    fn net(&self, net: u32) -> &Value
        requires { net < length (meaning self.now).state.nets }
        ensures { slice_get (meaning self.now).state.nets net ≡ Some result.now };

    /// The lines displayed in this slot.
    fn shown(&self) -> &[Text]
        ensures { result.now ≡ map (λ line. line.1) (meaning self.now).state.shown };

    /// Whether `$finish` was met.
    fn finished(&self) -> bool
        ensures { result ≡ (meaning self.now).state.finished };

    /// Whether nothing is in Active.
    fn active_empty(&self) -> bool
        ensures { result ≡ not (is_active (meaning self.now).state) };

    /// Makes a round.
    ///
    /// # Errors
    ///
    /// Where memory is refused. No further call may be made then.
    fn round(&mut self) -> Result<RoundEnd, AllocError>
        requires usable { usable self.old }
        requires few { Few (2 ^ 62 - 2 ^ 20) (meaning self.old).state }
        ensures usable { OnOk result (usable self.new) }
        ensures setting { OnOk result (setting self.new ≡ setting self.old) }
        ensures round { IfOk result (RoundLeaves (made (setting self.old)) (setting self.old) (meaning self.old) (meaning self.new)) };

    /// Makes the next region of the slot active, where there is one; updates are performed as a round of their own.
    ///
    /// # Errors
    ///
    /// Where memory is refused. No further call may be made then.
    fn next_region(&mut self) -> Result<Option<RoundEnd>, AllocError>
        requires usable { usable self.old }
        requires few { Few (2 ^ 62 - 2 ^ 20) (meaning self.old).state }
        requires empty { is_active (meaning self.old).state ≡ false }
        ensures usable { OnOk result (usable self.new) }
        ensures setting { OnOk result (setting self.new ≡ setting self.old) }
        ensures region { IfOk result (RegionLeaves (made (setting self.old)) (setting self.old) (meaning self.old) (meaning self.new)) };

    /// Begins the next slot up to a time limit, where there is one and `$finish` was not met.
    fn next_time(&mut self, until: u64) -> Option<u64>
        requires usable { usable self.old }
        requires over { is_over (meaning self.old).state ≡ true }
        ensures usable { usable self.new }
        ensures setting { setting self.new ≡ setting self.old }
        ensures time { TimeLeaves (made (setting self.old)) until (meaning self.old) (meaning self.new) result };
}
