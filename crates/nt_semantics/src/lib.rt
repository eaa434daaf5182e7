//! What a design does, as clause 4 has it: states, events, what one event does, whole executions, rounds, and their texts, in
//! specs/; and laws of these definitions. The code is the types of events, entries and deeds.
#![tactic(auto)]

mod deed;
mod event;
mod laws;
mod moved;
mod process;
mod standing;
mod work;

pub use deed::Deed;
pub use event::{Entry, Event, Order};
pub use laws::{
    again_changes_nothing, ended_is_followed, entries_go, execution_fits, move_fills, move_keeps,
    move_stays, only_active, only_pending, orders_are_permutations, others_wake_the_waiting,
    phase_keeps_lists, region_keeps_tied, round_enters, round_keeps_fits, round_keeps_lists,
    round_keeps_tied, round_leads, round_shows, slot_keeps_tied, slots_begin_small, start_fits,
    step_keeps, witness_is_one,
};
pub use moved::Moved;
pub use nt_design::Put;
pub use process::Process;
pub use standing::Standing;
pub use work::Work;
