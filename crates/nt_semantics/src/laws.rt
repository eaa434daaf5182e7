// Laws of the definitions in specs/, each proved of every design and state.
ghost use Rattle.nt_semantics.specs.Laws.{ExecutionFits, OrdersArePermutations, DeclaredAreOrders, ArrivalsAreOrders, OnlyPending, AgainChangesNothing, RoundLeads, MoveFills, MoveKeeps, MoveStays, StartFits, StepKeeps, EndedIsFollowed, WitnessIsOne, OthersWakeTheWaiting, PhaseKeepsLists, RoundKeepsLists, RoundShows, OnlyActive, SlotsBeginSmall, RoundEnters, EntriesGo, RoundKeepsFits, RegionKeepsFits, SlotKeepsFits, RoundsStartFit, RoundGoes, RegionGoes, SlotGoes, RoundsStartTied, RoundKeepsTied, RegionKeepsTied, SlotKeepsTied};

/// The orders that a resolution of n slots may name are the permutations of the numbers below n (4.7).
pub fn orders_are_permutations()
    ensures { OrdersArePermutations }
{}

/// Declared order names each net's slots, once.
pub fn declared_are_orders()
    ensures { DeclaredAreOrders }
{}

/// So does an order of arrival, of marks on the net's slots.
pub fn arrivals_are_orders()
    ensures { ArrivalsAreOrders }
{}

/// An event that isn't pending has no step.
pub fn only_pending()
    ensures { OnlyPending }
{}

/// The entries of a round are steps from its start to its end.
pub fn round_leads()
    ensures { RoundLeads }
{}

/// One move makes Active not empty.
pub fn move_fills()
    ensures { MoveFills }
{}

/// A further copy of an evaluation or a resolution that was just performed is allowed, and changes nothing but the number of
/// its copies. An assignment to a variable that it reads is left out.
pub fn again_changes_nothing()
    ensures { AgainChangesNothing }
{}

/// A move of a state with nothing in Active stays in the slot, or begins a later one where the slot is over.
pub fn move_stays()
    ensures { MoveStays }
{}

/// A move up to a time limit of at most 2^48 keeps a state of its design.
pub fn move_keeps()
    ensures { MoveKeeps }
{}

/// The start state is one of its design.
pub fn start_fits()
    ensures { StartFits }
{}

/// A step keeps a state of its design.
pub fn step_keeps()
    ensures { StepKeeps }
{}

/// An execution up to a time limit of at most 2^48 ends in a state of its design.
pub fn execution_fits()
    ensures { ExecutionFits }
{}

/// The slots that have ended are those that a later one followed, and that of the last state where it is over.
pub fn ended_is_followed()
    ensures { EndedIsFollowed }
{}

/// A witness is the text of one list of entries.
pub fn witness_is_one()
    ensures { WitnessIsOne }
{}

/// After an event of another a procedure stands where it stood, or it waited, and is ready or waits on.
pub fn others_wake_the_waiting()
    ensures { OthersWakeTheWaiting }
{}

/// Phase Evaluate of one group leaves on the list each process that is ready.
pub fn phase_keeps_lists()
    ensures { PhaseKeepsLists }
{}

/// A round with one group keeps its ready list right.
pub fn round_keeps_lists()
    ensures { RoundKeepsLists }
{}

/// A round after the first of a state with something in Active has an entry, or an event that is too long.
pub fn round_shows()
    ensures { RoundShows }
{}

/// Only a state with something in Active has a step.
pub fn only_active()
    ensures { OnlyActive }
{}

/// A slot that begins is at most at the time limit, with at most one copy of each event.
pub fn slots_begin_small()
    ensures { SlotsBeginSmall }
{}

/// The entries of a round are allowed one after another, from its start to its end.
pub fn round_enters()
    ensures { RoundEnters }
{}

/// Entries that are allowed one after another go on within a slot: the moment stays, and each adds at most one copy of an event.
pub fn entries_go()
    ensures { EntriesGo }
{}

/// A round with one group keeps what is right between rounds: its list, and each `always_comb` that may begin on it.
pub fn round_keeps_fits()
    ensures { RoundKeepsFits }
{}

/// So does the next region.
pub fn region_keeps_fits()
    ensures { RegionKeepsFits }
{}

/// So does the next slot, up to a time limit of at most 2^48.
pub fn slot_keeps_fits()
    ensures { SlotKeepsFits }
{}

/// What is right between rounds is so at the start.
pub fn rounds_start_fit()
    ensures { RoundsStartFit }
{}

/// The entries of a round with one group lead within a slot from its start to its end, and what stops it takes too many turns there.
pub fn round_goes()
    ensures { RoundGoes }
{}

/// The next region leads within a slot to where it says.
pub fn region_goes()
    ensures { RegionGoes }
{}

/// The next slot begins by the one move of a slot that is over.
pub fn slot_goes()
    ensures { SlotGoes }
{}

/// At the start no procedure was put away.
pub fn rounds_start_tied()
    ensures { RoundsStartTied }
{}

/// Rounds keep the procedures that were put away on their lists.
pub fn round_keeps_tied()
    ensures { RoundKeepsTied }
{}

/// So does the next region.
pub fn region_keeps_tied()
    ensures { RegionKeepsTied }
{}

/// So does the next slot.
pub fn slot_keeps_tied()
    ensures { SlotKeepsTied }
{}
