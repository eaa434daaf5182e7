// What the tie between queues and a state gives.
ghost use Rattle.nt_queue.specs.Ties.{TiesTellMoves};

/// Procedures that were put away, each on its list, tell whether something is in Inactive, and which slot is next.
pub fn ties_tell_moves()
    ensures { TiesTellMoves }
{}
