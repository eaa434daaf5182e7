// Moves between regions and slots. Nothing here takes memory.
ghost use Rattle.std.specs.Prelude.{◌≡◌, ◌<◌, get_or, if◌then◌else◌, length, map, slice_set};
ghost use Rattle.std.specs.List.{list_any};
ghost use Rattle.nt_semantics.specs.Execution as execution;
ghost use Rattle.nt_semantics.specs.Execution.{MovedBy, active_standing, begin_slot, has_inactive, is_active, settle, standing_in_slot};
ghost use Rattle.nt_semantics.specs.Step.{is_pending_at, is_some_put};
ghost use Rattle.nt_semantics.specs.declared.standing.Standing.TheVariants.{Over, Ready};

use crate::State;
use crate::counts::any_left;
use nt_semantics::{Moved, Standing};
use sqlite_items::Items;

fn is_inactive(standing: &Standing) -> bool
    ensures { result ≡ execution.is_inactive standing.now }
{
    match standing {
        Standing::Inactive => true,
        Standing::Unbegun => false,
        Standing::Ready => false,
        Standing::Later { .. } => false,
        Standing::Waits { .. } => false,
        Standing::Over => false,
    }
}

// Whether a procedure that is here goes on in the slot of this moment.
fn is_later_at(standing: &Standing, moment: u64) -> bool
    ensures { (if result then Ready else standing.now) ≡ standing_in_slot moment standing.now }
{
    match standing {
        Standing::Later { at } => *at == moment,
        Standing::Unbegun => false,
        Standing::Ready => false,
        Standing::Inactive => false,
        Standing::Waits { .. } => false,
        Standing::Over => false,
    }
}

// The least moment of those before and that of a place.
fn sooner(standing: &Standing, next: Option<u64>) -> Option<u64>
    ensures { result ≡ execution.sooner standing.now next }
{
    let Standing::Later { at } = standing else {
        return next;
    };
    match next {
        None => Some(*at),
        Some(moment) => Some((*at).min(moment)),
    }
}

fn next_moment(standings: &[Standing]) -> Option<u64>
    ensures { result ≡ execution.next_moment standings.now }
{
    let mut next = None;
    for at in (0..standings.len()).rev() {
        next = sooner(&standings[at], next);
    }
    next
}

fn ready_if(ready: bool, standings: &mut Items<Standing>, at: usize)
    requires { at < length standings.old }
    ensures { standings.new ≡ slice_set standings.old at (if ready then Ready else get_or standings.old at Over) }
{
    if ready {
        standings.set(at, Standing::Ready);
    }
}

// The procedures that are Inactive become ready.
fn activate_all(standings: &mut Items<Standing>)
    ensures { standings.new ≡ map active_standing standings.old }
{
    for at in 0..standings.len() {
        let ready = is_inactive(&standings.as_slice()[at]);
        ready_if(ready, standings, at);
    }
}

// The procedures of the slot of this moment become ready.
fn begin_all(moment: u64, standings: &mut Items<Standing>)
    ensures { standings.new ≡ map (standing_in_slot moment) standings.old }
{
    for at in 0..standings.len() {
        let ready = is_later_at(&standings.as_slice()[at], moment);
        ready_if(ready, standings, at);
    }
}

impl State {
    fn has_ready(&self) -> bool
        ensures { result ≡ list_any (is_pending_at self.now) self.now.standings }
    {
        for standing in self.standings.as_slice() {
            if self.is_pending_at(standing) {
                return true;
            }
        }
        false
    }

    /// Whether an event is in Active (IEEE 1800-2017, 4.4.2.2).
    #[tactic(auto, unfolding(nt_semantics::specs::Execution::is_active))]
    pub fn is_active(&self) -> bool
        ensures { result ≡ is_active self.now }
    {
        if self.has_ready() {
            return true;
        }
        if any_left(self.evaluations.as_slice()) {
            return true;
        }
        if any_left(self.resolutions.as_slice()) {
            return true;
        }
        self.first_moved().is_some()
    }

    /// Whether an event is in Inactive (4.4.2.3).
    pub fn has_inactive(&self) -> bool
        ensures { result ≡ has_inactive self.now }
    {
        self.standings.as_slice().iter().any(is_inactive)
    }

    /// The least later moment to which a procedure was delayed (9.4.1).
    pub fn next_moment(&self) -> Option<u64>
        ensures { result ≡ execution.next_moment self.now.standings }
    {
        next_moment(self.standings.as_slice())
    }

    // Whether an update is in NBA.
    fn has_update(&self) -> bool
        ensures { result ≡ is_some_put self.now.nonblocking }
    {
        match self.nonblocking() {
            [] => false,
            [_, ..] => true,
        }
    }

    // The Inactive events become active (4.4.2.3).
    fn activate(&mut self)
        ensures { self.new ≡ execution.activate self.old }
    {
        activate_all(&mut self.standings);
    }

    // A slot begins: its events are active, and no line is displayed in it yet (4.4).
    fn begin_slot(&mut self, moment: u64)
        ensures { self.new ≡ begin_slot moment self.old }
    {
        begin_all(moment, &mut self.standings);
        self.set_moment(moment);
    }
}

/// Makes the one move of a state with nothing in Active, up to the time limit `until`: Inactive events become active, else
/// nonblocking updates, else the least later slot begins, unless `$finish` was met (4.5, 20.2). It takes no memory.
pub fn advance(state: &mut State, until: u64) -> Moved
    ensures state { state.new ≡ settle until state.old }
    ensures moved { MovedBy until state.old result }
{
    if state.is_active() {
        return Moved::Ready;
    }
    if state.has_inactive() {
        state.activate();
        return Moved::Region;
    }
    if state.has_update() {
        state.move_updates();
        return Moved::Region;
    }
    if state.finished() {
        return Moved::End;
    }
    match state.next_moment() {
        None => Moved::End,
        Some(moment) => {
            if moment > until {
                return Moved::End;
            }
            state.begin_slot(moment);
            Moved::Slot
        }
    }
}
