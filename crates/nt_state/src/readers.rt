// What is read of a state. Nothing here takes memory.
ghost use Rattle.std.specs.Prelude.{◌≡◌, ◌<◌, ◌∷◌, [], List, MatchOption, Some, if◌then◌else◌, length, slice_get};
ghost use Rattle.nt_semantics.specs.State.{locals_at, standing_at};
ghost use Rattle.nt_semantics.specs.Step.{copies_of, is_pending_at, may_begin};
ghost use Rattle.nt_design.specs.declared.put.Put.{Put as PutValue};

use crate::State;
use crate::counts::{any_true, count_of};
use nt_design::Put;
use nt_semantics::{Event, Standing};
use nt_value::{Text, Value};
use nt_work::Todo;

impl State {
    /// The moment, in units of the design's time unit.
    pub fn time(&self) -> u64
        ensures { result ≡ self.now.moment }
    {
        self.moment
    }

    /// The values of the variables.
    pub fn vars(&self) -> &[Value]
        ensures { result.now ≡ self.now.vars }
    {
        self.vars.as_slice()
    }

    /// The value of a variable.
    pub fn var(&self, var: u32) -> &Value
        requires { var < length self.now.vars }
        ensures { slice_get self.now.vars var ≡ Some result.now }
    {
        &self.vars.as_slice()[var as usize]
    }

    /// The values of the nets.
    pub fn nets(&self) -> &[Value]
        ensures { result.now ≡ self.now.nets }
    {
        self.nets.as_slice()
    }

    /// The value of a net.
    pub fn net(&self, net: u32) -> &Value
        requires { net < length self.now.nets }
        ensures { slice_get self.now.nets net ≡ Some result.now }
    {
        &self.nets.as_slice()[net as usize]
    }

    /// The values of the slots, by the number of the assignment that drives each.
    pub fn slots(&self) -> &[Value]
        ensures { result.now ≡ self.now.slots }
    {
        self.slots.as_slice()
    }

    /// Where the procedures are.
    pub fn standings(&self) -> &[Standing]
        ensures { result.now ≡ self.now.standings }
    {
        self.standings.as_slice()
    }

    /// What the procedures have to do.
    pub fn work(&self) -> &[Todo]
        ensures { result.now ≡ self.now.work }
    {
        &self.work
    }

    /// The loop variables of a procedure.
    pub fn locals(&self, proc: u32) -> &[Value]
        ensures { result.now ≡ locals_at self.now proc }
    {
        match self.locals.get(proc as usize) {
            Some(locals) => locals.as_slice(),
            None => &[],
        }
    }

    /// Whether an `always_comb` may begin: every other procedure has done a step (IEEE 1800-2017, 9.2.2.2).
    pub fn may_begin(&self) -> bool
        ensures { result ≡ may_begin self.now }
    {
        !any_true(self.fresh.as_slice())
    }

    /// How many evaluations of each assignment are in Active.
    pub fn evaluations(&self) -> &[u64]
        ensures { result.now ≡ self.now.evaluations }
    {
        self.evaluations.as_slice()
    }

    /// How many resolutions of each net are in Active.
    pub fn resolutions(&self) -> &[u64]
        ensures { result.now ≡ self.now.resolutions }
    {
        self.resolutions.as_slice()
    }

    /// The updates in the NBA region, in order.
    pub fn nonblocking(&self) -> &[Put]
        ensures { result.now ≡ self.now.nonblocking }
    {
        &self.nonblocking
    }

    /// The first of the updates that were moved to Active.
    pub fn first_moved(&self) -> Option<&Put>
        ensures { MatchOption result (self.now.moved ≡ []) (λ first. (rest : List PutValue) × (self.now.moved ≡ first.now ∷ rest)) }
    {
        self.moved.last()
    }

    /// The lines displayed in this slot, each with its procedure.
    pub fn shown(&self) -> &[(u32, Text)]
        ensures { result.now ≡ self.now.shown }
    {
        self.shown.as_slice()
    }

    /// Whether `$finish` was met.
    pub fn finished(&self) -> bool
        ensures { result ≡ self.now.finished }
    {
        self.finished
    }

    /// How many copies of the event are in Active, whatever order a resolution names.
    pub fn count(&self, event: &Event) -> u64
        ensures { result ≡ copies_of self.now event.now }
    {
        match event {
            Event::Stmt { proc } => self.steps_of(*proc),
            Event::Assign { assign } => count_of(self.evaluations.as_slice(), *assign),
            Event::Update => self.moved.len() as u64,
            Event::Resolve { net, .. } => count_of(self.resolutions.as_slice(), *net),
        }
    }

    // One step of a procedure, where it is in Active.
    fn steps_of(&self, proc: u32) -> u64
        ensures { result ≡ (if is_pending_at self.now (standing_at self.now proc) then 1 else 0) }
    {
        if self.is_pending(proc) { 1 } else { 0 }
    }

    /// Whether a step of a procedure is in Active.
    pub fn is_pending(&self, proc: u32) -> bool
        ensures { result ≡ is_pending_at self.now (standing_at self.now proc) }
    {
        match self.standings.get(proc as usize) {
            Some(standing) => self.is_pending_at(standing),
            None => false,
        }
    }

    /// Whether a procedure that is here has a step in Active.
    pub fn is_pending_at(&self, standing: &Standing) -> bool
        ensures { result ≡ is_pending_at self.now standing.now }
    {
        match standing {
            Standing::Unbegun => self.may_begin(),
            Standing::Ready => true,
            Standing::Inactive => false,
            Standing::Later { .. } => false,
            Standing::Waits { .. } => false,
            Standing::Over => false,
        }
    }
}
