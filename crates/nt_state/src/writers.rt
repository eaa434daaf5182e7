// What is written of a state, one column at a time.
ghost use Rattle.std.specs.Prelude.{◌≡◌, ◌<◌, ◌^◌, ◌∷◌, ◌++◌, [], OnOk, false, true, drop, length, slice_set, slice_get, Some, List};
ghost use Rattle.nt_semantics.specs.Execution.{move_updates};
ghost use Rattle.nt_semantics.specs.State.{count_at, fewer, locals_at, more, work_at};
ghost use Rattle.nt_semantics.specs.declared.work.Work.{Work as WorkValue};
ghost use Rattle.nt_work.specs.Plans.{resumed};

use crate::State;
use crate::counts::{add_one, take_some};
use nt_design::Put;
use nt_semantics::Standing;
use nt_value::{Text, Value};
use nt_work::Plan;
use sqlite_items::Items;
use std::alloc::AllocError;
use std::mem;

impl State {
    /// A variable takes a value.
    pub fn set_var(&mut self, var: u32, value: Value)
        requires { var < length self.old.vars }
        ensures { self.new ≡ record self.old { vars = slice_set self.old.vars var value } }
    {
        self.vars.set(var as usize, value);
    }

    /// A net takes a value.
    pub fn set_net(&mut self, net: u32, value: Value)
        requires { net < length self.old.nets }
        ensures { self.new ≡ record self.old { nets = slice_set self.old.nets net value } }
    {
        self.nets.set(net as usize, value);
    }

    /// The slot of an assignment takes a value.
    pub fn set_slot(&mut self, assign: u32, value: Value)
        requires { assign < length self.old.slots }
        ensures { self.new ≡ record self.old { slots = slice_set self.old.slots assign value } }
    {
        self.slots.set(assign as usize, value);
    }

    /// A procedure is at another place.
    pub fn set_standing(&mut self, proc: u32, standing: Standing)
        requires { proc < length self.old.standings }
        ensures { self.new ≡ record self.old { standings = slice_set self.old.standings proc standing } }
    {
        self.standings.set(proc as usize, standing);
    }

    /// A procedure goes on by a plan.
    ///
    /// # Errors
    ///
    /// Where memory is refused. Nothing is known then of what the procedure has to do.
    pub fn resume(&mut self, proc: u32, plan: Plan) -> Result<(), AllocError>
        requires { proc < length self.old.work }
        ensures { OnOk result ((first : WorkValue) (rest : List WorkValue) → work_at self.old proc ≡ first ∷ rest → self.new ≡ record self.old { work = slice_set self.old.work proc (resumed plan first rest) }) }
    {
        self.work[proc as usize].resume(plan)
    }

    /// A loop variable of a procedure takes a value.
    pub fn set_local(&mut self, proc: u32, local: u32, value: Value)
        requires proc { proc < length self.old.locals }
        requires local { local < length (locals_at self.old proc) }
        ensures { self.new ≡ record self.old { locals = slice_set self.old.locals proc (slice_set (locals_at self.old proc) local value) } }
    {
        self.locals[proc as usize].set(local as usize, value);
    }

    /// A procedure has done a step.
    pub fn set_stepped(&mut self, proc: u32)
        requires { proc < length self.old.fresh }
        ensures { self.new ≡ record self.old { fresh = slice_set self.old.fresh proc false } }
    {
        self.fresh.set(proc as usize, false);
    }

    /// One more evaluation of an assignment is in Active.
    pub fn add_evaluation(&mut self, assign: u32)
        requires within { assign < length self.old.evaluations }
        requires few { count_at self.old.evaluations assign < 2 ^ 63 }
        ensures { self.new ≡ record self.old { evaluations = more self.old.evaluations assign } }
    {
        add_one(&mut self.evaluations, assign);
    }

    /// So many evaluations of an assignment leave Active.
    pub fn take_evaluations(&mut self, assign: u32, some: u64)
        requires { assign < length self.old.evaluations }
        ensures { self.new ≡ record self.old { evaluations = fewer some self.old.evaluations assign } }
    {
        take_some(&mut self.evaluations, assign, some);
    }

    /// One more resolution of a net is in Active.
    pub fn add_resolution(&mut self, net: u32)
        requires within { net < length self.old.resolutions }
        requires few { count_at self.old.resolutions net < 2 ^ 63 }
        ensures { self.new ≡ record self.old { resolutions = more self.old.resolutions net } }
    {
        add_one(&mut self.resolutions, net);
    }

    /// So many resolutions of a net leave Active.
    pub fn take_resolutions(&mut self, net: u32, some: u64)
        requires { net < length self.old.resolutions }
        ensures { self.new ≡ record self.old { resolutions = fewer some self.old.resolutions net } }
    {
        take_some(&mut self.resolutions, net, some);
    }

    /// One more update is in the NBA region.
    ///
    /// # Errors
    ///
    /// Where memory is refused. Nothing changes then.
    pub fn schedule(&mut self, put: Put) -> Result<(), AllocError>
        ensures { OnOk result (self.new ≡ record self.old { nonblocking = self.old.nonblocking ++ put ∷ [] }) }
    {
        self.nonblocking.push(put)?;
        Ok(())
    }

    /// Takes the first of the updates that were moved to Active.
    pub fn take_moved(&mut self) -> Option<Put>
        ensures { self.new ≡ record self.old { moved = drop 1 self.old.moved } }
    {
        self.moved.pop()
    }

    /// The updates in the NBA region become active, in order (IEEE 1800-2017, 4.4.2.4).
    pub fn move_updates(&mut self)
        ensures { self.new ≡ move_updates self.old }
    {
        self.moved = mem::replace(&mut self.nonblocking, Vec::new(self.alloc));
        self.moved.reverse();
    }

    /// The moment is a later one, in which no line is displayed yet.
    pub fn set_moment(&mut self, moment: u64)
        ensures { self.new ≡ record self.old { moment = moment; shown = [] } }
    {
        self.moment = moment;
        self.shown = Items::new(self.alloc);
    }

    /// One more line was displayed in this slot, by a procedure.
    ///
    /// # Errors
    ///
    /// Where memory is refused. Nothing changes then.
    pub fn show(&mut self, proc: u32, line: Text) -> Result<(), AllocError>
        ensures { OnOk result (self.new ≡ record self.old { shown = self.old.shown ++ (proc, line) ∷ [] }) }
    {
        self.shown.push((proc, line))?;
        Ok(())
    }

    /// `$finish` was met.
    pub fn finish(&mut self)
        ensures { self.new ≡ record self.old { finished = true } }
    {
        self.finished = true;
    }
}
