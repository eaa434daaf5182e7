// Calls of a design's functions.
ghost use Rattle.std.specs.Prelude.{◌≤◌, map};
ghost use Rattle.nt_design.specs.Meaning.{calls_to, most_turns};
ghost use Rattle.nt_design.specs.WellFormed.{signature_of};
ghost use Rattle.nt_values.specs.Tells.{Tells};
ghost use Rattle.nt_eval.specs.Callable.{MayRun, Nests, OfDesign};

use crate::evaluate::MOST_TURNS;
use crate::run::run;
use nt_design::{Function, Stop};
use nt_value::Value;
use nt_values::Caller;
use sqlite_items::Items;
use std::alloc::Global;

/// The functions of a design, with the turns that a call may take at most, over what makes calls with so many.
#[derive(Clone, Copy)]
pub(crate) struct Called<'a, F> {
    pub(crate) functions: &'a [Function],
    pub(crate) most: u32,
    pub(crate) inner: F,
}

impl<
    'a,
    F: Fn(Global, &[Function], u32, u32, Items<Value>, u32) -> Result<(Value, u32), Stop>,
> Caller for Called<'a, F> {
    ghost can_call = { λ s. Nests s.functions.now s.most (F.pre s.inner) (F.post s.inner) };

    ghost signatures = { λ s. map signature_of s.functions.now };

    ghost calls = { λ s. calls_to s.functions.now s.most };

    ghost most = { λ s. s.most };

    fn call(
        &self,
        alloc: Global,
        function: u32,
        args: Items<Value>,
        left: u32,
    ) -> Result<(Value, u32), Stop> {
        (self.inner)(alloc, self.functions, self.most, function, args, left)
    }
}

// What a function gives within so many turns at most. A call is a turn.
pub(crate) fn call_within(
    alloc: Global,
    functions: &[Function],
    most: u32,
    function: u32,
    args: Items<Value>,
    left: u32,
) -> Result<(Value, u32), Stop>
    requires design { OfDesign functions.now }
    requires call { MayRun functions.now function args }
    requires few { left ≤ most }
    ensures { Tells left (calls_to functions.now most function args left) result }
{
    if left == 0 {
        return Err(Stop::TooLong);
    }
    let caller = Called {
        functions,
        most: most - 1,
        inner: call_within,
    };
    run(
        alloc,
        &caller,
        &functions[function as usize],
        args,
        left - 1,
    )
}

/// The functions of a well-formed design, which make the calls of an event: within its turns.
#[derive(Clone, Copy)]
pub struct EventCalls<'a> {
    pub functions: &'a [Function],
}

impl<'a> Caller for EventCalls<'a> {
    ghost can_call = { λ s. OfDesign s.functions.now };

    ghost signatures = { λ s. map signature_of s.functions.now };

    ghost calls = { λ s. calls_to s.functions.now most_turns };

    ghost most = { λ s. most_turns };

    fn call(
        &self,
        alloc: Global,
        function: u32,
        args: Items<Value>,
        left: u32,
    ) -> Result<(Value, u32), Stop> {
        call_within(alloc, self.functions, MOST_TURNS, function, args, left)
    }
}
