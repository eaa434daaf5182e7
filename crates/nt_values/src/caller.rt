// Who makes the calls of functions.
ghost use Rattle.std.specs.Prelude.{◌≤◌, ℕ, List, Option};
ghost use Rattle.nt_design.specs.Expressions.{Calls};
ghost use Rattle.nt_design.specs.Shapes.{Signature};
ghost use Rattle.nt_values.specs.Tells.{Tells};
ghost use Rattle.nt_values.specs.Typed.{IsCall};

use nt_design::Stop;
use nt_value::Value;
use sqlite_items::Items;
use std::alloc::Global;

/// Whoever makes the calls of functions.
pub trait Caller {
    // when it can be called
    ghost can_call: { Self → Type 0 };

    // the functions that may be called, by their numbers
    ghost signatures: { Self → List (Option Signature) };

    // what they give
    ghost calls: { Self → Calls };

    // the turns that there may be at most
    ghost most: { Self → ℕ };

    /// What a function gives for argument values, and the turns that are left of those there were (IEEE 1800-2017, 13.4).
    ///
    /// # Errors
    ///
    /// `TooLong` where that takes more turns. `OutOfMemory` where memory is refused.
    fn call(
        &self,
        alloc: Global,
        function: u32,
        args: Items<Value>,
        left: u32,
    ) -> Result<(Value, u32), Stop>
        requires may { can_call self.now }
        requires args { IsCall (signatures self.now) function args }
        requires few { left ≤ most self.now }
        ensures { Tells left (calls self.now function args left) result };
}
