// The assignments that a change wakes.
ghost use Rattle.std.specs.Prelude.{◌≡◌, ◌<◌, ◌≤◌, ◌^◌, ℕ, length, slice_set};
ghost use Rattle.nt_design.specs.WellFormed.{IsDesign};
ghost use Rattle.nt_semantics.specs.State.{count_at};
ghost use Rattle.nt_semantics.specs.Wake.{one_more_if, reads_at};
ghost use Rattle.nt_changes.specs.Woken.{assigns_woken};

use nt_design::{Design, Object};
use nt_sensitivity::is_one_of;
use nt_state::State;

// Whether an assignment reads an object.
fn reads_at(design: &Design, object: Object, assign: u32) -> bool
    requires { assign < length design.now.assigns }
    ensures { result ≡ reads_at design.now object assign }
{
    let driver = &design.assigns.as_slice()[assign as usize];
    is_one_of(driver.reads.as_slice(), object)
}

// One evaluation more, where the change wakes the assignment.
fn add_if(wakes: bool, state: &mut State, assign: u32)
    requires within { assign < length state.old.evaluations }
    requires few { count_at state.old.evaluations assign < 2 ^ 63 }
    ensures { state.new ≡ record state.old { evaluations = slice_set state.old.evaluations assign (one_more_if wakes (count_at state.old.evaluations assign)) } }
{
    if wakes {
        state.add_evaluation(assign);
    }
}

// What a change of an object does to the assignments: each that reads it is to be evaluated once more (IEEE 1800-2017,
// 4.3, 10.3).
pub(crate) fn wake_assigns(design: &Design, state: &mut State, object: Object)
    requires design { IsDesign design.now }
    requires assigns { length state.old.evaluations ≡ length design.now.assigns }
    requires few { (a : ℕ) → count_at state.old.evaluations a ≤ 2 ^ 62 }
    ensures { state.new ≡ assigns_woken design.now object state.old }
{
    let count = state.evaluations().len() as u32;
    for assign in 0..count {
        let wakes = reads_at(design, object, assign);
        add_if(wakes, state, assign);
    }
}
