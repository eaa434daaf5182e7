//! Drafts of typed expressions from those of their operands, form by form.
#![tactic(auto)]

mod assign;
mod calls;
mod constants;
mod finish;
mod operands;
mod operators;
mod selects;

pub use assign::sent;
pub use calls::{call_form, callee_at};
pub use constants::{counted, measured};
pub use operands::{Leafed, Selfed, Several, base_of, grow, leafed_of, no_parts, self_of};
pub use operators::{binary_form, choose_form, literal_form, sign_form, unary_form};
pub use selects::{
    concat_form, indexed_form, item_form, member_form, part_form, read_form, repeat_form,
    size_form, time_form,
};
