//! Constant expressions: width, sign and value (IEEE 1800-2017, clause 11).
#![tactic(auto)]

mod constants;
mod draft;
mod evaluate;
mod forms;
mod laws;
mod lookup;
mod seen;
mod size;
mod value;
mod walk;

pub use constants::Constants;
pub use evaluate::{constant, constant_by, width_and_sign, width_and_sign_by};
pub use laws::one_answer;
pub use lookup::Lookup;
pub use seen::Seen;
pub use size::{
    Size, binary_size, choice_size, join, left_context, one_bit, right_context, signed_as,
    unary_context, unary_size,
};
pub use value::{counts, literal_at, width_of};
