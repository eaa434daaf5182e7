//! Parts of values: leaves, elements of arrays, digits, paths into a value, and several values as one.
#![tactic(auto)]

mod digits;
mod index;
mod leaves;
mod one;
mod several;
mod slices;
mod step;

pub use digits::{part_at, with_part};
pub use index::{Index, count_of, index_of, position_of};
pub use leaves::{element_at, item_at, leaves_at, shape_of, value_at, with_item, with_leaves};
pub use one::{int_value, is_same_value, of_bits, only_of, test_of, time_value};
pub use several::{concatenated, gathered, merged};
pub use step::{Step, part_by, with_part_by, written};
