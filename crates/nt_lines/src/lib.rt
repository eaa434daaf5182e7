//! The line that `$display` prints.
#![tactic(auto)]

mod format;
mod line;

pub use line::line_of;
