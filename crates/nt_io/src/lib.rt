//! The outside as two traits: files that are read by place, and sinks that take bytes. Each object counts its own
//! failures, so a caller can fail only where an object that it was handed did.
#![tactic(auto)]

mod all;
mod files;
mod memory;
mod sink;
mod source;
#[cfg(test)]
mod tests;

pub use all::{ReadError, WriteFault, read_all, write_all};
pub use files::{FileInputs, FileSink, OutSink};
pub use memory::{FailAt, MOST_PATH, MemInputs, MemSink};
pub use sink::Sink;
pub use source::{Failed, Inputs};
