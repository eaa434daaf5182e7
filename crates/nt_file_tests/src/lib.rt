//! Tests of files, by public calls.
#![tactic(auto)]

#[cfg(test)]
mod files;
