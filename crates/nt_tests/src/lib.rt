//! Tests of designs and of the machine, by public calls.
#![tactic(auto)]

#[cfg(test)]
mod designs;
#[cfg(test)]
mod machine;
