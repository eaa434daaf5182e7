//! Tests of tokens, trees and constants, by public calls.
#![tactic(auto)]

#[cfg(test)]
mod constants;
#[cfg(test)]
mod expressions;
#[cfg(test)]
mod tokens;
#[cfg(test)]
mod trees;
