//! Tests of moves of a value between two keys, at concrete types.
#![tactic(auto)]

#[cfg(test)]
mod tests;
