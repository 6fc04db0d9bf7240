//! Tests of calls that begin at a hint: where each is decided.
#![tactic(auto)]

#[cfg(test)]
mod tests;
