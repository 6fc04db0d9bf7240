//! Tests of calls with a guide, at concrete types.
#![tactic(auto)]

#[cfg(test)]
mod tests;
