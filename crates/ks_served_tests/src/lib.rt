//! Tests of callers that are served with guides or hints, at concrete types.
#![tactic(auto)]

#[cfg(test)]
mod tests;
