//! Tests of ordered scans of a dictionary.
#![tactic(auto)]

#[cfg(test)]
mod scans;
